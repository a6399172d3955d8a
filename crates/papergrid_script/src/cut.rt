//! Texts cut at bytes: a line at its newline, a line at its first backslash, a text at a byte.

ghost use Rattle.std.specs.Prelude.{◌≡◌, ◌<◌, ◌==◌, ◌+◌, ◌∷◌, length, min, take, drop, slice_index, IfSome, IsUtf8, option_map};
ghost use Rattle.std.specs.List.{position_or_len};
ghost use Rattle.papergrid_text.specs.LinesLeft.{lines_of_rest};
ghost use Rattle.papergrid_text.specs.Text.{split_lines};
ghost use Rattle.papergrid_script.specs.Grammar.{parted_at, parted_at_last};

use papergrid_text::search::{find_byte, find_either};
use papergrid_text::string::cut_line_at;

/// The first line, how many bytes of it stand before its first mark, all where it has none, and what
/// stands after its newline.
pub fn cut_marked_line(text: &str, mark: u8) -> (&str, usize, Option<&str>)
    ensures lines { split_lines text.now ≡ result.0.now ∷ lines_of_rest result.2 }
    ensures mark { result.1 ≡ position_or_len (λ b. b == mark) result.0.now }
    ensures line { IsUtf8 result.0.now }
    ensures rest { IfSome result.2 (λ rest. IsUtf8 rest.now) }
{
    let (end, marked) = find_marked_end(text.as_bytes(), mark);
    let (line, rest) = cut_line_at(text, end);
    (line, marked, rest)
}

/// Where the first line ends, and where before that its first mark is, if there is one.
fn find_marked_end(bytes: &[u8], mark: u8) -> (usize, usize)
    ensures end { result.0 ≡ position_or_len (λ b. b == 10) bytes.now }
    ensures mark { result.1 ≡ min (position_or_len (λ b. b == mark) bytes.now) result.0 }
{
    let stop = find_either(bytes, b'\n', mark);
    if bytes.len() <= stop {
        return (stop, stop);
    }
    if bytes[stop] == b'\n' {
        return (stop, stop);
    }
    (stop + find_byte(&bytes[stop..], b'\n'), stop)
}

/// What stands before an ASCII byte of a text, and what stands after it.
pub fn split_around(text: &str, at: usize) -> (&str, &str)
    requires within { at < length text.now }
    requires ascii { slice_index text.now at < 128 }
    ensures before { result.0.now ≡ take at text.now }
    ensures after { result.1.now ≡ drop (at + 1) text.now }
    ensures text { IsUtf8 result.0.now × IsUtf8 result.1.now }
{
    (&text[..at], &text[at + 1..])
}

/// What stands before the first such byte, and what stands after it.
pub fn split_at_byte(text: &str, byte: u8) -> Option<(&str, &str)>
    requires { byte < 128 }
    ensures parts { option_map (λ parts. (parts.0.now, parts.1.now)) result
        ≡ parted_at byte text.now }
    ensures text { IfSome result (λ parts. IsUtf8 parts.0.now × IsUtf8 parts.1.now) }
{
    let at = find_byte(text.as_bytes(), byte);
    if at == text.len() {
        return None;
    }
    Some(split_around(text, at))
}

/// What stands before the last such byte, and what stands after it.
pub fn split_at_last_byte(text: &str, byte: u8) -> Option<(&str, &str)>
    requires { byte < 128 }
    ensures parts { option_map (λ parts. (parts.0.now, parts.1.now)) result
        ≡ parted_at_last byte text.now }
    ensures text { IfSome result (λ parts. IsUtf8 parts.0.now × IsUtf8 parts.1.now) }
{
    let bytes = text.as_bytes();
    let mut at = bytes.len();
    while 0 < at {
        at -= 1;
        if bytes[at] == byte {
            return Some(split_around(text, at));
        }
    }
    None
}
