//! The width of a text by its runs of printable ASCII.

ghost use Rattle.std.specs.Prelude.{◌≡◌, ◌==◌, IsUtf8, chars, false, get_or, IfSome};
ghost use Rattle.std.specs.Int.{is_in_range};
ghost use Rattle.std.specs.List.{position_or_len};
ghost use Rattle.unicode_width.specs.Width.{str_width};
ghost use Rattle.papergrid_text.specs.ForProofs.Runs.{IsSplitAtRun};

use crate::width::printable::count_printable;
use crate::width::simple::width_by_simple;
use unicode_width::UnicodeWidthStr;

/// The width of a text. Its runs of printable ASCII are as wide as they are long, and what stands between
/// them is measured by itself.
// Out of line, so that the code for short texts stays small.
#[inline(never)]
pub fn width_by_runs(text: &str) -> usize
    ensures { result ≡ str_width false (chars text.now) }
{
    let mut width = 0usize;
    let mut rest = text;
    while let Some((before, run, after)) = split_at_run(rest) {
        width += width_by_simple(before, 0) + run;
        rest = after;
    }
    width + rest.width()
}

// What stands before the first run of printable ASCII, how long the run is, and what stands after it.
// `None` where there is no run, or where what follows it may ask for the emoji of its last character.
fn split_at_run(text: &str) -> Option<(&str, usize, &str)>
    ensures parts { IfSome result (λ parts. IsSplitAtRun text.now parts.0.now parts.1 parts.2.now) }
    ensures text { IfSome result (λ parts. IsUtf8 parts.0.now × IsUtf8 parts.2.now) }
{
    let start = count_others(text.as_bytes());
    let run = count_printable(&text[start..]);
    if run == 0 {
        return None;
    }
    let after = &text[start + run..];
    if may_select(after) {
        return None;
    }
    Some((&text[..start], run, after))
}

// Whether the text may begin with U+FE0F, which asks for the emoji of what stands before it.
fn may_select(text: &str) -> bool
    ensures { result ≡ (get_or text.now 0 0 == 0xEF) }
{
    matches!(text.as_bytes(), [0xEF, ..])
}

// How many bytes stand before the first one of printable ASCII.
fn count_others(bytes: &[u8]) -> usize
    ensures { result ≡ position_or_len (is_in_range 0x20 0x7E) bytes.now }
{
    let mut count = 0usize;
    for b in bytes {
        if *b >= 0x20 && *b <= 0x7E {
            return count;
        }
        count += 1;
    }
    count
}
