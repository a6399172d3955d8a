//! Texts: their lines, their widths and their tabs. Source: `util/string.rs`.

ghost use Rattle.std.specs.Prelude.{◌≡◌, ◌<◌, ◌==◌, ◌+◌, ◌++◌, ◌∷◌, ℕ, List, Option, count_by, length, replicate, string_bytes, take, false, IfOk, IfSome, IsUtf8};
ghost use Rattle.std.specs.Cow.{cow_str_bytes, IsOwnedStr};
ghost use Rattle.std.specs.Iterator.{YieldsFirstRef, item_count};
ghost use Rattle.std.specs.Int.{is_in_range};
ghost use Rattle.std.specs.List.{position_or_len, prefix_len};
ghost use Rattle.std.specs.Option.{unwrap_or};
ghost use Rattle.std.specs.Str.{encode_utf8_all};
ghost use Rattle.unicode_width.specs.Width.{char_width};
ghost use Rattle.papergrid_text.specs.LinesLeft.{lines_left, lines_of_rest};
ghost use Rattle.papergrid_text.specs.Text.{character_of, split_lines, width_of, text_width, text_dimension, is_spaced, in_place_of, tabs_replaced};

use crate::count::count_byte;
use crate::search::find_byte;
use crate::width::{count_printable, is_printable, width, width_by_characters};
use std::alloc::{AllocError, Global};
use std::borrow::CowStr;
use std::iter::Iterator;
use unicode_width::UnicodeWidthChar;

/// The lines of a text, as slices of it. It ends for good after the last one.
#[derive(Clone, Debug, Drop)]
pub struct Lines<'a> {
    rest: Option<&'a str>,
}

impl<'a> Iterator for Lines<'a> {
    type Item = &'a str;

    ghost next_gives = { YieldsFirstRef lines_left };

    ghost remaining = { item_count lines_left };

    fn next(&mut self) -> Option<&'a str> {
        let (line, rest) = cut_line(self.rest?);
        self.rest = rest;
        Some(line)
    }
}

// The first line, and what stands after its newline.
fn cut_line(text: &str) -> (&str, Option<&str>)
    ensures lines { split_lines text.now ≡ result.0.now ∷ lines_of_rest result.1 }
    ensures line { IsUtf8 result.0.now }
    ensures rest { IfSome result.1 (λ rest. IsUtf8 rest.now) }
{
    cut_line_at(text, find_byte(text.as_bytes(), b'\n'))
}

/// The first line, and what stands after its newline, where it is known where the line ends: `end` has
/// to be the place of the first newline, in bytes, or the length of the text where there is none.
pub fn cut_line_at(text: &str, end: usize) -> (&str, Option<&str>)
    requires { end ≡ position_or_len (λ b. b == 10) text.now }
    ensures lines { split_lines text.now ≡ result.0.now ∷ lines_of_rest result.1 }
    ensures line { result.0.now ≡ take end text.now }
    ensures text { IsUtf8 result.0.now }
    ensures rest { IfSome result.1 (λ rest. IsUtf8 rest.now) }
{
    if end == text.len() {
        return (text, None);
    }
    (&text[..end], Some(&text[end + 1..]))
}

/// The slices of a text between its newlines. After a trailing newline comes an empty last line, and
/// the empty text has one line.
pub fn get_lines(text: &str) -> Lines<'_>
    ensures { lines_left result ≡ split_lines text.now }
{
    Lines { rest: Some(text) }
}

/// The number of lines that `get_lines` gives: one more than there are newlines.
pub fn count_lines(text: &str) -> usize
    ensures lines { result ≡ length (split_lines text.now) }
    ensures newlines { result ≡ count_by (λ b. b == 10) text.now + 1 }
{
    count_byte(text.as_bytes(), b'\n') + 1
}

/// The number of tabs.
pub fn count_tabs(text: &str) -> usize
    ensures { result ≡ count_by (λ b. b == 9) text.now }
{
    count_byte(text.as_bytes(), b'\t')
}

/// How many columns of a terminal the text takes.
pub fn get_string_width(text: &str) -> usize
    ensures { result ≡ width_of text.now }
{
    width(text)
}

/// How many columns of a terminal the line takes.
pub fn get_line_width(text: &str) -> usize
    ensures { result ≡ width_of text.now }
{
    get_string_width(text)
}

/// How many columns of a terminal the character takes, 0 where it takes none.
pub fn get_char_width(c: char) -> usize
    ensures { result ≡ unwrap_or (char_width false c) 0 }
{
    c.width().unwrap_or(0)
}

/// The greatest width of std's lines, 0 where there is no line.
///
/// Std's lines lack an empty last line, and a carriage return right before a newline.
pub fn get_text_width(text: &str) -> usize
    ensures { result ≡ text_width text.now }
{
    if is_printable(text) {
        return text.len();
    }
    let mut width = 0usize;
    for line in text.lines() {
        width = width.max(get_line_width(line));
    }
    width
}

/// The number of lines that `get_lines` gives, and the greatest width of them. Carriage returns count.
pub fn get_text_dimension(text: &str) -> (usize, usize)
    ensures { result ≡ text_dimension text.now }
{
    // Most texts are printable ASCII.
    let printable = count_printable(text);
    if printable == text.len() {
        return (1, printable);
    }
    dimension_of_lines(text, printable)
}

// The same, where it is known how many bytes at the front are printable ASCII.
// Out of line, so that the code for printable texts stays small.
#[inline(never)]
fn dimension_of_lines(text: &str, printable: usize) -> (usize, usize)
    requires { printable ≡ prefix_len (is_in_range 0x20 0x7E) text.now }
    ensures { result ≡ text_dimension text.now }
{
    let mut count = 1usize;
    let (mut width, mut rest) = measure_first_line(text, printable);
    while let Some(left) = rest {
        let (line_width, after) = measure_first_line(left, count_printable(left));
        count += 1;
        width = width.max(line_width);
        rest = after;
    }
    (count, width)
}

// The width of the first line, and what stands after its newline, where it is known how many bytes at the
// front are printable ASCII.
#[inline(always)]
fn measure_first_line(text: &str, printable: usize) -> (usize, Option<&str>)
    requires { printable ≡ prefix_len (is_in_range 0x20 0x7E) text.now }
    ensures first { (line : List ℕ)
        × (split_lines text.now ≡ line ∷ lines_of_rest result.1) × (result.0 ≡ width_of line) }
    ensures text { IfSome result.1 (λ rest. IsUtf8 rest.now) }
{
    if printable == text.len() {
        return (printable, None);
    }
    if text.as_bytes()[printable] == b'\n' {
        return (printable, Some(&text[printable + 1..]));
    }
    let (line, rest) = cut_line(text);
    (width_by_characters(line, printable), rest)
}

/// The character that the text is, if it is exactly one.
#[tactic(auto, unfolding(crate::specs::Text::character_of))]
pub fn single_character(text: &str) -> Option<char>
    ensures { result ≡ character_of text.now }
{
    let mut characters = text.chars();
    let first = characters.next()?;
    match characters.next() {
        None => Some(first),
        Some(_) => None,
    }
}

/// The text with `n` spaces in place of each tab. Where `n` is not 4, a tab right after a backslash
/// stays.
///
/// A text without a tab comes back as it is, and does not allocate.
pub fn replace_tab(alloc: Global, text: &str, n: usize) -> Result<CowStr<'_>, AllocError>
    ensures value { IfOk result (λ new. cow_str_bytes new ≡ tabs_replaced n text.now) }
    ensures takes_no_memory { count_by (λ b. b == 9) text.now ≡ 0 →
        result ≡ Ok (CowStr.Borrowed text.entry) }
    ensures owned { 0 < count_by (λ b. b == 9) text.now → IfOk result IsOwnedStr }
{
    if count_tabs(text) == 0 {
        return Ok(CowStr::Borrowed(text));
    }
    let mut out = String::with_capacity(alloc, text.len())?;
    let mut left = '\0';
    'chars: for c in text.chars() {
        push_replaced(&mut out, left, c, n)?;
        left = c;
    }
    Ok(CowStr::Owned(out))
}

// Appends what stands for the character `c`, whose left neighbour is `left`.
fn push_replaced(out: &mut String, left: char, c: char, n: usize) -> Result<(), AllocError>
    ensures { IfOk result (λ _. string_bytes out.new
        ≡ string_bytes out.old ++ encode_utf8_all (in_place_of n (left, c))) }
{
    if is_replaced(left, c, n) {
        push_spaces(out, n)?;
    } else {
        out.push(c)?;
    }
    Ok(())
}

// Whether spaces stand for the character `c`, whose left neighbour is `left`.
fn is_replaced(left: char, c: char, n: usize) -> bool
    ensures { result ≡ is_spaced n left c }
{
    c == '\t' && (n == 4 || left != '\\')
}

fn push_spaces(out: &mut String, n: usize) -> Result<(), AllocError>
    ensures { IfOk result (λ _. string_bytes out.new ≡ string_bytes out.old ++ replicate n 32) }
{
    out.reserve(n)?;
    'spaces: for _ in 0..n {
        out.push(' ')?;
    }
    Ok(())
}
