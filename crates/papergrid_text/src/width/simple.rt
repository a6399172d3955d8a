//! The width of a text of simple characters: printable ASCII and ranges of others that take one column or two,
//! or none as marks do, whatever stands around them among such characters. Of these only the Arabic lam joins
//! another: it has one column with the alef after it.

ghost use Rattle.std.specs.Prelude.{◌≡◌, ℕ, ◌*◌, ◌-◌, ◌<◌, ◌≤◌, ◌++◌, List, chars, encode_utf8, true, false, length, get_or, IfSome};
ghost use Rattle.std.specs.Int.{is_in_range};
ghost use Rattle.std.specs.List.{prefix_len};
ghost use Rattle.papergrid_text.specs.ForProofs.Simple.{IsPiece, IsPrintableFront, ReadsQuietly, BeginsWith, columns_of_brahmic, columns_of_three, is_alef, is_devanagari_mark, is_semitic_letter, is_thai_mark};
ghost use Rattle.unicode_width.specs.Width.{str_width};

use crate::width::printable::{count_printable, count_printable_bytes};
use unicode_width::UnicodeWidthStr;

/// The width of a text that may be simple characters alone, of which so many bytes at its front may be
/// printable ASCII.
// Out of line, so that the code for printable texts stays small.
#[inline(never)]
pub fn width_by_simple(text: &str, from: usize) -> usize
    ensures value { result ≡ str_width false (chars text.now) }
    ensures bound { result ≤ 2 * length text.now }
{
    match simple_width_past(text, from) {
        Some(width) => width,
        None => text.width(),
    }
}

// The width of a text of simple characters with such a front, or `None` where it may be another one.
fn simple_width_past(text: &str, from: usize) -> Option<usize>
    ensures value { IfSome result (λ width. ReadsQuietly text.now width) }
    ensures bound { IfSome result (λ width. width ≤ length text.now) }
{
    if !has_printable_front(text, from) {
        return None;
    }
    let rest = simple_width::<false>(&text[from..])?;
    Some(from + rest)
}

// Whether so many bytes at the front are printable ASCII.
fn has_printable_front(text: &str, count: usize) -> bool
    ensures { result ≡ true → IsPrintableFront text.now count }
{
    if count == 0 {
        return true;
    }
    count <= text.len() && count_printable_bytes(&text.as_bytes()[..count]) == count
}

// The width of a text of simple characters, or `None` where it may have others. In a `LONG` text the printable
// ASCII after a character is passed many bytes at a time.
#[inline]
fn simple_width<const LONG: bool>(text: &str) -> Option<usize>
    ensures value { IfSome result (λ width. ReadsQuietly text.now width) }
    ensures bound { IfSome result (λ width. width ≤ length text.now) }
{
    let mut width = 0usize;
    let mut rest = text;
    while rest.len() > 0 {
        let (columns, count) = next_piece::<LONG>(rest)?;
        width += columns;
        rest = &rest[count..];
    }
    Some(width)
}

/// The same of a long text: what it has of printable ASCII is passed many bytes at a time.
pub fn long_simple_width(text: &str) -> Option<usize>
    ensures value { IfSome result (λ width. ReadsQuietly text.now width) }
    ensures bound { IfSome result (λ width. width ≤ length text.now) }
{
    let run = count_printable(text);
    let rest = simple_width::<true>(&text[run..])?;
    Some(run + rest)
}

// The columns and the bytes of the first character, where it is simple, and of what is passed with it.
#[inline(always)]
fn next_piece<const LONG: bool>(text: &str) -> Option<(usize, usize)>
    requires { 0 < length text.now }
    ensures { IfSome result (λ first. IsPiece text.now first.0 first.1) }
{
    if LONG {
        first_piece(text)
    } else {
        first_columns(text)
    }
}

// The columns and the bytes of the first character and of the printable ASCII after it, where that character
// is simple, and none of printable ASCII itself.
fn first_piece(text: &str) -> Option<(usize, usize)>
    requires { 0 < length text.now }
    ensures { IfSome result (λ first. IsPiece text.now first.0 first.1) }
{
    let (columns, count) = first_other(text)?;
    let run = count_run(&text[count..]);
    Some((columns + run, count + run))
}

// How many bytes of printable ASCII the text begins with, where it mostly begins with none.
fn count_run(text: &str) -> usize
    ensures { result ≡ prefix_len (is_in_range 0x20 0x7E) text.now }
{
    match text.as_bytes() {
        [first, ..] if *first < 0x80 => count_printable(text),
        _ => 0,
    }
}

// The columns of the first character, and how many bytes it has, where it is simple.
#[inline(always)]
fn first_columns(text: &str) -> Option<(usize, usize)>
    requires { 0 < length text.now }
    ensures { IfSome result (λ first. IsPiece text.now first.0 first.1) }
{
    if is_in_range(text.as_bytes()[0], 0x20, 0x7E) {
        return Some((1, 1));
    }
    first_other(text)
}

// The same of a character that is no printable ASCII.
#[inline(always)]
fn first_other(text: &str) -> Option<(usize, usize)>
    requires { 0 < length text.now }
    ensures { IfSome result (λ first. IsPiece text.now first.0 first.1) }
{
    let lead = text.as_bytes()[0];
    if lead >= 0xE1 {
        return Some((columns_of_long(text)?, 3));
    }
    if is_in_range(lead, 0xC3, 0xD1) {
        return Some((columns_of_letter(text), 2));
    }
    if lead == b'\t' {
        return Some((1, 1));
    }
    if is_in_range(lead, 0xD7, 0xD9) {
        return first_semitic(text);
    }
    if lead == 0xE0 {
        return Some((first_brahmic(text)?, 3));
    }
    None
}

// The columns of the first character, which is from U+1000 on, where it has three bytes and is simple.
fn columns_of_long(text: &str) -> Option<usize>
    requires { 0xE1 ≤ get_or text.now 0 0 }
    ensures { IfSome result (λ columns. IsPiece text.now columns 3) }
{
    let lead = text.as_bytes()[0];
    // U+4000 to U+9FFF.
    if is_in_range(lead, 0xE4, 0xE9) {
        return Some(2);
    }
    if lead > 0xEF {
        return None;
    }
    columns_of_three(first_of_three(text))
}

// The columns of the first character, which is from U+00C0 to U+047F.
fn columns_of_letter(text: &str) -> usize
    requires { is_in_range 0xC3 0xD1 (get_or text.now 0 0) ≡ true }
    ensures { IsPiece text.now result 2 }
{
    if is_in_range(text.as_bytes()[0], 0xCC, 0xCD) {
        return columns_of_accent(text);
    }
    1
}

fn is_in_range(b: u8, low: u8, high: u8) -> bool
    ensures { result ≡ is_in_range low high b }
{
    low <= b && b <= high
}

// The first character, where it has three bytes.
fn first_of_three(text: &str) -> u32
    requires { is_in_range 0xE0 0xEF (get_or text.now 0 0) ≡ true }
    ensures { (c : ℕ) (rest : List ℕ) → text.now ≡ encode_utf8 c ++ rest → result ≡ c }
{
    let bytes = text.as_bytes();
    let lead = bytes[0] as u32 - 0xE0;
    lead * 4096 + continuation(bytes, 1) * 64 + continuation(bytes, 2)
}

// What a byte after the first adds to a character.
fn continuation(bytes: &[u8], at: usize) -> u32
    requires { 0x80 ≤ get_or bytes.now at 0 }
    ensures { result ≡ get_or bytes.now at 0 - 0x80 }
{
    bytes[at] as u32 - 0x80
}

// The columns of a character of three bytes, where it is simple.
fn columns_of_three(c: u32) -> Option<usize>
    ensures { result ≡ columns_of_three c }
{
    match c {
        0x3000..=0x3029 | 0x3041..=0x3096 | 0x30A0..=0x30FF | 0x3400..=0x9FFF => Some(2),
        0xAC00..=0xD77F | 0xFF01..=0xFF3F => Some(2),
        0x1E00..=0x1FFF | 0x2010..=0x2027 | 0x2080..=0x20BF => Some(1),
        0x2100..=0x22FF | 0x2500..=0x25BF => Some(1),
        _ => None,
    }
}

// The columns of the first character, where it is of Devanagari or Thai.
fn first_brahmic(text: &str) -> Option<usize>
    requires { get_or text.now 0 0 ≡ 0xE0 }
    ensures { IfSome result (λ columns. IsPiece text.now columns 3) }
{
    columns_of_brahmic(first_of_three(text))
}

// The columns of a character of Devanagari or Thai. Marks above or below a letter have none.
fn columns_of_brahmic(c: u32) -> Option<usize>
    ensures { result ≡ columns_of_brahmic c }
{
    match c {
        0x900..=0x97F if is_devanagari_mark(c) => Some(0),
        0xE00..=0xE7F if is_thai_mark(c) => Some(0),
        0x900..=0x97F | 0xE00..=0xE7F => Some(1),
        _ => None,
    }
}

fn is_devanagari_mark(c: u32) -> bool
    ensures { result ≡ is_devanagari_mark c }
{
    match c {
        0x900..=0x902 | 0x93A | 0x93C | 0x941..=0x948 | 0x94D => true,
        0x951..=0x957 | 0x962..=0x963 => true,
        _ => false,
    }
}

fn is_thai_mark(c: u32) -> bool
    ensures { result ≡ is_thai_mark c }
{
    matches!(c, 0xE31 | 0xE34..=0xE3A | 0xE47..=0xE4E)
}

// The columns of the first character, which is from U+0300 to U+037F: accents have none, and letters from U+0370
// on one.
fn columns_of_accent(text: &str) -> usize
    requires { is_in_range 0xCC 0xCD (get_or text.now 0 0) ≡ true }
    ensures { IsPiece text.now result 2 }
{
    if first_of_two(text) < 0x370 { 0 } else { 1 }
}

// The columns and the bytes of the first character, where it is a letter of Hebrew or Arabic. A lam is read with
// the alef after it.
fn first_semitic(text: &str) -> Option<(usize, usize)>
    requires { is_in_range 0xD7 0xD9 (get_or text.now 0 0) ≡ true }
    ensures { IfSome result (λ first. IsPiece text.now first.0 first.1) }
{
    let first = first_of_two(text);
    if first == 0x644 {
        return first_lam(text);
    }
    if is_semitic_letter(first) {
        return Some((1, 2));
    }
    None
}

// The same of a lam, which has one column with an alef, and by itself. `None` where a mark may stand between them.
fn first_lam(text: &str) -> Option<(usize, usize)>
    requires { BeginsWith text.now 0x644 }
    ensures { IfSome result (λ first. IsPiece text.now first.0 first.1) }
{
    let rest = &text[2..];
    if is_word_end(rest) {
        return Some((1, 2));
    }
    if !is_in_range(rest.as_bytes()[0], 0xD7, 0xD9) {
        return None;
    }
    let next = first_of_two(rest);
    if is_alef(next) {
        return Some((1, 4));
    }
    if is_semitic_letter(next) {
        return Some((1, 2));
    }
    None
}

// Whether the text has no character, or one of printable ASCII first.
fn is_word_end(text: &str) -> bool
    ensures ends { result ≡ true → get_or text.now 0 0 < 0x80 }
    ensures goes_on { result ≡ false → 0 < length text.now }
{
    matches!(text.as_bytes(), [] | [b' '..=b'~', ..])
}

fn is_semitic_letter(c: u32) -> bool
    ensures { result ≡ is_semitic_letter c }
{
    matches!(c, 0x5D0..=0x5EA | 0x620..=0x64A)
}

fn is_alef(c: u32) -> bool
    ensures { result ≡ is_alef c }
{
    matches!(c, 0x622..=0x623 | 0x625 | 0x627)
}

// The first character, where it has two bytes.
fn first_of_two(text: &str) -> u32
    requires { is_in_range 0xC2 0xDF (get_or text.now 0 0) ≡ true }
    ensures { (c : ℕ) (rest : List ℕ) → text.now ≡ encode_utf8 c ++ rest → result ≡ c }
{
    let bytes = text.as_bytes();
    (bytes[0] as u32 - 0xC0) * 64 + continuation(bytes, 1)
}
