//! Where in a text something stands.

ghost use Rattle.std.specs.Prelude.{◌≡◌, ◌≤◌, ◌+◌, ℕ, count_by, drop, length, nat_eq, not};
ghost use Rattle.std.specs.Fmt.{is_char_start};
ghost use Rattle.std.specs.List.{suffix_len};
ghost use Rattle.papergrid_table.specs.Places.{IsFirstBad, IsLineOfRecord, IsStartOrNone, column_after, last_line, line_count, spot_after};

use papergrid_csv::{Reading, record_start};

/// A line of a text and a byte of it, both counted from 1.
#[derive(Clone, Copy)]
pub struct Spot {
    pub line: usize,
    pub byte: usize,
}

/// Where the byte after so many stands.
pub fn spot_after(text: &[u8], count: usize) -> Spot
    ensures { result ≡ spot_after text.now count }
{
    let before = text.get(..count).unwrap_or(text);
    Spot {
        line: line_count(before),
        byte: last_line(before).len() + 1,
    }
}

/// The character of its line, counted from 1, which the byte after so many begins, or is in.
pub fn column_after(text: &[u8], count: usize) -> usize
    ensures { result ≡ column_after text.now count }
{
    let before = text.get(..count).unwrap_or(text);
    let begins = text.get(count).is_none_or(|byte| begins_character(*byte));
    characters(last_line(before)) + usize::from(begins)
}

/// How many lines a text has: one more than line feeds.
fn line_count(text: &[u8]) -> usize
    ensures { result ≡ line_count text.now }
{
    text.iter().filter(|byte| **byte == b'\n').count() + 1
}

/// What stands behind the last line feed of a text.
fn last_line(text: &[u8]) -> &[u8]
    ensures { result.now ≡ last_line text.now }
{
    &text[text.len() - last_length(text)..]
}

/// How many bytes that has.
fn last_length(text: &[u8]) -> usize
    ensures length { result ≡ suffix_len (λ byte. not (nat_eq byte 10)) text.now }
    ensures bound { result ≤ length text.now }
{
    text.iter().rev().take_while(|byte| **byte != b'\n').count()
}

/// How many characters begin in a text.
fn characters(text: &[u8]) -> usize
    ensures count { result ≡ count_by is_char_start text.now }
    ensures bound { result ≤ length text.now }
{
    text.iter().filter(|byte| begins_character(**byte)).count()
}

/// Whether a byte of UTF-8 begins a character.
fn begins_character(byte: u8) -> bool
    ensures { result ≡ is_char_start byte }
{
    byte & 0xc0 != 0x80
}

/// Where the first byte is that is not UTF-8, in the record after so many others or behind it, or where the text ends.
pub fn bad_byte_of(reading: Reading, text: &[u8], count: usize) -> Spot
    ensures { (start : ℕ) × (n : ℕ) × IsStartOrNone reading text.now count start
        × IsFirstBad (drop start text.now) n × (result ≡ spot_after text.now (start + n)) }
{
    let start = start_of(reading, text, count);
    let valid = valid_length(behind(text, start));
    spot_after(text, start + valid)
}

/// How many bytes stand before the record after so many others, or none where there are fewer.
fn start_of(reading: Reading, text: &[u8], count: usize) -> usize
    ensures { IsStartOrNone reading text.now count result }
{
    match record_start(reading, text, count) {
        Some(start) => start,
        None => 0,
    }
}

/// What stands behind so many bytes of a text.
fn behind(text: &[u8], count: usize) -> &[u8]
    ensures { result.now ≡ drop count text.now }
{
    text.get(count..).unwrap_or(b"")
}

/// How many bytes at the front of a text are UTF-8.
fn valid_length(text: &[u8]) -> usize
    ensures first { IsFirstBad text.now result }
    ensures bound { result ≤ length text.now }
{
    match std::str::from_utf8(text) {
        Ok(_) => text.len(),
        Err(error) => error.valid_up_to(),
    }
}

/// The line of the first byte of the record after so many others, or the last line where there are fewer.
pub fn line_of_record(reading: Reading, text: &[u8], count: usize) -> usize
    ensures { IsLineOfRecord reading text.now count result }
{
    match record_start(reading, text, count) {
        Some(start) => spot_after(text, start).line,
        None => line_count(text),
    }
}
