//! What the fields of a text stand for, and how their characters are spelled.

ghost use Rattle.std.specs.Prelude.{◌≡◌, ◌++◌, ◌∷◌, [], IfOk, OnOk, chars, encode_utf8_all, false, flat_map, replicate, string_bytes, true};
ghost use Rattle.papergrid_csv.specs.Spelling.{is_ascii_control, is_other_control, meant, spelled, spelled_character, spelled_in_line, spelled_other, spelled_tab, without_escapes};
ghost use Rattle.papergrid_csv.specs.ForProofs.Escapes.{after_backslash};

use crate::reading::{Format, Reading};
use bumpalo::Bump;
use bumpalo::collections::into_bump_str;
use papergrid_text::width::is_printable;
use std::alloc::AllocError;

/// A field as it is shown, in the arena: what it stands for, in which control characters and those that turn the
/// direction of a text are spelled.
pub fn spell<'t>(texts: &'t Bump, reading: Reading, field: &str) -> Result<&'t str, AllocError>
    ensures { IfOk result (λ text. text.now ≡ spelled reading field.now) }
{
    if is_kept(reading, field) && !may_escape(reading.format, field) {
        return texts.try_alloc_str(field);
    }
    match reading.format {
        Format::Csv(_) => spell_characters(texts, reading, field),
        Format::Tsv => spell_meant(texts, reading, field),
    }
}

/// Whether each character of the field is known to be shown as it is. Where that is not known each is spelled by
/// itself, which takes longer.
fn is_kept(reading: Reading, field: &str) -> bool
    ensures { result ≡ true →
        encode_utf8_all (flat_map (spelled_character reading) (chars field.now)) ≡ field.now }
{
    if is_printable(field) {
        return true;
    }
    for c in field.chars() {
        if !keeps(reading, c) {
            return false;
        }
    }
    true
}

/// Whether a character is known to be shown as it is. Tabs and carriage returns are taken for others.
fn keeps(reading: Reading, c: char) -> bool
    ensures { result ≡ true → spelled_character reading c ≡ c ∷ [] }
{
    match c {
        '\n' => !reading.one_line,
        // (apart, since the proof needs of the last arm that it has neither)
        '\t' => false,
        '\r' => false,
        _ => reading.raw || stays(c),
    }
}

/// Whether a character that is no line feed, tab or carriage return is shown as it is, though controls are spelled.
fn stays(c: char) -> bool
    ensures { result ≡ true → spelled_other c ≡ c ∷ [] }
{
    !is_ascii_control(c) && !is_other_control(c)
}

/// Whether a backslash of the field may begin an escape.
fn may_escape(format: Format, field: &str) -> bool
    ensures { result ≡ false → meant format (chars field.now) ≡ chars field.now }
{
    match format {
        Format::Csv(_) => false,
        Format::Tsv => field.as_bytes().contains(&b'\\'),
    }
}

/// The field with each character spelled, in the arena.
fn spell_characters<'t>(
    texts: &'t Bump,
    reading: Reading,
    field: &str,
) -> Result<&'t str, AllocError>
    ensures { IfOk result (λ text. text.now
        ≡ encode_utf8_all (flat_map (spelled_character reading) (chars field.now))) }
{
    let mut text = String::with_capacity(texts, field.len())?;
    for c in field.chars() {
        push_spelled(&mut text, reading, c)?;
    }
    Ok(into_bump_str(text))
}

/// The same of the characters that it stands for, where a backslash may begin an escape. One that is not added yet is
/// held until the next character comes.
fn spell_meant<'t>(texts: &'t Bump, reading: Reading, field: &str) -> Result<&'t str, AllocError>
    ensures { IfOk result (λ text. text.now
        ≡ encode_utf8_all
        (flat_map (spelled_character reading) (without_escapes (chars field.now)))) }
{
    let mut text = String::with_capacity(texts, field.len())?;
    let mut held = false;
    for c in field.chars() {
        if held {
            push_escaped(&mut text, reading, c)?;
            held = false;
        } else if c == '\\' {
            held = true;
        } else {
            push_spelled(&mut text, reading, c)?;
        }
    }
    if held {
        push_spelled(&mut text, reading, '\\')?;
    }
    Ok(into_bump_str(text))
}

/// Adds what a backslash and this character stand for.
fn push_escaped(text: &mut String<&Bump>, reading: Reading, c: char) -> Result<(), AllocError>
    ensures { OnOk result (string_bytes text.new ≡ string_bytes text.old
        ++ encode_utf8_all (flat_map (spelled_character reading) (after_backslash c))) }
{
    match c {
        't' => push_spelled(text, reading, '\t'),
        'n' => push_spelled(text, reading, '\n'),
        '\\' => push_spelled(text, reading, '\\'),
        _ => {
            push_spelled(text, reading, '\\')?;
            push_spelled(text, reading, c)
        }
    }
}

/// Adds what stands for a character.
fn push_spelled(text: &mut String<&Bump>, reading: Reading, c: char) -> Result<(), AllocError>
    ensures { OnOk result (string_bytes text.new
        ≡ string_bytes text.old ++ encode_utf8_all (spelled_character reading c)) }
{
    match c {
        '\n' if reading.one_line => text.push_str("\\n"),
        '\n' => text.push(c),
        '\t' => push_tab(text, reading),
        _ => push_in_line(text, reading.raw, c),
    }
}

/// The same of a tab.
fn push_tab(text: &mut String<&Bump>, reading: Reading) -> Result<(), AllocError>
    ensures { OnOk result (string_bytes text.new
        ≡ string_bytes text.old ++ encode_utf8_all (spelled_tab reading.tab reading.raw)) }
{
    match reading.tab {
        Some(blanks) => push_blanks(text, blanks),
        None if reading.raw => text.push('\t'),
        None => text.push_str("\\t"),
    }
}

/// Adds so many blanks.
fn push_blanks(text: &mut String<&Bump>, blanks: usize) -> Result<(), AllocError>
    ensures { OnOk result (string_bytes text.new
        ≡ string_bytes text.old ++ replicate blanks 0x20) }
{
    text.reserve(blanks)?;
    for _ in 0..blanks {
        text.push(' ')?;
    }
    Ok(())
}

/// The same of a character that is neither a line feed nor a tab.
fn push_in_line(text: &mut String<&Bump>, raw: bool, c: char) -> Result<(), AllocError>
    ensures { OnOk result (string_bytes text.new
        ≡ string_bytes text.old ++ encode_utf8_all (spelled_in_line raw c)) }
{
    if raw {
        return text.push(c);
    }
    if c == '\r' {
        return text.push_str("\\r");
    }
    push_other(text, c)
}

/// The same of a character that is neither a line feed, a tab nor a carriage return, where none stays as it is.
fn push_other(text: &mut String<&Bump>, c: char) -> Result<(), AllocError>
    ensures { OnOk result (string_bytes text.new
        ≡ string_bytes text.old ++ encode_utf8_all (spelled_other c)) }
{
    if is_ascii_control(c) {
        return write!(text, "\\x{:02x}", c as u32);
    }
    if is_other_control(c) {
        return write!(text, "\\u{{{:x}}}", c as u32);
    }
    text.push(c)
}

/// Whether it is an ASCII control character.
fn is_ascii_control(c: char) -> bool
    ensures { result ≡ is_ascii_control c }
{
    c <= '\x1f' || c == '\x7f'
}

/// Whether it is another control character, or one that turns the direction of a text.
fn is_other_control(c: char) -> bool
    ensures { result ≡ is_other_control c }
{
    ('\u{80}' <= c && c <= '\u{9f}')
        || ('\u{202a}' <= c && c <= '\u{202e}')
        || ('\u{2066}' <= c && c <= '\u{2069}')
}
