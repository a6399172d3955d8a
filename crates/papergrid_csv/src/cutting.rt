//! Texts whose lines are cut.

ghost use Rattle.std.specs.Prelude.{◌≡◌, ◌↔◌, ◌<◌, ◌≤◌, All, IfOk, IsFalse, IsOk, OnOk, string_bytes, true};
ghost use Rattle.std.specs.Int.{is_in_range};
ghost use Rattle.std.specs.List.{prefix_len};
ghost use Rattle.papergrid_text.specs.Text.{split_lines, width_of};
ghost use Rattle.papergrid_csv.specs.Cutting.{IsCut};
ghost use Rattle.papergrid_csv.specs.ForProofs.Cuts.{AddsLine, IsCutAt, is_apart, is_narrow_letter, is_wide_letter};

use bumpalo::Bump;
use bumpalo::collections::into_bump_str;
use papergrid_draw::separated::is_separator;
use papergrid_text::string::get_lines;
use papergrid_text::width::{count_printable, is_printable, width};
use std::alloc::AllocError;

/// A text of which each line that is wider than so many columns is cut: its first characters stay, and an ellipsis
/// stands in place of the others. A text that has no such line is answered itself, and nothing is allocated.
///
/// It takes time by the length of the text, and for each line that is cut by the number of columns, times how many
/// characters stand between two letters, blanks or ideographs there.
pub fn cut<'t>(texts: &'t Bump, columns: usize, text: &'t str) -> Result<&'t str, AllocError>
    ensures cut { IfOk result (λ shown. IsCut columns text.now shown.now) }
    ensures itself { All (λ line. width_of line ≤ columns) (split_lines text.now) → IsOk result }
{
    if text.len() <= columns && is_printable(text) {
        return Ok(text);
    }
    if !has_wide_line(columns, text) {
        return Ok(text);
    }
    cut_lines(texts, columns, text)
}

/// Whether a line is wider than so many columns.
fn has_wide_line(columns: usize, text: &str) -> bool
    ensures { IsFalse result ↔ All (λ line. width_of line ≤ columns) (split_lines text.now) }
{
    for line in get_lines(text) {
        if width(line) > columns {
            return true;
        }
    }
    false
}

/// The text with each line that is wider cut.
fn cut_lines<'t>(texts: &'t Bump, columns: usize, text: &str) -> Result<&'t str, AllocError>
    ensures { IfOk result (λ shown. IsCut columns text.now shown.now) }
{
    let mut shown = String::with_capacity(texts, text.len().min(columns.saturating_add(3)))?;
    let mut begins = true;
    for line in get_lines(text) {
        push_line(&mut shown, begins, columns, line)?;
        begins = false;
    }
    Ok(into_bump_str(shown))
}

/// Adds a line, cut where it is wider than so many columns, after a line feed where it is not the first.
fn push_line(
    shown: &mut String<&Bump>,
    begins: bool,
    columns: usize,
    line: &str,
) -> Result<(), AllocError>
    ensures { OnOk result (AddsLine columns line.now begins
        (string_bytes shown.old) (string_bytes shown.new)) }
{
    if !begins {
        shown.push('\n')?;
    }
    push_cut(shown, columns, line)
}

/// Adds a line, cut where it is wider than so many columns.
fn push_cut(shown: &mut String<&Bump>, columns: usize, line: &str) -> Result<(), AllocError>
    ensures { OnOk result (AddsLine columns line.now true
        (string_bytes shown.old) (string_bytes shown.new)) }
{
    if width(line) <= columns {
        return shown.push_str(line);
    }
    let count = kept_bytes(columns, line);
    shown.push_str(&line[..count])?;
    shown.push('…')
}

/// How many bytes of a wide line stay.
fn kept_bytes(columns: usize, line: &str) -> usize
    requires { columns < width_of line.now }
    ensures { IsCutAt columns line.now result }
{
    let printable = count_printable(line);
    if columns <= printable {
        return columns.saturating_sub(1);
    }
    kept_past_printable(columns, line, printable)
}

/// The same of a line that begins with so many bytes of printable ASCII, which stay.
fn kept_past_printable(columns: usize, line: &str, printable: usize) -> usize
    requires wide { columns < width_of line.now }
    requires printable { printable ≡ prefix_len (is_in_range 0x20 0x7E) line.now }
    requires narrow { printable < columns }
    ensures { IsCutAt columns line.now result }
{
    // What stands after the last character that stands apart, how many bytes of it stay, and the width of what stands
    // before it.
    let (mut segment, mut taken, mut before) = (line, printable, 0usize);
    let mut end = printable;
    for c in line[printable..].chars() {
        let size = c.len_utf8();
        let next = taken + size;
        let width = before.saturating_add(width(&segment[..next]));
        if columns <= width {
            return end;
        }
        end += size;
        taken = next;
        if stands_apart(c) {
            segment = &segment[next..];
            taken = 0;
            before = width;
        }
    }
    end
}

/// Whether the character stands apart: the widths of a text up to it and of what stands after it add up.
fn stands_apart(c: char) -> bool
    ensures { result ≡ is_apart c }
{
    is_separator(c) || is_narrow_letter(c) || is_wide_letter(c)
}

/// Whether it is a letter of Latin, Greek or Cyrillic that is not ASCII.
fn is_narrow_letter(c: char) -> bool
    ensures { result ≡ is_narrow_letter c }
{
    matches!(c, '\u{C0}'..='\u{2FF}' | '\u{370}'..='\u{47F}')
}

/// Whether it is of kana, an ideograph or of Hangul.
fn is_wide_letter(c: char) -> bool
    ensures { result ≡ is_wide_letter c }
{
    matches!(c, '\u{3041}'..='\u{3096}' | '\u{30A0}'..='\u{30FF}')
        || matches!(c, '\u{3400}'..='\u{9FFF}' | '\u{AC00}'..='\u{D77F}')
}
