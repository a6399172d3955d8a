//! What is said of a script that has no sizes.

use crate::explained::{Reason, explain};
use crate::program::forms::{form_like, form_of};
use crate::program::names::quoted;
use papergrid_layout::Sizing;
use papergrid_values::Position;
use std::alloc::{AllocError, Global};

/// Why the script that the input spells has no sizes that are chosen so, in one line; none where it has.
pub fn message_of(
    alloc: Global,
    sizing: Sizing,
    input: &[u8],
) -> Result<Option<String>, AllocError> {
    match explain(alloc, sizing, input)? {
        None => Ok(None),
        Some(Reason::BadLine(number)) => Ok(Some(bad_line(alloc, input, number)?)),
        Some(Reason::OutOfTable(position, spans, shape)) => {
            Ok(Some(out_of_table(alloc, position, spans, shape)?))
        }
        Some(Reason::TooLarge) => {
            let text = "the widths, or the heights, come with the lines to more than 64 bits hold";
            Ok(Some(String::from_str(alloc, text)?))
        }
    }
}

/// The line with this number, counted from 1, and what was expected there.
fn bad_line(alloc: Global, input: &[u8], number: usize) -> Result<String, AllocError> {
    let mut lines = input.split(|byte| *byte == b'\n');
    let bytes = lines.nth(number.saturating_sub(1)).unwrap_or(&[]);
    let Ok(line) = std::str::from_utf8(bytes) else {
        return format!(in alloc; "line {number}: not UTF-8");
    };
    let line = line.strip_suffix('\r').unwrap_or(line);
    let word = line.split(' ').next().unwrap_or("").trim_end();
    let has_row = word != "cell" || has_row(input, number);
    let expected = expected(alloc, word, has_row)?;
    let line = quoted(alloc, line)?;
    format!(in alloc; "line {number}: {line}: {expected}")
}

/// What was expected of a line that begins with this word.
fn expected(alloc: Global, word: &str, has_row: bool) -> Result<String, AllocError> {
    if word == "cell" && !has_row {
        return String::from_str(alloc, "no row yet; row begins one");
    }
    if let Some(form) = form_of(word) {
        return format!(in alloc; "{} {}", form.spelled, form.does);
    }
    match form_like(alloc, word)? {
        Some(form) => format!(in alloc; "unknown line; {} {}", form.spelled, form.does),
        None => String::from_str(alloc, "unknown line; --help tells all forms"),
    }
}

/// Whether a line before this one, counted from 1, begins a row.
fn has_row(input: &[u8], number: usize) -> bool {
    input
        .split(|byte| *byte == b'\n')
        .take(number.saturating_sub(1))
        .any(|line| line == b"row".as_slice() || line == b"row\r".as_slice())
}

/// How far a cell that spans so many rows and columns reaches, and the shape (rows, columns) of the table.
fn out_of_table(
    alloc: Global,
    position: Position,
    spans: (usize, usize),
    shape: (usize, usize),
) -> Result<String, AllocError> {
    let Position { row, col } = position;
    let (rows, columns) = shape;
    let down = row as u128 + spans.0 as u128;
    let across = col as u128 + spans.1 as u128;
    let (needed, what, count) = if across > columns as u128 {
        (across, "column", columns)
    } else {
        (down, "row", rows)
    };
    let plural = if needed == 1 { "" } else { "s" };
    let needs = format!(in alloc;
        "the cell at row {row}, column {col} needs {needed} {what}{plural}"
    )?;
    // A visible cell has its row, so it's columns that there are none of.
    if count == 0 {
        return format!(in alloc; "{needs}, and the table has none: write columns N");
    }
    format!(in alloc; "{needs}, and the table has {count}")
}
