//! What is said of a text that has no picture.

use crate::places::{Spot, bad_byte_of, line_of_record, spot_after};
use crate::rows::{text_at, whole_rows};
use crate::spans::{hider_of, last_at, overlap_at};
use crate::values::{alignment_name, span_text};
use crate::wide::too_wide;
use bumpalo::Bump;
use papergrid::grid::DrawError;
use papergrid_csv::{ColumnName, CsvEnd, Request, Span};
use papergrid_script::program::{name_like, quoted, shown};
use papergrid_values::Position;
use std::alloc::{AllocError, Global};

/// What is said of the text, of this name, whose run ended so.
pub fn message_of(
    alloc: Global,
    request: &mut Request,
    name: &str,
    input: &[u8],
    end: CsvEnd,
) -> Result<String, AllocError> {
    match end {
        CsvEnd::Drawn => String::from_str(alloc, ""),
        CsvEnd::Refused(error) => refused(alloc, request, name, input, error),
        CsvEnd::TooWide(width) => too_wide(alloc, request, name, input, width),
        CsvEnd::Hides(position) => hides(alloc, request, input, position),
        CsvEnd::NoColumn(number) => no_column(alloc, request, input, number),
        CsvEnd::NotText(before) => {
            let Spot { line, byte } = bad_byte_of(request.reading, input, before);
            format!(in alloc; "{name}: line {line}, byte {byte}: not UTF-8")
        }
        CsvEnd::Unclosed(count) => {
            let Spot { line, byte } = spot_after(input, count);
            format!(in alloc;
                "{name}: line {line}, byte {byte}: a quote that begins here is not closed"
            )
        }
        CsvEnd::Ragged {
            before,
            fields,
            first,
        } => {
            let line = line_of_record(request.reading, input, before);
            let what = if fields == 1 { "field" } else { "fields" };
            format!(in alloc;
                "{name}: line {line}: {fields} {what}, and the first row has {first} (--strict)"
            )
        }
    }
}

/// What is said of a table that has no picture.
fn refused(
    alloc: Global,
    request: &Request,
    name: &str,
    input: &[u8],
    error: DrawError,
) -> Result<String, AllocError> {
    match error {
        DrawError::OutOfTable(position) => out_of_table(alloc, request, input, position),
        DrawError::NotTiled(position) => not_tiled(alloc, request, position),
        _ => format!(in alloc; "{name}: the table is wider or higher than 64 bits tell"),
    }
}

/// What is said of a span that goes over the edge of the table.
fn out_of_table(
    alloc: Global,
    request: &Request,
    input: &[u8],
    position: Position,
) -> Result<String, AllocError> {
    let shape = rows_and_columns(alloc, request, input)?;
    let Position { row, col } = position;
    match last_at(&request.spans, position) {
        Some(span) => needs_more(alloc, span, shape),
        None => format!(in alloc; "the cell at row {row}, column {col} is out of the table"),
    }
}

/// What is said of a span that needs more than these rows and columns.
fn needs_more(
    alloc: Global,
    span: &Span,
    (rows, columns): (usize, usize),
) -> Result<String, AllocError> {
    let Position { row, col } = span.position;
    let across = col as u128 + span.columns as u128;
    let down = row as u128 + span.rows as u128;
    let (needs, what, has) = if across > columns as u128 {
        (across, "columns", columns)
    } else {
        (down, "rows", rows)
    };
    let option = span_text(alloc, span)?;
    format!(in alloc;
        "{option}: the cell at row {row}, column {col} needs {needs} {what}, and the table has {has}"
    )
}

/// How many rows and columns a text has; none where it has no rows.
fn rows_and_columns(
    alloc: Global,
    request: &Request,
    input: &[u8],
) -> Result<(usize, usize), AllocError> {
    let texts = Bump::new(alloc);
    match whole_rows(alloc, &texts, request, input)? {
        Some(found) => Ok((found.rows.len(), found.columns)),
        None => Ok((0, 0)),
    }
}

/// What is said of a position that two spans cover.
fn not_tiled(alloc: Global, request: &Request, position: Position) -> Result<String, AllocError> {
    let Position { row, col } = position;
    match overlap_at(&request.spans, position) {
        Some((later, first)) => overlaps(alloc, later, first, position),
        None => {
            format!(in alloc; "spans overlap at row {row}, column {col}, or leave it to no cell")
        }
    }
}

/// What is said of a span that overlaps an earlier one at a position.
fn overlaps(
    alloc: Global,
    later: &Span,
    earlier: &Span,
    position: Position,
) -> Result<String, AllocError> {
    let Position { row, col } = position;
    let (later, earlier) = (span_text(alloc, later)?, span_text(alloc, earlier)?);
    format!(in alloc; "{later}: overlaps {earlier} at row {row}, column {col}")
}

/// What is said of a field that a span hides.
fn hides(
    alloc: Global,
    request: &Request,
    input: &[u8],
    position: Position,
) -> Result<String, AllocError> {
    let Position { row, col } = position;
    let field = field_at(alloc, request, input, position)?;
    match hider_of(&request.spans, position) {
        Some(span) => {
            let option = span_text(alloc, span)?;
            format!(in alloc;
                "{option}: hides the field {field} at row {row}, column {col} (--hide)"
            )
        }
        None => format!(in alloc;
            "a span hides the field {field} at row {row}, column {col} (--hide)"
        ),
    }
}

/// The field at a position in quotes, which is empty where there is none.
fn field_at(
    alloc: Global,
    request: &Request,
    input: &[u8],
    position: Position,
) -> Result<String, AllocError> {
    let texts = Bump::new(alloc);
    match whole_rows(alloc, &texts, request, input)? {
        Some(rows) => quoted(alloc, text_at(&rows, position).unwrap_or("")),
        None => quoted(alloc, ""),
    }
}

/// What is said of an alignment of a column that there is not.
fn no_column(
    alloc: Global,
    request: &Request,
    input: &[u8],
    number: usize,
) -> Result<String, AllocError> {
    let Some((ColumnName::Head(head), alignment)) = request.columns.get(number) else {
        return String::from_str(alloc, "--align: no column has that head");
    };
    let value = alignment_name(*alignment);
    let written = shown(alloc, head.as_str())?;
    match head_like(alloc, request, input, head.as_str())? {
        Some(like) => format!(in alloc;
            "--align {written}={value}: no column has that head; did you mean {like}?"
        ),
        None => format!(in alloc; "--align {written}={value}: no column has that head"),
    }
}

/// The head that is most like this word, as messages tell it, if one is like it.
fn head_like(
    alloc: Global,
    request: &Request,
    input: &[u8],
    word: &str,
) -> Result<Option<String>, AllocError> {
    let texts = Bump::new(alloc);
    let Some(found) = whole_rows(alloc, &texts, request, input)? else {
        return Ok(None);
    };
    let Some(heads) = found.rows.first() else {
        return Ok(None);
    };
    match name_like(alloc, word, heads.as_slice())? {
        Some(like) => Ok(Some(shown(alloc, like)?)),
        None => Ok(None),
    }
}
