//! Rows of cells, by where each begins among these.

ghost use Rattle.std.specs.Prelude.{◌≡◌, ◌==◌, ◌<◌, ◌≤◌, ◌++◌, IfOk, MatchOption, OnErr, OnOk, length, slice_range, take};
ghost use Rattle.std.specs.List.{after_first, before_first, position_or_len, slice_split};
ghost use Rattle.papergrid_builder.specs.BuilderStates.{longest, one_more_cell, rows_in};
ghost use Rattle.papergrid_builder.specs.ForProofs.Texts.{AreStarts, rows_lent, rows_told, texts_lent};

use crate::cells::CellTexts;
use papergrid_text::search::find_byte;
use std::alloc::{AllocError, Global};

/// Adds a cell, to the last row where this goes on, else to a new one. Where an allocation fails the rows are as they were.
pub fn add_cell(
    cells: &mut CellTexts,
    starts: &mut Vec<usize>,
    goes_on: bool,
    cell: &str,
) -> Result<(), AllocError>
    requires { AreStarts (length cells.old) starts.old.items }
    ensures ok { OnOk result (rows_told cells.new starts.new.items
        ≡ one_more_cell goes_on (rows_told cells.old starts.old.items) cell.now) }
    ensures err { OnErr result (rows_told cells.new starts.new.items
        ≡ rows_told cells.old starts.old.items) }
    ensures starts { AreStarts (length cells.new) starts.new.items }
{
    if goes_on && !starts.is_empty() {
        return cells.push(cell);
    }
    starts.push(cells.len())?;
    match cells.push(cell) {
        Ok(()) => Ok(()),
        Err(error) => {
            starts.pop();
            Err(error)
        }
    }
}

/// Adds the rows that a text is cut into. Where an allocation fails all is as it was.
///
/// Conditions: the bytes that end cells and rows are ASCII.
pub fn add_rows(
    cells: &mut CellTexts,
    starts: &mut Vec<usize>,
    text: &str,
    cell_end: u8,
    row_end: u8,
) -> Result<(), AllocError>
    requires cell_end { cell_end < 128 }
    requires row_end { row_end < 128 }
    requires starts { AreStarts (length cells.old) starts.old.items }
    ensures ok { OnOk result (rows_told cells.new starts.new.items
        ≡ rows_told cells.old starts.old.items ++ rows_in cell_end row_end text.now) }
    ensures err { OnErr result ((cells.new ≡ cells.old)
        × (starts.new.items ≡ starts.old.items)) }
    ensures starts { AreStarts (length cells.new) starts.new.items }
{
    let (count, rows) = (cells.len(), starts.len());
    match cut_rows(cells, starts, text, cell_end, row_end) {
        Ok(()) => Ok(()),
        Err(error) => {
            cells.truncate(count);
            starts.truncate(rows);
            Err(error)
        }
    }
}

/// Adds the rows that a text is cut into, or some of them.
fn cut_rows(
    cells: &mut CellTexts,
    starts: &mut Vec<usize>,
    text: &str,
    cell_end: u8,
    row_end: u8,
) -> Result<(), AllocError>
    requires cell_end { cell_end < 128 }
    requires row_end { row_end < 128 }
    requires starts { AreStarts (length cells.old) starts.old.items }
    ensures ok { OnOk result (rows_told cells.new starts.new.items
        ≡ rows_told cells.old starts.old.items ++ rows_in cell_end row_end text.now) }
    ensures starts { OnOk result (AreStarts (length cells.new) starts.new.items) }
    ensures cells_first { take (length cells.old) cells.new ≡ cells.old }
    ensures starts_first { take (length starts.old.items) starts.new.items ≡ starts.old.items }
{
    let mut rest = text;
    while !rest.is_empty() {
        let (row, after) = first_piece(rest, row_end);
        starts.push(cells.len())?;
        cut_row(cells, row, cell_end)?;
        rest = after.unwrap_or("");
    }
    Ok(())
}

/// Adds the cells that a row is cut into, or some of them.
fn cut_row(cells: &mut CellTexts, row: &str, cell_end: u8) -> Result<(), AllocError>
    requires { cell_end < 128 }
    ensures ok { OnOk result (cells.new
        ≡ cells.old ++ slice_split (λ byte. byte == cell_end) row.now) }
    ensures first { take (length cells.old) cells.new ≡ cells.old }
{
    let mut rest = Some(row);
    while let Some(text) = rest {
        let (cell, after) = first_piece(text, cell_end);
        cells.push(cell)?;
        rest = after;
    }
    Ok(())
}

/// What stands before the first of these bytes, or all where there is none, and what stands behind it.
///
/// Condition: it is ASCII.
fn first_piece<'t>(text: &'t str, end: u8) -> (&'t str, Option<&'t str>)
    requires { end < 128 }
    ensures before { result.0.now ≡ before_first (λ byte. byte == end) text.now }
    ensures after { MatchOption result.1
        (position_or_len (λ byte. byte == end) text.now ≡ length text.now)
        (λ rest. (rest.now ≡ after_first (λ byte. byte == end) text.now)
        × (position_or_len (λ byte. byte == end) text.now < length text.now)) }
{
    let at = find_byte(text.as_bytes(), end);
    if at < text.len() {
        (&text[..at], Some(&text[at + 1..]))
    } else {
        (text, None)
    }
}

/// The rows of the texts of cells.
pub fn rows_of<'c, 't>(
    alloc: Global,
    texts: &'c [&'t str],
    starts: &[usize],
) -> Result<Vec<&'c [&'t str]>, AllocError>
    requires { AreStarts (length texts.now) starts.now }
    ensures { IfOk result (λ rows. rows_lent rows.items
        ≡ rows_told (texts_lent texts.now) starts.now) }
{
    let mut rows = Vec::with_capacity(alloc, starts.len())?;
    let mut rest = starts;
    while let Some((&start, after)) = rest.split_first() {
        let end = after.first().copied().unwrap_or(texts.len());
        rows.push(row_between(texts, start, end))?;
        rest = after;
    }
    Ok(rows)
}

/// The cells from one on and before another.
fn row_between<'c, 't>(texts: &'c [&'t str], start: usize, end: usize) -> &'c [&'t str]
    requires ordered { start ≤ end }
    requires within { end ≤ length texts.now }
    ensures { result.now ≡ slice_range texts.now start end }
{
    &texts[start..end]
}

/// The number of cells of the longest row.
pub fn longest_of(rows: &[&[&str]]) -> usize
    ensures { result ≡ longest (rows_lent rows.now) }
{
    let mut longest = 0;
    for row in rows {
        longest = longest.max(row.len());
    }
    longest
}
