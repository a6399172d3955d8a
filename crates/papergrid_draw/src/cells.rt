//! The cells of rows that are held, with the colours of their texts.

ghost use Rattle.std.specs.Prelude.{◌≡◌, ⊤, ℕ, IfOk, List, map, option_copied, option_map, slice_get};
ghost use Rattle.papergrid_values.specs.Colors.{texts_of};
ghost use Rattle.papergrid_text.specs.LineCache.{answered_lines};
ghost use Rattle.papergrid_draw.specs.Contents.{single_line};
ghost use Rattle.papergrid_draw.specs.Cells.{cell_of, lines_at, text_lines};

use crate::color::AsANSIStr;
use crate::source::Cells;
use papergrid_text::string::get_text_dimension;
use papergrid_text::{Cell, Text};
use papergrid_values::{ANSIStr, Colors, Position};
use std::alloc::{AllocError, Global};
use std::convert::AsStr;

/// The cell that rows have at a position, if there is one.
fn cell_in<T>(rows: &[Vec<T>], position: Position) -> Option<&T>
    ensures { option_copied result ≡ cell_of (map (λ row. row.items) rows.now) position }
{
    rows.get(position.row)?.get(position.col)
}

/// The cells of rows that are held, which know their lines and widths.
#[derive(Copy, Debug)]
pub struct RecordCells<'a, T, C> {
    /// The rows, as a `VecRecords` lends them.
    pub rows: &'a [Vec<T>],
    /// The colours of the texts.
    pub colors: &'a C,
}

// By hand: docs/DECISIONS.md, "Clones".
impl<'a, T: Clone, C: Clone> Clone for RecordCells<'a, T, C> {
    ghost is_clone = { λ x y. y ≡ x };

    ghost is_infallible = { λ _. ⊤ };

    fn clone(&self) -> Result<RecordCells<'a, T, C>, AllocError> {
        Ok(RecordCells {
            rows: self.rows,
            colors: self.colors,
        })
    }
}

impl<'a, T: Cell, C: Colors> Cells for RecordCells<'a, T, C>
where
    <C as Colors>::Color: AsANSIStr,
{
    type Cell = &'a T;

    ghost lines = { λ s. lines_at T.lines (map (λ row. row.items) s.rows.now) };

    ghost color = { λ s p. option_map C.Color.texts (C.color_at s.colors.now p) };

    fn cell(&self, position: Position) -> Result<Option<&'a T>, AllocError> {
        Ok(cell_in(self.rows, position))
    }

    fn line(&self, position: Position) -> Option<(&str, usize)> {
        let cell = cell_in(self.rows, position)?;
        if cell.count_lines() != 1 {
            return None;
        }
        Some((cell.line(0), cell.line_width(0)))
    }

    fn color(&self, position: Position) -> Option<ANSIStr<'_>> {
        color_of(self.colors, position)
    }
}

/// The texts of the colour at a position.
pub fn color_of<C: Colors>(colors: &C, position: Position) -> Option<ANSIStr<'_>>
where
    <C as Colors>::Color: AsANSIStr,
    ensures { option_map texts_of result
        ≡ option_map C.Color.texts (C.color_at colors.now position) }
{
    match colors.get_color(position) {
        Some(color) => Some(color.as_ansi_str()),
        None => None,
    }
}

/// A row of texts.
pub trait TextRow {
    // The texts.
    ghost texts: { Self → List (List ℕ) };

    /// The text in a column, if there is one.
    fn text(&self, column: usize) -> Option<&str>
        ensures { option_copied result ≡ slice_get (texts self.now) column };
}

impl<S: AsStr> TextRow for Vec<S> {
    ghost texts = { λ s. map S.text s.items };

    fn text(&self, column: usize) -> Option<&str> {
        match self.get(column) {
            Some(text) => Some(text.as_str()),
            None => None,
        }
    }
}

impl<S: AsStr> TextRow for &[S] {
    ghost texts = { λ s. map S.text s.now };

    fn text(&self, column: usize) -> Option<&str> {
        match self.get(column) {
            Some(text) => Some(text.as_str()),
            None => None,
        }
    }
}

/// The text that rows have at a position, if there is one.
pub fn text_in<R: TextRow>(rows: &[R], position: Position) -> Option<&str>
    ensures { option_copied result ≡ cell_of (map R.texts rows.now) position }
{
    rows.get(position.row)?.text(position.col)
}

/// The line of a text, with its width, where it has one line and no more.
fn single_line(text: &str) -> Option<(&str, usize)>
    ensures { option_map (λ line. (line.0.now, line.1)) result
        ≡ single_line (text_lines text.now) }
{
    let (count, width) = get_text_dimension(text);
    if count != 1 {
        return None;
    }
    Some((text, width))
}

/// A text, measured: where it has one line, by one look at its bytes.
fn measured(alloc: Global, text: &str) -> Result<Text<&str>, AllocError>
    ensures { IfOk result (λ t. answered_lines t.text.now t.width t.lines ≡ text_lines text.now) }
{
    match single_line(text) {
        Some((line, width)) => Ok(Text::exact(line, width, Vec::new(alloc))),
        None => Text::new(alloc, text),
    }
}

/// Rows of texts as cells. A text is measured each time that it is read. One of several lines allocates then.
#[derive(Copy, Debug)]
pub struct TextCells<'a, R, C> {
    pub alloc: Global,
    /// The rows.
    pub rows: &'a [R],
    /// The colours of the texts.
    pub colors: &'a C,
}

// By hand: docs/DECISIONS.md, "Clones".
impl<'a, R: Clone, C: Clone> Clone for TextCells<'a, R, C> {
    ghost is_clone = { λ x y. y ≡ x };

    ghost is_infallible = { λ _. ⊤ };

    fn clone(&self) -> Result<TextCells<'a, R, C>, AllocError> {
        Ok(TextCells {
            alloc: self.alloc,
            rows: self.rows,
            colors: self.colors,
        })
    }
}

impl<'a, R: TextRow, C: Colors> Cells for TextCells<'a, R, C>
where
    <C as Colors>::Color: AsANSIStr,
{
    type Cell = Text<&'a str>;

    ghost lines = { λ s. lines_at text_lines (map R.texts s.rows.now) };

    ghost color = { λ s p. option_map C.Color.texts (C.color_at s.colors.now p) };

    fn cell(&self, position: Position) -> Result<Option<Text<&'a str>>, AllocError> {
        match text_in(self.rows, position) {
            Some(text) => Ok(Some(measured(self.alloc, text)?)),
            None => Ok(None),
        }
    }

    fn line(&self, position: Position) -> Option<(&str, usize)> {
        single_line(text_in(self.rows, position)?)
    }

    fn color(&self, position: Position) -> Option<ANSIStr<'_>> {
        color_of(self.colors, position)
    }
}
