//! What a cell is: a text with its lines and widths. Source: `records/vec_records/cell.rs`.

ghost use Rattle.std.specs.Prelude.{◌≡◌, ◌<◌, ℕ, List, [], length, map, string_bytes, slice_index_or};
ghost use Rattle.std.specs.Str.Lines.{lines as std_lines};
ghost use Rattle.papergrid_text.specs.Text.{text_width, with_width};

use crate::string::{get_line_width, get_text_width};
use std::iter::Iterator;

/// A cell of a table. Widths are in columns of a terminal.
///
/// An implementation says what the text, its lines with their widths, and the width of the whole are,
/// and owes that each call answers by them alone. Nothing ties the lines and widths to the text.
pub trait Cell {
    // The text.
    ghost text: { Self → List ℕ };

    // Its lines, each with its width.
    ghost lines: { Self → List (List ℕ × ℕ) };

    // The width of the whole.
    ghost width: { Self → ℕ };

    /// The text.
    fn text(&self) -> &str
        ensures { result.now ≡ text self.now };

    /// The line at a place, counted from 0. It has to be there: the place is below `count_lines`.
    fn line(&self, line: usize) -> &str
        requires { line < length (lines self.now) }
        ensures { result.now ≡ (slice_index_or (lines self.now) line ([], 0)).0 };

    /// The number of lines.
    fn count_lines(&self) -> usize
        ensures { result ≡ length (lines self.now) };

    /// The width of the whole.
    fn width(&self) -> usize
        ensures { result ≡ width self.now };

    /// The width of the line at a place, counted from 0. It has to be there: the place is below
    /// `count_lines`.
    fn line_width(&self, line: usize) -> usize
        requires { line < length (lines self.now) }
        ensures { result ≡ (slice_index_or (lines self.now) line ([], 0)).1 };
}

impl<T: Cell> Cell for &T {
    ghost text = { λ c. T.text c.now };

    ghost lines = { λ c. T.lines c.now };

    ghost width = { λ c. T.width c.now };

    fn text(&self) -> &str {
        T::text(*self)
    }

    fn line(&self, line: usize) -> &str {
        T::line(*self, line)
    }

    fn count_lines(&self) -> usize {
        T::count_lines(*self)
    }

    fn width(&self) -> usize {
        T::width(*self)
    }

    fn line_width(&self, line: usize) -> usize {
        T::line_width(*self, line)
    }
}

// A plain text has std's lines.
impl Cell for &str {
    ghost text = { λ c. c.now };

    ghost lines = { λ c. map with_width (std_lines c.now) };

    ghost width = { λ c. text_width c.now };

    fn text(&self) -> &str {
        *self
    }

    fn line(&self, line: usize) -> &str {
        std_line(*self, line)
    }

    fn count_lines(&self) -> usize {
        count_std_lines(*self)
    }

    fn width(&self) -> usize {
        get_text_width(*self)
    }

    fn line_width(&self, line: usize) -> usize {
        get_line_width(std_line(*self, line))
    }
}

// A plain text has std's lines.
impl Cell for String {
    ghost text = { λ c. string_bytes c };

    ghost lines = { λ c. map with_width (std_lines (string_bytes c)) };

    ghost width = { λ c. text_width (string_bytes c) };

    fn text(&self) -> &str {
        self.as_str()
    }

    fn line(&self, line: usize) -> &str {
        std_line(self.as_str(), line)
    }

    fn count_lines(&self) -> usize {
        count_std_lines(self.as_str())
    }

    fn width(&self) -> usize {
        get_text_width(self.as_str())
    }

    fn line_width(&self, line: usize) -> usize {
        get_line_width(std_line(self.as_str(), line))
    }
}

// The line of std's at a place, or the empty text where there is none.
pub(crate) fn std_line(text: &str, line: usize) -> &str
    ensures { result.now ≡ slice_index_or (std_lines text.now) line [] }
{
    match text.lines().nth(line) {
        Some(found) => found,
        None => "",
    }
}

// The number of std's lines.
pub(crate) fn count_std_lines(text: &str) -> usize
    ensures { result ≡ length (std_lines text.now) }
{
    text.lines().count()
}
