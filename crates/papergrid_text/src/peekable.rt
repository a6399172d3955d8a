//! Records whose cells are read by position. Source: `records/peekable_records.rs`.

ghost use Rattle.std.specs.Prelude.{◌≡◌, ℕ, List, [], ⊤, length, slice_index_or};
ghost use Rattle.std.specs.Str.Lines.{lines as std_lines};
ghost use Rattle.papergrid_text.specs.Text.{text_width, width_of};
ghost use Rattle.papergrid_values.specs.declared.position.Position.{Position};

use crate::cell::{count_std_lines, std_line};
use crate::string::{get_line_width, get_text_width};
use papergrid_values::Position;

/// Records whose cells are read by position. Widths are in columns of a terminal.
///
/// An implementation says which positions and which lines may be read, and what text each cell has, and
/// owes that `get_text` gives it. The calls on lines and widths have bodies of their own, which measure
/// the text by std's lines. A line that is not there is the empty text to them. What has other lines or
/// widths, and so writes these calls, says of which records or positions they are those of the text.
pub trait PeekableRecords {
    // Holds of the positions whose cell may be read.
    ghost has: { Self → Position → Type 0 };

    // Holds of the lines of a cell that may be read.
    ghost has_line: { Self → Position → ℕ → Type 0 } = { λ _ _ _. ⊤ };

    // The text of a cell.
    ghost text: { Self → Position → List ℕ };

    // Holds of the records whose lines and widths are those of their texts, by std's lines. So it is of
    // all records that take the bodies below; what writes its own says here of which it holds.
    ghost is_plain: { Self → Type 0 } = { λ _. ⊤ };

    // Holds of the positions whose cell has the lines and the width of its text, by std's lines, where
    // that is not said of all cells.
    ghost is_plain_at: { Self → Position → Type 0 } = { λ _ _. ⊥ };

    /// The text of the cell. The records have to have a cell at the position.
    fn get_text(&self, position: Position) -> &str
        requires { has self.now position }
        ensures { result.now ≡ text self.now position };

    /// The line of the cell at a place, counted from 0. The records have to have a cell at the position,
    /// and the line has to be one that may be read.
    fn get_line(&self, position: Position, line: usize) -> &str
        requires at { has self.now position }
        requires there { has_line self.now position line }
        ensures plain { is_plain self.now →
            result.now ≡ slice_index_or (std_lines (text self.now position)) line [] }
        ensures plain_at { is_plain_at self.now position →
            result.now ≡ slice_index_or (std_lines (text self.now position)) line [] }
    {
        std_line(self.get_text(position), line)
    }

    /// The number of lines of the cell. The records have to have a cell at the position.
    fn count_lines(&self, position: Position) -> usize
        requires { has self.now position }
        ensures plain { is_plain self.now → result ≡ length (std_lines (text self.now position)) }
        ensures plain_at { is_plain_at self.now position →
            result ≡ length (std_lines (text self.now position)) }
    {
        count_std_lines(self.get_text(position))
    }

    /// The width of the cell. The records have to have a cell at the position.
    fn get_width(&self, position: Position) -> usize
        requires { has self.now position }
        ensures plain { is_plain self.now → result ≡ text_width (text self.now position) }
        ensures plain_at { is_plain_at self.now position →
            result ≡ text_width (text self.now position) }
    {
        get_text_width(self.get_text(position))
    }

    /// The width of the line of the cell at a place, counted from 0. The records have to have a cell at
    /// the position, and the line has to be one that may be read.
    fn get_line_width(&self, position: Position, line: usize) -> usize
        requires at { has self.now position }
        requires there { has_line self.now position line }
        ensures plain { is_plain self.now →
            result ≡ width_of (slice_index_or (std_lines (text self.now position)) line []) }
        ensures plain_at { is_plain_at self.now position →
            result ≡ width_of (slice_index_or (std_lines (text self.now position)) line []) }
    {
        get_line_width(self.get_line(position, line))
    }
}

impl<R: PeekableRecords> PeekableRecords for &R {
    ghost has = { λ s p. R.has s.now p };

    ghost has_line = { λ s p n. R.has_line s.now p n };

    ghost text = { λ s p. R.text s.now p };

    ghost is_plain = { λ s. R.is_plain s.now };

    ghost is_plain_at = { λ s p. R.is_plain_at s.now p };

    fn get_text(&self, position: Position) -> &str {
        R::get_text(*self, position)
    }

    fn get_line(&self, position: Position, line: usize) -> &str {
        R::get_line(*self, position, line)
    }

    fn count_lines(&self, position: Position) -> usize {
        R::count_lines(*self, position)
    }

    fn get_width(&self, position: Position) -> usize {
        R::get_width(*self, position)
    }

    fn get_line_width(&self, position: Position, line: usize) -> usize {
        R::get_line_width(*self, position, line)
    }
}
