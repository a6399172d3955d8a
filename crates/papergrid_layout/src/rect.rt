//! Where cells stand in their table.

ghost use Rattle.std.specs.Prelude.{◌↔◌, IsTrue};
ghost use Rattle.papergrid_layout.specs.Places.{Covers};

use thiserror::Error;

/// Where a cell stands: its first column of the terminal and its first line, counted from the left
/// edge and the top of the table, and over how many of them it goes, the lines between its columns
/// and rows among them.
#[derive(Clone, Copy, Debug, PartialEq, Eq)]
pub struct Place {
    pub left: usize,
    pub top: usize,
    pub width: usize,
    pub height: usize,
}

impl Place {
    /// Whether it covers a column of the terminal in a line.
    pub(crate) fn covers(&self, column: usize, line: usize) -> bool
        ensures { IsTrue result ↔ Covers self.now column line }
    {
        self.left <= column
            && column - self.left < self.width
            && self.top <= line
            && line - self.top < self.height
    }
}

/// Why a position has no screen rectangle.
#[derive(Clone, Copy, Debug, PartialEq, Eq, Error)]
pub enum PlaceError {
    /// The position is hidden by the span of another one.
    #[error("the cell is hidden by the span of another one")]
    Hidden,
    /// It is visible, and its range ends past the last column or the last row.
    #[error("the cell reaches out of the table")]
    OutOfTable,
    /// It is visible and in the table, and along a direction the sizes with all lines come to more
    /// than the greatest `usize`.
    #[error("the table is too large for 64 bits")]
    TooLarge,
}
