//! The cells of a table that is drawn, read by position.

ghost use Rattle.std.specs.Prelude.{◌≡◌, ℕ, List, Option, IfOk, option_map};
ghost use Rattle.papergrid_values.specs.Colors.{texts_of};
ghost use Rattle.papergrid_values.specs.declared.position.Position.{Position};
ghost use Rattle.papergrid_draw.specs.Contents.{lines_of, single_line};

use papergrid_text::Cell;
use papergrid_values::{ANSIStr, Position};
use std::alloc::AllocError;

/// Cells by position. An implementation says which lines, each with its width, and which colour the cell at a
/// position has; none where there is no cell.
pub trait Cells {
    type Cell: Cell;

    // The lines of the cell at a position, each with its width.
    ghost lines: { Self → Position → List (List ℕ × ℕ) };

    // The colour of its text.
    ghost color: { Self → Position → Option (List ℕ × List ℕ) };

    /// The cell at a position, if there is one.
    fn cell(&self, position: Position) -> Result<Option<Self::Cell>, AllocError>
        ensures { IfOk result (λ cell. lines self.now position ≡ lines_of Self.Cell.lines cell) };

    /// The line of the cell at a position, with its width, where that has one line and no more.
    fn line(&self, position: Position) -> Option<(&str, usize)>
        ensures { option_map (λ line. (line.0.now, line.1)) result
            ≡ single_line (lines self.now position) };

    /// The colour of its text.
    fn color(&self, position: Position) -> Option<ANSIStr<'_>>
        ensures { color self.now position ≡ option_map texts_of result };
}
