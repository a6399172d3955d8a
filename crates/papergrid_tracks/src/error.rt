//! Why there are no sizes.

use papergrid_values::Position;
use std::alloc::AllocError;
use thiserror::Error;

/// Why a table has no sizes.
#[derive(Clone, Copy, Debug, PartialEq, Eq, Error)]
pub enum LayoutError {
    /// A visible cell's range ends past the last track in a direction that is looked at. The
    /// position is the first such cell's, by row and then by column.
    #[error("the cell at row {row}, column {column} reaches out of the table", row = .0.row, column = .0.col)]
    OutOfTable(Position),
    /// No cell overflows the table, and in a direction that is looked at the sizes with all lines
    /// come to more than the greatest `usize`.
    #[error("the table is too large for 64 bits")]
    TooLarge,
    /// A growth was refused. It may come in place of any other answer.
    #[error("out of memory")]
    Memory(AllocError),
}

/// What is found of a table, or why it has no sizes.
pub type LayoutResult<T> = Result<T, LayoutError>;

impl From<AllocError> for LayoutError {
    ghost use Rattle.std.specs.Prelude.{◌≡◌};
    ghost use Rattle.papergrid_tracks.specs.declared.error.LayoutError.TheVariants.{Memory};

    ghost from_gives = { λ e error. error ≡ Memory e };

    fn from(error: AllocError) -> LayoutError {
        LayoutError::Memory(error)
    }
}
