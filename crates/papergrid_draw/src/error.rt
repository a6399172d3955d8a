//! Why a table is not drawn.

ghost use Rattle.std.specs.Prelude.{◌≡◌};
ghost use Rattle.papergrid_draw.specs.Errors.{draw_error_of};
ghost use Rattle.papergrid_draw.specs.declared.error.DrawError.TheVariants.{Memory};

use papergrid_layout::LayoutError;
use papergrid_values::Position;
use std::alloc::AllocError;
use std::fmt;
use thiserror::Error;

/// Why a table is not drawn.
#[derive(Clone, Copy, Debug, PartialEq, Eq, Error)]
pub enum DrawError {
    /// The first visible cell, by row and then by column, that ends past the last column or the last row.
    #[error("the cell at row {}, column {} is out of the table", .0.row, .0.col)]
    OutOfTable(Position),
    /// The first position, by row and then by column, that no visible cell covers, or that two do.
    #[error("the spans leave row {}, column {} to no cell, or to two", .0.row, .0.col)]
    NotTiled(Position),
    /// The first visible cell whose text and paddings are wider than its place.
    #[error("the cell at row {}, column {} is wider than its place", .0.row, .0.col)]
    NoRoom(Position),
    /// The table with its lines and margins is wider or higher than the greatest `usize`.
    #[error("the table is too large")]
    TooLarge,
    /// An allocation failed.
    #[error("out of memory")]
    Memory(AllocError),
    /// The writer failed.
    #[error("the output can't be written")]
    Write,
}

impl From<AllocError> for DrawError {
    ghost from_gives = { λ error e. e ≡ Memory error };

    fn from(error: AllocError) -> DrawError {
        DrawError::Memory(error)
    }
}

impl From<LayoutError> for DrawError {
    ghost from_gives = { λ error e. e ≡ draw_error_of error };

    fn from(error: LayoutError) -> DrawError {
        match error {
            LayoutError::OutOfTable(position) => DrawError::OutOfTable(position),
            LayoutError::TooLarge => DrawError::TooLarge,
            LayoutError::Memory(error) => DrawError::Memory(error),
        }
    }
}

impl From<DrawError> for fmt::Error {
    fn from(_error: DrawError) -> fmt::Error {
        fmt::Error
    }
}
