//! Why a call is refused.

ghost use Rattle.std.specs.Prelude.{◌≡◌};
ghost use Rattle.papergrid_builder.specs.Errors.{layout_refusal};
ghost use Rattle.papergrid_builder.specs.declared.error.BuilderError.TheVariants.{Memory};

use papergrid_tracks::LayoutError;
use papergrid_values::Position;
use std::alloc::{AllocError, AllocFailed};
use thiserror::Error;

/// Why a call is refused.
#[derive(Clone, Copy, Debug, PartialEq, Eq, Error)]
pub enum BuilderError {
    /// An allocation failed.
    #[error("out of memory")]
    Memory,
    /// The bytes of a cell are not UTF-8.
    #[error("the text of a cell is not UTF-8")]
    NotText,
    /// The byte that ends a cell or a row is not ASCII.
    #[error("a byte that ends cells or rows is not ASCII")]
    NotAscii,
    /// The row or the column of a border has none behind it in `usize`.
    #[error("the setting is for a row or a column that is too great")]
    OutOfRange,
    /// No setting is spelled so.
    #[error("the setting is not one that is known, with its values")]
    BadSetting,
    /// The first visible cell that ends past the last column or the last row, or the cell that was asked for.
    #[error("the cell at row {}, column {} is out of the table", .0.row, .0.col)]
    OutOfTable(Position),
    /// The first position that no visible cell covers, or that two do.
    #[error("the spans leave row {}, column {} to no cell, or to two", .0.row, .0.col)]
    NotTiled(Position),
    /// The table with its lines and margins is wider or higher than the greatest `usize`.
    #[error("the table is too large")]
    TooLarge,
    /// The sizes of the table were not found since it was changed.
    #[error("the table has not been estimated")]
    NotEstimated,
    /// The position is hidden by the span of another one.
    #[error("the cell is hidden by the span of another one")]
    Hidden,
}

impl From<AllocError> for BuilderError {
    ghost from_gives = { λ _ e. e ≡ Memory };

    fn from(_error: AllocError) -> BuilderError {
        BuilderError::Memory
    }
}

impl<T: Drop> From<AllocFailed<T>> for BuilderError {
    ghost from_gives = { λ _ e. e ≡ Memory };

    fn from(_error: AllocFailed<T>) -> BuilderError {
        BuilderError::Memory
    }
}

impl From<LayoutError> for BuilderError {
    ghost from_gives = { λ error e. e ≡ layout_refusal error };

    fn from(error: LayoutError) -> BuilderError {
        match error {
            LayoutError::OutOfTable(position) => BuilderError::OutOfTable(position),
            LayoutError::TooLarge => BuilderError::TooLarge,
            LayoutError::Memory(_) => BuilderError::Memory,
        }
    }
}
