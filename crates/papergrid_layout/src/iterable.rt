//! The sizes of records whose cells are texts. Source: `dimension/iterable.rs`.

pub use crate::certificates::{
    check_height_witness, check_width_witness, height_witness, width_witness,
};
use crate::grid_dimension::GridDimension;
use papergrid_tracks::ByShares;
use papergrid_walk::measure::ByLines;

/// Widths of columns and heights of rows, by shares. A cell is as wide as the widest of its lines between
/// newlines, and as high as there are lines.
pub type IterGridDimension = GridDimension<ByShares, ByLines>;
