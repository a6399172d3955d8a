//! The least sizes of records whose cells are texts, whatever spans cross.

pub use crate::certificates::{height_certificate, width_certificate};
use crate::grid_dimension::GridDimension;
use papergrid_tracks::ByLeastTotal;
use papergrid_walk::measure::ByLines;

/// Widths of columns and heights of rows whose totals are least, whatever spans cross. A cell is as wide
/// as the widest of its lines between newlines, and as high as there are lines. The sizes are those of
/// `IterGridDimension` wherever the totals of these are least.
pub type LeastGridDimension = GridDimension<ByLeastTotal, ByLines>;
