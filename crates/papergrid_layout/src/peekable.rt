//! The sizes of records whose cells know their width and their lines. Source: `dimension/peekable.rs`.

use crate::grid_dimension::GridDimension;
use papergrid_tracks::ByShares;
use papergrid_walk::measure::ByCell;

/// Widths of columns and heights of rows, by shares. A cell is as wide as it says, and as high as it has
/// lines.
pub type PeekableGridDimension = GridDimension<ByShares, ByCell>;
