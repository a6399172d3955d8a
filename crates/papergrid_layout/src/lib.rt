//! Widths of columns and heights of rows, of records by a configuration.
#![tactic(auto)]

mod along;
mod both;
mod cell_rect;
mod cell_rects;
pub mod certificates;
mod check;
pub mod compact;
pub mod dimension;
mod grid_dimension;
pub mod iterable;
pub mod laws;
pub mod least;
mod marks;
pub mod peekable;
mod point;
pub mod rect;
mod ruler;
mod spanning;
mod table;
mod totals;

pub use cell_rect::place;
pub use cell_rects::places;
pub use compact::CompactGridDimension;
pub use dimension::{Dimension, Estimate};
pub use grid_dimension::GridDimension;
pub use iterable::IterGridDimension;
pub use least::LeastGridDimension;
pub use papergrid_tracks::{LayoutError, LayoutResult, Sizing, Solved};
pub use papergrid_values::PerDirection;
pub use peekable::PeekableGridDimension;
pub use point::cell_at;
pub use rect::{Place, PlaceError};
pub use table::Table;
pub use totals::{total_height, total_width};
