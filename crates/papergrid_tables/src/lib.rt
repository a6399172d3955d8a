//! Tables of parts: values for the lines, edges and corners of a table, and for offsets of its
//! positions.
#![tactic(auto)]

mod border_parts;
pub mod border_table;
mod counted_lines;
mod counted_parts;
pub mod laws;
mod line_counts;
pub mod offset_table;

pub use border_table::BorderTable;
pub use offset_table::OffsetTable;
