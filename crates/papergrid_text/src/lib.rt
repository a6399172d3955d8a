//! Texts, cells and records: what is measured, and where it comes from.
//!
//! `string` splits texts and measures them, in columns of a terminal. A `Cell` is a text with its lines
//! and widths, and a `Text` a cell that was measured once. `Records` are rows of cells that are walked
//! once; `PeekableRecords` are read by position. `transfer` is what bytes are read from and written to.
#![tactic(auto)]

pub mod cell;
mod count;
pub mod iter_records;
pub mod laws;
mod line_cache;
pub mod peekable;
pub mod records;
pub mod search;
pub mod string;
pub mod text;
pub mod transfer;
pub mod vec_records;
pub mod width;

pub use cell::Cell;
pub use count::count_byte;
pub use iter_records::{IterRecords, RowIter};
pub use line_cache::StrWithWidth;
pub use peekable::PeekableRecords;
pub use records::{ExactRecords, IntoRecords, Records};
pub use string::Lines;
pub use text::Text;
pub use vec_records::VecRecords;
