//! The table, drawn: line by line.
#![tactic(auto)]

mod blanks;
mod block;
pub mod cells;
mod characters;
mod color;
mod crossings;
pub mod delivery;
mod error;
mod filled_frame;
pub mod laws;
mod lines;
mod look;
mod margins;
mod page;
mod pen;
mod plain;
mod plain_rows;
pub mod printer;
mod room;
mod rows;
pub mod separated;
mod sheet;
pub mod source;
mod spanned;
mod tiles;

pub use cells::{RecordCells, TextCells, TextRow};
pub use color::AsANSIStr;
pub use crossings::{Junctions, fitted_crossings};
pub use error::DrawError;
pub use lines::draw_lines;
pub use room::Room;
pub use tiles::check_tiles;
