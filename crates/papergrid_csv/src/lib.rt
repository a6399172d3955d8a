//! Tables of CSV texts: their rows, each field spelled so that no control character is left, and their pictures.
#![tactic(auto)]

mod aligned;
mod certified;
mod cutting;
mod judging;
pub mod laws;
mod number;
mod quotes;
mod reading;
mod request;
mod run;
mod shown;
mod spelling;
mod starts;
mod style;
mod widest;
mod within;

pub use certified::{certify_csv, has_picture};
pub use cutting::cut;
pub use reading::{Format, Reading, Rows, RowsError, read_rows};
pub use request::{Alignment, ColumnName, Request, Span};
pub use run::{CsvEnd, draw_csv};
pub use shown::cut_rows;
pub use starts::record_start;
pub use style::Style;
pub use within::draw_csv_within;
