//! Tables as JSON documents: their rows, settings, colours and sizes read, and their pictures. What is read of a
//! JSON text is proved, and so is what is drawn of a document.
#![tactic(auto)]

mod document;
mod drawing;
mod error;
mod forms;
pub mod laws;
mod parts;
mod path;
mod setting;
mod spot;
mod values;

pub use document::{Document, OwnSizes, read_document, read_setting};
pub use drawing::{configuration, document_table, draw_document};
pub use error::DocumentError;
pub use forms::{Form, SETTINGS};
