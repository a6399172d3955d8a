//! What keeps a JSON text from its picture.

use papergrid::grid::DrawError;
use papergrid_json::DocumentError;
use thiserror::Error;

/// What keeps a JSON text from its picture.
#[derive(Debug, Drop, Error)]
pub enum TableError {
    /// It describes no table.
    #[error("{0}")]
    Unread(DocumentError),
    /// Its table has no picture, or only a beginning of it was written.
    #[error("{0}")]
    Undrawn(DrawError),
}
