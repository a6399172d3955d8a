//! What keeps a document from its table.

ghost use Rattle.std.specs.Prelude.{◌≡◌, IfOk};
ghost use Rattle.papergrid_json.specs.ForProofs.Reading.{IsErrorOf};
ghost use Rattle.papergrid_json.specs.declared.error.Fault.TheVariants.{Memory};

use crate::path::DocumentPath;
use std::alloc::{AllocError, AllocFailed, Global};
use thiserror::Error;

/// What keeps a document from its table.
#[derive(Debug, Drop, Error)]
pub enum DocumentError {
    /// It is not JSON, at this line and this byte of it. Both are counted from 1.
    #[error("line {0}, byte {1}: not JSON")]
    Syntax(usize, usize),
    /// At this path, as `settings[3][1].left`, stands something else than what is wanted there.
    #[error("{path}: not {wanted}")]
    Unexpected { path: String, wanted: &'static str },
    /// No setting has the name of this one.
    #[error("settings[{index}]: {name:?} is not a setting")]
    UnknownSetting { index: usize, name: String },
    /// An allocation failed.
    #[error("out of memory")]
    Memory,
}

impl From<AllocError> for DocumentError {
    ghost use Rattle.papergrid_json.specs.declared.error.DocumentError.TheVariants as document_errors;

    ghost from_gives = { λ _ error. error ≡ document_errors.Memory };

    fn from(_error: AllocError) -> DocumentError {
        DocumentError::Memory
    }
}

/// The same, while the document is read.
#[derive(Clone, Copy)]
pub enum Fault<'v> {
    Unexpected(DocumentPath, &'static str),
    UnknownSetting(usize, &'v str),
    Memory,
}

impl<'v> From<AllocError> for Fault<'v> {
    ghost from_gives = { λ _ fault. fault ≡ Memory };

    fn from(_error: AllocError) -> Fault<'v> {
        Fault::Memory
    }
}

impl<'v, T: Drop> From<AllocFailed<T>> for Fault<'v> {
    ghost from_gives = { λ _ fault. fault ≡ Memory };

    fn from(_error: AllocFailed<T>) -> Fault<'v> {
        Fault::Memory
    }
}

/// The fault in words of its own.
pub fn told(alloc: Global, fault: Fault<'_>) -> DocumentError
    ensures { IsErrorOf fault.entry result }
{
    match owned(alloc, fault) {
        Ok(error) => error,
        Err(_) => DocumentError::Memory,
    }
}

fn owned(alloc: Global, fault: Fault<'_>) -> Result<DocumentError, AllocError>
    ensures { IfOk result (IsErrorOf fault.entry) }
{
    Ok(match fault {
        Fault::Unexpected(path, wanted) => DocumentError::Unexpected {
            path: format!(in alloc; "{path}")?,
            wanted,
        },
        Fault::UnknownSetting(index, name) => DocumentError::UnknownSetting {
            index,
            name: String::from_str(alloc, name)?,
        },
        Fault::Memory => DocumentError::Memory,
    })
}
