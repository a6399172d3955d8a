//! What is left of a reader, read to its end.

ghost use Rattle.std.specs.Prelude.{◌≡◌, true, IfOk, OnOk, IsErrOf};
ghost use Rattle.papergrid_script.specs.Inputs.{IsWholeInput};
ghost use Rattle.papergrid_script.specs.declared.reading.RunFault.TheVariants.{Memory};

use papergrid_text::transfer::Source;
use std::alloc::{AllocError, Global};
use thiserror::Error;

/// What kept a run from its end. No failed read or write was tried again.
#[derive(Clone, Copy, Debug, PartialEq, Eq, Error)]
pub enum RunFault {
    /// A growth was refused. Nothing was written.
    #[error("out of memory")]
    Memory,
    /// The reader failed. Nothing was written.
    #[error("the input can't be read")]
    Read,
    /// The writer failed, or took no byte of a piece that isn't empty. A beginning of the output was written.
    #[error("the output can't be written")]
    Write,
}

impl From<AllocError> for RunFault {
    ghost from_gives = { λ _ e. e ≡ Memory };

    fn from(_error: AllocError) -> RunFault {
        RunFault::Memory
    }
}

/// All the bytes that are left.
pub fn read_all<S: Source>(alloc: Global, reader: &mut S) -> Result<Vec<u8>, RunFault>
    ensures whole { IfOk result (λ input. IsWholeInput (S.remaining reader.old)
        (S.remaining reader.new) input.items) }
    ensures works { OnOk result (S.has_failed reader.new ≡ S.has_failed reader.old) }
    ensures memory { IsErrOf result RunFault.Memory →
        S.has_failed reader.new ≡ S.has_failed reader.old }
    ensures read { IsErrOf result RunFault.Read → S.has_failed reader.new ≡ true }
    ensures never_write { IsErrOf result RunFault.Write → ⊥ }
{
    let mut input = Vec::new(alloc);
    let mut buffer = [0u8; 16384];
    for _ in 0..u64::MAX {
        match reader.read(&mut buffer) {
            Err(_) => return Err(RunFault::Read),
            Ok(0) => return Ok(input),
            Ok(count) => input.extend_from_slice(&buffer[..count])?,
        }
    }
    Err(RunFault::Memory)
}
