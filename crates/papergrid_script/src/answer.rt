//! What an input comes to: how its run ends, and what is written.

ghost use Rattle.std.specs.Prelude.{◌≡◌, IfOk, option_map};
ghost use Rattle.papergrid_layout.specs.Certificates.{solutions_of};
ghost use Rattle.papergrid_script.specs.Estimates.{Estimate, IsEstimate};
ghost use Rattle.papergrid_script.specs.Outputs.{IsAnswer, OfOutcome, estimate_end, estimate_text, outcome_sizes};
ghost use Rattle.papergrid_script.specs.Seen.{table_seen};
ghost use Rattle.papergrid_script.specs.ForProofs.Sized.{GivesEstimate};

use crate::estimate::estimate;
use crate::output::{bad_script_text, out_of_table_text, sizes_text, too_large_text};
use crate::script::{Script, ScriptError, read_script};
use crate::script_setting::configuration_of;
use bumpalo::Bump;
use papergrid_layout::{LayoutError, LayoutResult, PerDirection, Sizing, Solved};
use papergrid_text::IterRecords;
use std::alloc::{AllocError, Global};

/// How a run ended that read its whole input and wrote its whole output.
#[derive(Clone, Copy, Debug, PartialEq, Eq)]
pub enum RunEnd {
    /// The sizes were written.
    Done,
    /// The table has no sizes, and why was written: the first visible cell that overflows it, or
    /// that a total with the lines of the table is too large.
    Refused,
    /// The script has a bad line, and its number was written.
    BadScript,
}

/// How the run of an input ends, and what is written.
pub fn answer(alloc: Global, sizing: Sizing, input: &[u8]) -> Result<(RunEnd, Vec<u8>), AllocError>
    ensures { IfOk result (λ answer. IsAnswer sizing input.now answer.0 answer.1.items) }
{
    let texts = Bump::new(alloc);
    match read_script(alloc, &texts, input) {
        Err(ScriptError::Memory) => Err(AllocError),
        Err(ScriptError::Bad(number)) => Ok((RunEnd::BadScript, bad_script_text(alloc, number)?)),
        Ok(script) => table_answer(alloc, sizing, script),
    }
}

/// The sizes of the table that a script describes, in columns of a terminal and in lines, their totals, and the cells that certify
/// them: none of a bad script, nor of a table without sizes.
///
/// # Errors
///
/// `AllocError` where a growth is refused.
pub fn certify_script(
    alloc: Global,
    sizing: Sizing,
    input: &[u8],
) -> Result<Option<PerDirection<Solved>>, AllocError>
    ensures { IfOk result (λ found. OfOutcome sizing input.now (λ outcome.
        option_map solutions_of found ≡ outcome_sizes outcome)) }
{
    let texts = Bump::new(alloc);
    match read_script(alloc, &texts, input) {
        Err(ScriptError::Memory) => Err(AllocError),
        Err(ScriptError::Bad(_)) => Ok(None),
        Ok(script) => match table_sizes(alloc, sizing, script) {
            Err(LayoutError::Memory(error)) => Err(error),
            Err(LayoutError::OutOfTable(_)) => Ok(None),
            Err(LayoutError::TooLarge) => Ok(None),
            Ok(found) => Ok(Some(found)),
        },
    }
}

/// How the run of a script ends, and what is written.
fn table_answer(
    alloc: Global,
    sizing: Sizing,
    script: Script<'_>,
) -> Result<(RunEnd, Vec<u8>), AllocError>
    ensures { IfOk result (λ answer. (estimate : Estimate)
        × IsEstimate sizing (table_seen script.entry) estimate
        × ((answer.0 ≡ estimate_end estimate) × (answer.1.items ≡ estimate_text estimate))) }
{
    match table_sizes(alloc, sizing, script) {
        Err(LayoutError::Memory(error)) => Err(error),
        Err(LayoutError::OutOfTable(position)) => {
            Ok((RunEnd::Refused, out_of_table_text(alloc, position)?))
        }
        Err(LayoutError::TooLarge) => Ok((RunEnd::Refused, too_large_text(alloc)?)),
        Ok(found) => Ok((RunEnd::Done, sizes_text(alloc, &found)?)),
    }
}

/// The sizes of the table that a script describes, with totals and certificates.
fn table_sizes(
    alloc: Global,
    sizing: Sizing,
    script: Script<'_>,
) -> LayoutResult<PerDirection<Solved>>
    ensures { GivesEstimate result (IsEstimate sizing (table_seen script.entry)) }
{
    let config = configuration_of(alloc, script.settings)?;
    let (columns, count) = (script.columns, script.rows.len());
    let records = IterRecords::new(script.rows, columns, Some(count));
    estimate(alloc, sizing, records, &config)
}
