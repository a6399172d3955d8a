//! Scripts: answered, and explained.

ghost use Rattle.std.specs.Prelude.{◌≡◌, ◌⊎◌, IfOk, List, OnErr, Option, false, ℕ};
ghost use Rattle.std.specs.Io.KnownBytes.{Appends};
ghost use Rattle.papergrid_tracks.specs.declared.sizing.Sizing.TheVariants.{ByShares};
ghost use Rattle.papergrid_script.specs.Outputs.{IsAnswer, OfOutcome};
ghost use Rattle.papergrid_script.specs.Reasons.{IsOutcomeReason};
ghost use Rattle.papergrid_script.specs.declared.answer.RunEnd.{RunEnd};
ghost use Rattle.papergrid_script.specs.declared.explained.Reason.{Reason};
ghost use Rattle.papergrid_text.specs.Transfer.{HasBegun};
ghost use Rattle.papergrid_checks.specs.Scripts.{bad_number};

use papergrid::{ReadSource, Reason, RunEnd, RunFault, Sink, Sizing, explain, run};
use std::alloc::{AllocError, Global};

/// Writes what the program answers to a script, and answers how that ended. Condition: the writer has not failed.
pub fn answer_to<W: Sink>(alloc: Global, script: &[u8], writer: &mut W) -> Result<RunEnd, RunFault>
    requires { W.has_failed writer.old ≡ false }
    ensures written { IfOk result (λ end. (output : List ℕ)
        × IsAnswer ByShares script.now end output
        × Appends (W.contents writer.old) (W.contents writer.new) output) }
    ensures beginning { OnErr result ((writer.new ≡ writer.old)
        ⊎ ((output : List ℕ) × ((end : RunEnd) × IsAnswer ByShares script.now end output)
        × HasBegun W.contents W.has_failed W.has_stalled writer.old output writer.new)) }
{
    let mut source = ReadSource::new(script);
    run(alloc, &mut source, writer)
}

/// The number of a script's first bad line, counted from 1.
pub fn bad_line(alloc: Global, script: &[u8]) -> Result<Option<usize>, AllocError>
    ensures { IfOk result (λ bad. OfOutcome ByShares script.now (λ outcome.
        (why : Option Reason) × IsOutcomeReason outcome why × (bad ≡ bad_number why))) }
{
    match explain(alloc, Sizing::ByShares, script)? {
        Some(Reason::BadLine(number)) => Ok(Some(number)),
        Some(Reason::OutOfTable(..)) => Ok(None),
        Some(Reason::TooLarge) => Ok(None),
        None => Ok(None),
    }
}
