//! The whole run: read to the end, judge, write.

ghost use Rattle.std.specs.Prelude.{◌≡◌, ⊤, ℕ, Vec, false, IsErrOf};
ghost use Rattle.std.specs.declared.alloc.Global.{Global};
ghost use Rattle.papergrid_tracks.specs.declared.sizing.Sizing.TheVariants.{ByShares};
ghost use Rattle.papergrid_script.specs.Outputs.{IsAnswer};
ghost use Rattle.papergrid_script.specs.Runs.{Runs};
ghost use Rattle.papergrid_script.specs.Writing.{WritesOutput};
ghost use Rattle.papergrid_script.specs.declared.reading.RunFault.TheVariants.{Memory};

use papergrid_layout::Sizing;
use papergrid_script::answer::{RunEnd, answer};
use papergrid_script::reading::{RunFault, read_all};
use papergrid_text::transfer::{Sink, Source, write_all};
use std::alloc::Global;

/// Reads a script to its end, and writes the sizes of its table by shares, or why it has none. Widths are in columns of a
/// terminal and heights in lines; the totals count the lines of the table, and so does a refusal as too large.
/// Nothing is written before the input was read to its end, and all of it is kept until then.
///
/// Conditions: the reader and the writer keep what their traits promise, and so tell whether they have failed, and
/// their bytes where they know them. Neither has failed before.
///
/// # Errors
///
/// `Read` where the reader fails, `Write` where the writer fails or takes no byte of a piece that isn't empty,
/// `Memory` where a growth is refused, over a reader that never ends too. No failed call is tried again. After
/// `Read` and `Memory` nothing was written, after `Write` a beginning of the output.
pub fn run<S: Source, W: Sink>(
    alloc: Global,
    reader: &mut S,
    writer: &mut W,
) -> Result<RunEnd, RunFault>
    // Of a reader and a writer that had not failed.
    requires reader { S.has_failed reader.old ≡ false }
    requires writer { W.has_failed writer.old ≡ false }
    // Of some input, which is what was left to read where the reader tells that. Its output was written, and nothing else. It
    // was read to its end, and neither the reader nor the writer failed. Or which fault comes, and what it leaves of them.
    ensures run { (input : Vec ℕ Global) × Runs S.remaining S.has_failed W.contents W.has_failed
        W.has_stalled reader.old reader.new writer.old writer.new input input
        (IsAnswer ByShares input.items) result }
    ensures memory_nothing { IsErrOf result Memory → writer.new ≡ writer.old }
{
    let mut input = Vec::new(alloc);
    run_keeping(alloc, Sizing::ByShares, reader, writer, &mut input)
}

/// The same by shares or of the least sizes, as the sizing says. Of the least ones no table with room for each visible cell is
/// narrower, or lower, whatever spans cross. It is refused as too large only where no sizes with room come, with the lines, to
/// at most the greatest `usize`.
///
/// The whole input is left in the vector, in place of what it held. So a caller can `explain` an input that came from a
/// reader.
///
/// Conditions and errors: as those of `run`. After `Read` the vector is as it was. After `Memory` it is as it was or has the
/// whole input, after `Write` the whole input.
pub fn run_keeping<S: Source, W: Sink>(
    alloc: Global,
    sizing: Sizing,
    reader: &mut S,
    writer: &mut W,
    input: &mut Vec<u8>,
) -> Result<RunEnd, RunFault>
    // Of a reader and a writer that had not failed.
    requires reader { S.has_failed reader.old ≡ false }
    requires writer { W.has_failed writer.old ≡ false }
    // Its output was written, and nothing else. The whole input is kept, and neither the reader nor the writer failed. Or
    // which fault comes, and what it leaves of them and of the vector.
    ensures run { Runs S.remaining S.has_failed W.contents W.has_failed W.has_stalled
        reader.old reader.new writer.old writer.new input.old input.new
        (IsAnswer sizing input.new.items) result }
    ensures memory_nothing { IsErrOf result Memory → writer.new ≡ writer.old }
{
    *input = read_all(alloc, reader)?;
    write_answer(alloc, sizing, input.as_slice(), writer)
}

/// Writes the output of an input.
fn write_answer<W: Sink>(
    alloc: Global,
    sizing: Sizing,
    input: &[u8],
    writer: &mut W,
) -> Result<RunEnd, RunFault>
    ensures written { WritesOutput W.contents W.has_failed W.has_stalled (λ _. ⊤)
        (IsAnswer sizing input.now) writer.old writer.new result }
    ensures memory_nothing { IsErrOf result Memory → writer.new ≡ writer.old }
{
    let (end, output) = answer(alloc, sizing, input)?;
    say(writer, end, output)
}

/// Writes a text, after which the run ends so.
pub fn say<W: Sink>(writer: &mut W, end: RunEnd, text: Vec<u8>) -> Result<RunEnd, RunFault>
    ensures written { WritesOutput W.contents W.has_failed W.has_stalled (λ _. ⊤)
        (λ e output. (e ≡ end) × (output ≡ text.items)) writer.old writer.new result }
    ensures never_memory { IsErrOf result Memory → ⊥ }
{
    match write_all(writer, text.as_slice()) {
        Ok(()) => Ok(end),
        Err(_) => Err(RunFault::Write),
    }
}
