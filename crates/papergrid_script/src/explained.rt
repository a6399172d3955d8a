//! Why a script has no sizes.

ghost use Rattle.std.specs.Prelude.{◌≡◌, IfOk, Some};
ghost use Rattle.papergrid_maps.specs.Spans.{span_along};
ghost use Rattle.papergrid_values.specs.declared.direction.Direction.TheVariants.{Columns, Rows};
ghost use Rattle.papergrid_script.specs.Estimates.{Estimate, IsEstimate};
ghost use Rattle.papergrid_script.specs.Outputs.{OfOutcome};
ghost use Rattle.papergrid_script.specs.Reasons.{IsEstimateReason, IsOutcomeReason};
ghost use Rattle.papergrid_script.specs.Seen.{table_seen};

use crate::estimate::estimate;
use crate::script::{Script, ScriptError, read_script};
use crate::script_setting::configuration_of;
use bumpalo::Bump;
use papergrid_config::SpannedConfig;
use papergrid_layout::{LayoutError, Sizing};
use papergrid_text::IterRecords;
use papergrid_values::Position;
use std::alloc::{AllocError, Global};

/// Why a script has no sizes.
#[derive(Clone, Copy, Debug, PartialEq, Eq)]
pub enum Reason {
    /// The number of its first bad line, counted from 1.
    BadLine(usize),
    /// The first visible cell that overflows the table, by row and then by column, how many rows
    /// and columns it spans, and how many rows and columns the table has.
    OutOfTable(Position, (usize, usize), (usize, usize)),
    /// A total with the lines of the table is more than the greatest `usize`.
    TooLarge,
}

/// Why the script that the input spells has no sizes by shares, or no least ones, as the sizing says; none where it has.
/// The run with that sizing ends accordingly, and writes the same in its words.
///
/// # Errors
///
/// Out of memory.
pub fn explain(alloc: Global, sizing: Sizing, input: &[u8]) -> Result<Option<Reason>, AllocError>
    ensures { IfOk result (λ reason. OfOutcome sizing input.now (λ outcome.
        IsOutcomeReason outcome reason)) }
{
    let texts = Bump::new(alloc);
    match read_script(alloc, &texts, input) {
        Err(ScriptError::Memory) => Err(AllocError),
        Err(ScriptError::Bad(number)) => Ok(Some(Reason::BadLine(number))),
        Ok(script) => table_reason(alloc, sizing, script),
    }
}

/// Why the table that a script describes has no sizes.
fn table_reason(
    alloc: Global,
    sizing: Sizing,
    script: Script<'_>,
) -> Result<Option<Reason>, AllocError>
    ensures { let table = table_seen script.entry in
        IfOk result (λ reason. (estimate : Estimate) × IsEstimate sizing table estimate
        × IsEstimateReason table estimate reason) }
{
    let config = configuration_of(alloc, script.settings)?;
    let (columns, count) = (script.columns, script.rows.len());
    let records = IterRecords::new(script.rows, columns, Some(count));
    match estimate(alloc, sizing, records, &config) {
        Ok(_) => Ok(None),
        Err(LayoutError::OutOfTable(position)) => {
            let spans = spans_at(&config, position);
            Ok(Some(Reason::OutOfTable(position, spans, (count, columns))))
        }
        Err(LayoutError::TooLarge) => Ok(Some(Reason::TooLarge)),
        Err(LayoutError::Memory(error)) => Err(error),
    }
}

/// How many rows and columns a position spans.
fn spans_at(config: &SpannedConfig, position: Position) -> (usize, usize)
    ensures rows { result.0 ≡ span_along config.now.spans Rows position }
    ensures columns { result.1 ≡ span_along config.now.spans Columns position }
{
    let rows = config.get_row_span(position).unwrap_or(1);
    let columns = config.get_column_span(position).unwrap_or(1);
    (rows, columns)
}
