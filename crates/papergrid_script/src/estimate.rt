//! The sizes of a table, its totals with lines, and the cells that certify the sizes.

ghost use Rattle.papergrid_config.specs.Grids.{spanned_grid};
ghost use Rattle.papergrid_walk.specs.Measures.{line_measure};
ghost use Rattle.papergrid_script.specs.Estimates.{IsEstimateBy};
ghost use Rattle.papergrid_script.specs.ForProofs.Sized.{GivesEstimate};
ghost use Rattle.papergrid_text.specs.Records.{TellsRows};

use papergrid_config::SpannedConfig;
use papergrid_layout::certificates::certify;
use papergrid_layout::{LayoutResult, PerDirection, Sizing, Solved};
use papergrid_text::{IntoRecords, Records};
use std::alloc::Global;
use std::convert::AsStr;

/// The sizes, the totals and the certificates of the table of these records, by this configuration.
///
/// # Errors
///
/// `OutOfTable` with the first visible cell that overflows the table, else `TooLarge` where a total
/// is more than the greatest `usize`; `Memory` in place of any answer.
pub fn estimate<R>(
    alloc: Global,
    sizing: Sizing,
    records: R,
    config: &SpannedConfig,
) -> LayoutResult<PerDirection<Solved>>
where
    R: Records + Drop,
    <<R as Records>::Iter as IntoRecords>::Cell: AsStr + Drop,
    requires { R.is_lawful records }
    ensures { GivesEstimate result (λ answer. TellsRows R.tells records (λ cells.
        IsEstimateBy (spanned_grid config.now) (line_measure R.Iter.Cell.text)
        (R.columns records) cells sizing answer)) }
{
    certify(alloc, records, config, sizing)
}
