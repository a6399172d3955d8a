//! Callers that know their rows: the contracts suffice for an exact answer.

ghost use Rattle.std.specs.Prelude.{IfOk};
ghost use Rattle.papergrid_tracks.specs.Sizings.{AreSizesBy, IsTotal};
ghost use Rattle.papergrid_tracks.specs.declared.sizing.Sizing.TheVariants as sizings;
ghost use Rattle.papergrid_layout_checks.specs.Strings.{columns_problem};

use papergrid_config::SpannedConfig;
use papergrid_layout::{Estimate, IterGridDimension, LayoutError, total_width};
use papergrid_text::{Records, VecRecords};
use std::alloc::Global;

pub fn of_held(
    alloc: Global,
    records: VecRecords<String>,
    config: &SpannedConfig,
) -> Result<Vec<usize>, LayoutError>
    ensures { IfOk result (λ widths.
        AreSizesBy sizings.ByShares (columns_problem config.now records) widths.items) }
{
    IterGridDimension::width(alloc, records, config)
}

pub fn of_lent(
    alloc: Global,
    records: &VecRecords<String>,
    config: &SpannedConfig,
) -> Result<Vec<usize>, LayoutError>
    ensures { IfOk result (λ widths.
        AreSizesBy sizings.ByShares (columns_problem config.now records.now) widths.items) }
{
    IterGridDimension::width(alloc, records, config)
}

/// The width of a table by the sizes of an estimate.
pub fn width_by_estimate(
    alloc: Global,
    records: VecRecords<String>,
    config: &SpannedConfig,
) -> Result<usize, LayoutError>
    ensures { IfOk result
        (IsTotal sizings.ByShares (columns_problem config.now records)) }
{
    let columns = records.count_columns();
    let mut dimension = IterGridDimension::new(alloc);
    match dimension.estimate(records, config) {
        Ok(()) => total_width(&dimension, config, columns),
        Err(error) => Err(error),
    }
}
