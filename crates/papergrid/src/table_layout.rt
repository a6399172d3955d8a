//! The layout of records by a list of settings.

ghost use Rattle.std.specs.Prelude.{◌≡◌, All, IfErr, IfOk, true};
ghost use Rattle.papergrid_config.specs.Applied.{is_in_range};
ghost use Rattle.papergrid_walk.specs.Measures.{line_measure};
ghost use Rattle.papergrid_tracks.specs.declared.sizing.Sizing.TheVariants as sizings;
ghost use Rattle.papergrid.specs.Layouts.{IsLayoutBy};
ghost use Rattle.papergrid_config.specs.History.{HasSettingHistory};

use papergrid_config::{Setting, SpannedConfig};
use papergrid_layout::{
    Estimate, GridDimension, IterGridDimension, LayoutError, LeastGridDimension,
};
use papergrid_text::{IntoRecords, Records};
use papergrid_tracks::Solver;
use papergrid_walk::measure::ByLines;
use std::alloc::{AllocError, Global};
use std::convert::AsStr;

/// The widths of the columns of the records, in columns of a terminal, and the heights of their rows, in
/// lines, by the configuration that the settings make: in it each setting of a cell is what they decide.
///
/// Conditions: each setting is in range (`is_in_range` tests it). The records are lawful: they yield one finite list
/// of rows and one count of columns, as each vector of rows does. A cell answers the same each time.
///
/// # Errors
///
/// `OutOfTable` with the first visible cell that overflows the table, else `TooLarge` where the
/// widths and the vertical lines, or the heights and the horizontal lines, come to more than the
/// greatest `usize`; `Memory` in place of any answer, where a setting allocates too. Nothing is
/// left of a layout that was refused.
pub fn layout<R: Records + Drop>(
    alloc: Global,
    settings: Vec<Setting>,
    records: R,
) -> Result<IterGridDimension, LayoutError>
where
    <<R as Records>::Iter as IntoRecords>::Cell: AsStr + Drop,
    requires lawful { R.is_lawful records }
    requires in_range { All (λ setting. is_in_range setting ≡ true) settings.items }
    ensures { IsLayoutBy R.tells (line_measure R.Iter.Cell.text) R.columns
        settings.items records sizings.ByShares result }
{
    laid_out(alloc, settings, records)
}

/// The same with the least widths and heights, whatever spans cross: no widths with room for each visible cell have
/// a smaller sum, and no heights.
///
/// Conditions: as those of `layout`.
///
/// # Errors
///
/// `OutOfTable` with the first visible cell that overflows the table, else `TooLarge` where no
/// widths with room for each visible cell come, with the vertical lines, to at most the greatest
/// `usize`, or no heights with the horizontal lines; `Memory` in place of any answer, where a
/// setting allocates too.
pub fn layout_least<R: Records + Drop>(
    alloc: Global,
    settings: Vec<Setting>,
    records: R,
) -> Result<LeastGridDimension, LayoutError>
where
    <<R as Records>::Iter as IntoRecords>::Cell: AsStr + Drop,
    requires lawful { R.is_lawful records }
    requires in_range { All (λ setting. is_in_range setting ≡ true) settings.items }
    ensures { IsLayoutBy R.tells (line_measure R.Iter.Cell.text) R.columns
        settings.items records sizings.Least result }
{
    laid_out(alloc, settings, records)
}

/// The same with the sizes that `T` finds.
fn laid_out<T: Solver, R: Records + Drop>(
    alloc: Global,
    settings: Vec<Setting>,
    records: R,
) -> Result<GridDimension<T, ByLines>, LayoutError>
where
    <<R as Records>::Iter as IntoRecords>::Cell: AsStr + Drop,
    requires lawful { R.is_lawful records }
    requires in_range { All (λ setting. is_in_range setting ≡ true) settings.items }
    ensures { IsLayoutBy R.tells (line_measure R.Iter.Cell.text) R.columns
        settings.items records T.sizing result }
{
    let config = configuration(alloc, settings)?;
    estimated(GridDimension::new(alloc), records, &config)
}

/// A dimension with the sizes of the records by a configuration. Condition: it accepts the records.
fn estimated<D: Estimate<R, SpannedConfig> + Drop, R>(
    mut dimension: D,
    records: R,
    config: &SpannedConfig,
) -> Result<D, LayoutError>
    requires { D.accepts records }
    ensures ok { IfOk result (λ made. D.is_estimate made records config.now) }
    ensures err { IfErr result (λ error. D.is_refused dimension records config.now error) }
{
    dimension.estimate(records, config)?;
    Ok(dimension)
}

/// The configuration that the settings make. Condition: each setting is in range.
// It is made where its caller keeps it: it is large, and is not moved.
#[inline(always)]
pub fn configuration(alloc: Global, settings: Vec<Setting>) -> Result<SpannedConfig, AllocError>
    requires { All (λ setting. is_in_range setting ≡ true) settings.items }
    ensures { IfOk result (HasSettingHistory settings.items) }
{
    let mut config = SpannedConfig::new(alloc);
    match config.apply_all(settings) {
        Ok(()) => Ok(config),
        Err(_) => Err(AllocError),
    }
}
