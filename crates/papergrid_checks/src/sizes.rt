//! The sizes of a table of texts, and its totals.

ghost use Rattle.std.specs.Prelude.{◌≡◌, ◌+◌, ◌≤◌, All, IfOk, List, MatchResult, ℕ, length, slice_index, sum};
ghost use Rattle.papergrid_tracks.specs.Fits.{Fits};
ghost use Rattle.papergrid_tracks.specs.Sizes.{sizes_of};
ghost use Rattle.papergrid_layout.specs.Answers.{AreBothSized, IsBothRefused, UnlessMemory};
ghost use Rattle.papergrid_tracks.specs.Sizings.{Answers, IsRefused, IsSized};
ghost use Rattle.papergrid_tracks.specs.declared.sizing.Sizing.TheVariants as sizings;
ghost use Rattle.papergrid_values.specs.declared.direction.Direction.TheVariants.{Columns};
ghost use Rattle.papergrid_walk.specs.Cells.{problem_of, side, visible_cells};
ghost use Rattle.papergrid_config.specs.Grids.{spanned_grid};
ghost use Rattle.papergrid_walk.specs.Measures.{line_measure};
ghost use Rattle.papergrid_checks.specs.Rows.{cells_of, lent_measure, texts_problem};
ghost use Rattle.papergrid_text.specs.Records.{TellsRows};

use papergrid::config::spanned::SpannedConfig;
use papergrid::dimension::iterable::IterGridDimension;
use papergrid::dimension::{Dimension, Estimate, LayoutError};
use papergrid::records::{IntoRecords, IterRecords, Records};
use papergrid_layout::laws::total_covers_cells;
use std::alloc::Global;
use std::convert::AsStr;

/// The widths and the heights of rows of texts, of three columns.
pub fn sizes(
    alloc: Global,
    rows: &[Vec<&str>],
    config: &SpannedConfig,
) -> Result<(Vec<usize>, Vec<usize>), LayoutError>
    ensures { AreBothSized (spanned_grid config.now) lent_measure 3 (cells_of rows.now)
        sizings.ByShares result }
{
    let mut dimension = IterGridDimension::new(alloc);
    dimension.estimate(IterRecords::new(rows, 3, None), config)?;
    Ok(dimension.get_values())
}

/// The width of the first of three columns.
pub fn first_width(
    alloc: Global,
    rows: &[Vec<&str>],
    config: &SpannedConfig,
) -> Result<usize, LayoutError>
    ensures { let problem = texts_problem config.now 3 rows.now Columns in
        MatchResult result (λ width. width ≡ slice_index (sizes_of problem) 0)
        (IsBothRefused (spanned_grid config.now) lent_measure 3 (cells_of rows.now)
        sizings.ByShares) }
{
    let mut dimension = IterGridDimension::new(alloc);
    dimension.estimate(IterRecords::new(rows, 3, None), config)?;
    Ok(dimension.get_width(0))
}

/// The widths, one for each column.
pub fn widths(
    alloc: Global,
    rows: &[Vec<&str>],
    columns: usize,
    config: &SpannedConfig,
) -> Result<Vec<usize>, LayoutError>
    ensures exact { IsSized sizings.ByShares
        (texts_problem config.now columns rows.now Columns) result }
    ensures one_each { IfOk result (λ widths. length widths.items ≡ columns) }
{
    IterGridDimension::width(alloc, IterRecords::new(rows, columns, None), config)
}

/// The width of the records' table. There are widths in it that have room for each visible cell, and no visible cell, with
/// its paddings, needs more.
pub fn covering_width<R>(
    alloc: Global,
    records: R,
    config: &SpannedConfig,
) -> Result<usize, LayoutError>
where
    R: Records + Drop,
    <<R as Records>::Iter as IntoRecords>::Cell: AsStr + Drop,
    requires { R.is_lawful records }
    ensures fits { let grid = spanned_grid config.now in
        let measure = line_measure R.Iter.Cell.text in
        UnlessMemory result (TellsRows R.tells records (λ cells.
        Answers sizings.ByShares
        (λ problem total. (widths : List ℕ) × (sum widths ≤ total) × Fits problem widths)
        (problem_of grid measure (R.columns records) cells Columns) result)) }
    ensures covers { let grid = spanned_grid config.now in
        let measure = line_measure R.Iter.Cell.text in
        UnlessMemory result (TellsRows R.tells records (λ cells.
        MatchResult result (λ total. All (λ cell.
        side Columns (measure cell.1) + grid.before Columns cell.0 + grid.after Columns cell.0
        ≤ total) (visible_cells grid cells))
        (IsRefused sizings.ByShares
        (problem_of grid measure (R.columns records) cells Columns)))) }
{
    total_covers_cells::<<<R as Records>::Iter as IntoRecords>::Cell>();
    IterGridDimension::width_total(alloc, records, config)
}
