//! The other dimensions: cells that keep their lines, one setting for all cells, and least totals.

ghost use Rattle.std.specs.Prelude.{◌≡◌, MatchResult, slice_index, string_bytes};
ghost use Rattle.papergrid_tracks.specs.Sizes.{sizes_of};
ghost use Rattle.papergrid_layout.specs.Answers.{AreBothSized};
ghost use Rattle.papergrid_tracks.specs.Sizings.{IsRefused};
ghost use Rattle.papergrid_tracks.specs.declared.sizing.Sizing.TheVariants as sizings;
ghost use Rattle.papergrid_text.specs.HeldRows.{column_count, rows_held};
ghost use Rattle.papergrid_values.specs.declared.direction.Direction.TheVariants.{Columns};
ghost use Rattle.papergrid_walk.specs.Cells.{problem_of};
ghost use Rattle.papergrid_maps.specs.Grids.{compact_grid};
ghost use Rattle.papergrid_config.specs.Grids.{spanned_grid};
ghost use Rattle.papergrid_walk.specs.Measures.{std_line_measure};
ghost use Rattle.papergrid_checks.specs.Rows.{cells_of, kept_measure, lent_measure};

use papergrid::config::compact::CompactConfig;
use papergrid::config::spanned::SpannedConfig;
use papergrid::dimension::compact::CompactGridDimension;
use papergrid::dimension::least::LeastGridDimension;
use papergrid::dimension::peekable::PeekableGridDimension;
use papergrid::dimension::{Dimension, Estimate, LayoutError};
use papergrid::records::IterRecords;
use papergrid::records::vec_records::{Text, VecRecords};
use std::alloc::Global;

/// The sizes of texts that were measured once: no estimate measures them again.
pub fn of_measured(
    alloc: Global,
    records: &VecRecords<Text<&str>>,
    config: &SpannedConfig,
) -> Result<(Vec<usize>, Vec<usize>), LayoutError>
    ensures { AreBothSized (spanned_grid config.now) kept_measure (column_count records.now)
        (cells_of (rows_held records.now).items) sizings.ByShares result }
{
    let mut dimension = PeekableGridDimension::new(alloc);
    dimension.estimate(records, config)?;
    Ok(dimension.get_values())
}

/// The width of the first of three columns, where all cells have the same padding.
pub fn of_compact(
    alloc: Global,
    rows: &[Vec<String>],
    config: &CompactConfig,
) -> Result<usize, LayoutError>
    ensures { let problem = problem_of (compact_grid config.now) (std_line_measure string_bytes) 3
        (cells_of rows.now) Columns in
        MatchResult result (λ width. width ≡ slice_index (sizes_of problem) 0)
        (IsRefused sizings.ByShares problem) }
{
    let mut dimension = CompactGridDimension::new(alloc);
    dimension.estimate(IterRecords::new(rows, 3, None), config)?;
    Ok(dimension.get_width(0))
}

/// The least sizes of rows of texts, of three columns, where spans may cross.
pub fn of_crossing(
    alloc: Global,
    rows: &[Vec<&str>],
    config: &SpannedConfig,
) -> Result<(Vec<usize>, Vec<usize>), LayoutError>
    ensures { let grid = spanned_grid config.now in
        AreBothSized grid lent_measure 3 (cells_of rows.now) sizings.Least result }
{
    let mut dimension = LeastGridDimension::new(alloc);
    dimension.estimate(IterRecords::new(rows, 3, None), config)?;
    Ok(dimension.get_values())
}
