//! Certificates: made and checked, and those of a stranger.

ghost use Rattle.std.specs.Prelude.{◌↔◌, IsTrue, MatchResult};
ghost use Rattle.papergrid_tracks.specs.Answers.{IsAccepted};
ghost use Rattle.papergrid_tracks.specs.Sizings.{IsRefused};
ghost use Rattle.papergrid_tracks.specs.declared.sizing.Sizing.TheVariants as sizings;
ghost use Rattle.papergrid_tracks.specs.Fits.{IsLeast};
ghost use Rattle.papergrid_tracks.specs.Ranges.{IsLaminar};
ghost use Rattle.papergrid_values.specs.declared.direction.Direction.TheVariants.{Columns};
ghost use Rattle.papergrid_walk.specs.Cells.{problem_of};
ghost use Rattle.papergrid_config.specs.Grids.{spanned_grid};
ghost use Rattle.papergrid_walk.specs.Measures.{line_measure};
ghost use Rattle.papergrid_checks.specs.Rows.{texts_problem};
ghost use Rattle.papergrid_text.specs.Records.{TellsRows};

use papergrid::config::Position;
use papergrid::config::spanned::SpannedConfig;
use papergrid::dimension::LayoutError;
use papergrid::dimension::iterable::{IterGridDimension, check_width_witness, width_witness};
use papergrid::records::{IntoRecords, IterRecords, Records};
use std::alloc::Global;
use std::convert::AsStr;

/// Whether the widths of rows of texts, of three columns, are certified to be least: exactly where no
/// two column spans cross.
pub fn is_certified(
    alloc: Global,
    rows: &[Vec<&str>],
    config: &SpannedConfig,
) -> Result<bool, LayoutError>
    ensures { let problem = texts_problem config.now 3 rows.now Columns in
        MatchResult result (λ certified. IsTrue certified ↔ IsLaminar problem.demands)
        (IsRefused sizings.ByShares problem) }
{
    let records = IterRecords::new(rows, 3, None);
    let widths = IterGridDimension::width(alloc, records, config)?;
    match width_witness(alloc, records, config)? {
        Some(cells) => Ok(check_width_witness(records, config, &widths, &cells)),
        None => Ok(false),
    }
}

/// Whether somebody's widths are certified by somebody's list of cells. If so they are least.
pub fn is_right<R>(records: R, config: &SpannedConfig, widths: &[usize], cells: &[Position]) -> bool
where
    R: Records + Drop,
    <<R as Records>::Iter as IntoRecords>::Cell: AsStr + Drop,
    requires { R.is_lawful records }
    ensures { TellsRows R.tells records (λ rows.
        (let measure = line_measure R.Iter.Cell.text in
        let grid = spanned_grid config.now in
        let problem = problem_of grid measure (R.columns records) rows Columns in
        (IsTrue result ↔ IsAccepted problem widths.now cells.now)
        × (IsTrue result → IsLeast problem widths.now))) }
{
    check_width_witness(records, config, widths, cells)
}
