//! The cells that certify that the sizes of records whose cells are texts are least, alone or with the sizes, and the
//! checkers of such cells.

ghost use Rattle.papergrid_values.specs.declared.direction.Direction.TheVariants.{Columns, Rows};
ghost use Rattle.papergrid_tracks.specs.Sizings.{Answers, Certifies};
ghost use Rattle.papergrid_tracks.specs.declared.sizing.Sizing.TheVariants as sizings;
ghost use Rattle.papergrid_walk.specs.Cells.{problem_of};
ghost use Rattle.papergrid_config.specs.Grids.{spanned_grid};
ghost use Rattle.papergrid_walk.specs.Measures.{line_measure};
ghost use Rattle.papergrid_layout.specs.Answers.{AnswersBoth, UnlessMemory};
ghost use Rattle.papergrid_layout.specs.Certificates.{IsCertifiedBy, IsChecked, IsLeastCertified};
ghost use Rattle.papergrid_text.specs.Records.{TellsRows};

use crate::along::solve_along;
use crate::both::solve_by;
use crate::check::check;
use papergrid_config::SpannedConfig;
use papergrid_maps::ConfigView;
use papergrid_text::{IntoRecords, Records};
use papergrid_tracks::{ByLeastTotal, ByShares, LayoutError, LayoutResult, Sizing, Solved};
use papergrid_values::{Direction, PerDirection, Position};
use papergrid_walk::measure::ByLines;
use std::alloc::Global;
use std::convert::AsStr;

/// The positions of the cells that certify that the widths of the records' columns are least, by
/// the starts of their ranges: visible cells of disjoint ranges, whose minimum sizes less the lines
/// inside of them add up to the widths. None where two longer column ranges are neither nested nor
/// disjoint.
///
/// Condition: the records are lawful: they yield one finite list of rows, as each vector of
/// rows does.
///
/// # Errors
///
/// As those of `IterGridDimension::width`.
pub fn width_witness<R: Records + Drop>(
    alloc: Global,
    records: R,
    config: &SpannedConfig,
) -> Result<Option<Vec<Position>>, LayoutError>
where
    <<R as Records>::Iter as IntoRecords>::Cell: AsStr + Drop,
    requires { R.is_lawful records }
    ensures { UnlessMemory result (TellsRows R.tells records (λ cells.
        Answers sizings.ByShares (Certifies sizings.ByShares)
        (problem_of (spanned_grid config.now) (line_measure R.Iter.Cell.text)
        (R.columns records) cells Columns) result)) }
{
    witness_along(alloc, records, config, Direction::Columns)
}

/// The positions of the cells that certify that the heights of the records' rows are least, as
/// `width_witness` for columns. None where two longer row ranges are neither nested nor disjoint.
///
/// Condition: the records are lawful: they yield one finite list of rows, as each vector of
/// rows does.
///
/// # Errors
///
/// As those of `IterGridDimension::height`.
pub fn height_witness<R: Records + Drop>(
    alloc: Global,
    records: R,
    config: &SpannedConfig,
) -> Result<Option<Vec<Position>>, LayoutError>
where
    <<R as Records>::Iter as IntoRecords>::Cell: AsStr + Drop,
    requires { R.is_lawful records }
    ensures { UnlessMemory result (TellsRows R.tells records (λ cells.
        Answers sizings.ByShares (Certifies sizings.ByShares)
        (problem_of (spanned_grid config.now) (line_measure R.Iter.Cell.text)
        (R.columns records) cells Rows) result)) }
{
    witness_along(alloc, records, config, Direction::Rows)
}

/// The cells that certify the sizes of the records along a direction, if any do.
fn witness_along<R: Records + Drop, S: ConfigView>(
    alloc: Global,
    records: R,
    settings: &S,
    direction: Direction,
) -> Result<Option<Vec<Position>>, LayoutError>
where
    <<R as Records>::Iter as IntoRecords>::Cell: AsStr + Drop,
    requires { R.is_lawful records }
    ensures { UnlessMemory result (TellsRows R.tells records (λ cells.
        Answers sizings.ByShares (Certifies sizings.ByShares)
        (problem_of (S.grid settings.now) (line_measure R.Iter.Cell.text)
        (R.columns records) cells direction) result)) }
{
    let found = solve_along::<ByShares, ByLines, _, _>(alloc, records, settings, direction, true)?;
    Ok(found.certificate)
}

/// Whether no visible cell of the records overflows the table along columns, there are as many
/// widths as columns, every visible cell fits, and the positions listed are those of visible cells
/// of disjoint ranges, whose minimum sizes less the lines inside of them add up to the widths. Then
/// no widths that fit have a smaller total, whoever made the list. It does not allocate.
///
/// Condition: the records are lawful: they yield one finite list of rows, as each vector of
/// rows does.
pub fn check_width_witness<R: Records + Drop>(
    records: R,
    config: &SpannedConfig,
    widths: &[usize],
    list: &[Position],
) -> bool
where
    <<R as Records>::Iter as IntoRecords>::Cell: AsStr + Drop,
    requires { R.is_lawful records }
    ensures { TellsRows R.tells records (λ cells.
        IsChecked (problem_of (spanned_grid config.now) (line_measure R.Iter.Cell.text)
        (R.columns records) cells Columns) widths.now list.now result) }
{
    check::<ByLines, R, SpannedConfig>(records, config, Direction::Columns, widths, list)
}

/// Whether no visible cell of the records overflows the table along rows, there are as many heights
/// as rows, every visible cell fits, and the positions listed are those of visible cells of
/// disjoint ranges, whose minimum sizes less the lines inside of them add up to the heights. Then
/// no heights that fit have a smaller total, whoever made the list. It does not allocate.
///
/// Condition: the records are lawful: they yield one finite list of rows, as each vector of
/// rows does.
pub fn check_height_witness<R: Records + Drop>(
    records: R,
    config: &SpannedConfig,
    heights: &[usize],
    list: &[Position],
) -> bool
where
    <<R as Records>::Iter as IntoRecords>::Cell: AsStr + Drop,
    requires { R.is_lawful records }
    ensures { TellsRows R.tells records (λ cells.
        IsChecked (problem_of (spanned_grid config.now) (line_measure R.Iter.Cell.text)
        (R.columns records) cells Rows) heights.now list.now result) }
{
    check::<ByLines, R, SpannedConfig>(records, config, Direction::Rows, heights, list)
}

/// The positions of the cells that certify that the widths of the records' columns are least, by
/// the starts of their ranges: visible cells of disjoint ranges, whose minimum sizes less the lines
/// inside of them add up to the widths. There always are such cells.
///
/// Condition: the records are lawful: they yield one finite list of rows, as each vector of
/// rows does.
///
/// # Errors
///
/// As those of `LeastGridDimension::width`.
pub fn width_certificate<R: Records + Drop>(
    alloc: Global,
    records: R,
    config: &SpannedConfig,
) -> Result<Vec<Position>, LayoutError>
where
    <<R as Records>::Iter as IntoRecords>::Cell: AsStr + Drop,
    requires { R.is_lawful records }
    ensures { UnlessMemory result (TellsRows R.tells records (λ cells.
        IsLeastCertified (problem_of (spanned_grid config.now) (line_measure R.Iter.Cell.text)
        (R.columns records) cells Columns) result)) }
{
    certificate_along(alloc, records, config, Direction::Columns)
}

/// The positions of the cells that certify that the heights of the records' rows are least, as
/// `width_certificate` for columns.
///
/// Condition: the records are lawful: they yield one finite list of rows, as each vector of
/// rows does.
///
/// # Errors
///
/// As those of `LeastGridDimension::height`.
pub fn height_certificate<R: Records + Drop>(
    alloc: Global,
    records: R,
    config: &SpannedConfig,
) -> Result<Vec<Position>, LayoutError>
where
    <<R as Records>::Iter as IntoRecords>::Cell: AsStr + Drop,
    requires { R.is_lawful records }
    ensures { UnlessMemory result (TellsRows R.tells records (λ cells.
        IsLeastCertified (problem_of (spanned_grid config.now) (line_measure R.Iter.Cell.text)
        (R.columns records) cells Rows) result)) }
{
    certificate_along(alloc, records, config, Direction::Rows)
}

/// The cells that certify the least sizes of the records along a direction.
fn certificate_along<R: Records + Drop, S: ConfigView>(
    alloc: Global,
    records: R,
    settings: &S,
    direction: Direction,
) -> Result<Vec<Position>, LayoutError>
where
    <<R as Records>::Iter as IntoRecords>::Cell: AsStr + Drop,
    requires { R.is_lawful records }
    ensures { UnlessMemory result (TellsRows R.tells records (λ cells.
        IsLeastCertified (problem_of (S.grid settings.now) (line_measure R.Iter.Cell.text)
        (R.columns records) cells direction) result)) }
{
    let found = solve_along::<ByLeastTotal, ByLines, _, _>(
        alloc, records, settings, direction, true,
    )?;
    let certificate = found.certificate;
    match certificate {
        Some(positions) => Ok(positions),
        None => unreachable!("least sizes have a certificate"),
    }
}

/// The sizes that are chosen so along both directions, their totals with all lines, and the cells that certify them, by one walk over
/// the records: of the columns the widths, in columns of a terminal, and of the rows the heights, in lines. By shares they are what
/// `IterGridDimension` estimates, with the cells of `width_witness` and `height_witness`: none along a direction where two longer
/// ranges are neither nested nor disjoint. The least ones are those of `LeastGridDimension`, with the cells of
/// `width_certificate` and `height_certificate`.
///
/// Condition: the records are lawful: they yield one finite list of rows, as each vector of
/// rows does.
///
/// # Errors
///
/// As those of the estimate.
pub fn certify<R: Records + Drop>(
    alloc: Global,
    records: R,
    config: &SpannedConfig,
    sizing: Sizing,
) -> LayoutResult<PerDirection<Solved>>
where
    <<R as Records>::Iter as IntoRecords>::Cell: AsStr + Drop,
    requires { R.is_lawful records }
    ensures { UnlessMemory result (TellsRows R.tells records (λ cells.
        AnswersBoth (spanned_grid config.now) (line_measure R.Iter.Cell.text)
        (R.columns records) cells sizing (IsCertifiedBy sizing) result)) }
{
    solve_by(alloc, records, config, sizing, true)
}
