//! What is found along both directions.

ghost use Rattle.std.specs.Prelude.{◌≡◌, List, length};
ghost use Rattle.papergrid_tracks.specs.Sizings.{Certifies, IsSolvedBy};
ghost use Rattle.papergrid_tracks.specs.Ranges.{first_out};
ghost use Rattle.papergrid_walk.specs.ForProofs.Pairs.{AreBothGathered};
ghost use Rattle.papergrid_walk.specs.Measures.{line_measure};
ghost use Rattle.papergrid_layout.specs.Answers.{AnswersBoth, UnlessMemory};
ghost use Rattle.papergrid_layout.specs.ForProofs.Earlier.{earlier, earlier_of};
ghost use Rattle.papergrid_text.specs.Records.{TellsRows};

use crate::along::Along;
use papergrid_maps::ConfigView;
use papergrid_text::{IntoRecords, Records};
use papergrid_tracks::settled::find_out;
use papergrid_tracks::{
    ByLeastTotal, ByShares, Demands, LayoutError, LayoutResult, Sizing, Solved, Solver,
};
use papergrid_values::{Direction, PerDirection, Position};
use papergrid_walk::measure::ByLines;
use papergrid_walk::{Measure, gather_both};
use std::alloc::Global;
use std::convert::AsStr;

/// Of two positions the one that is earlier by row and then by column.
fn earlier_of(p: Position, q: Position) -> Position
    ensures { result ≡ earlier_of p q }
{
    if q < p { q } else { p }
}

/// The same, where there are any.
fn earlier(p: Option<Position>, q: Option<Position>) -> Option<Position>
    ensures { result ≡ earlier p q }
{
    match (p, q) {
        (Some(p), Some(q)) => Some(earlier_of(p, q)),
        (Some(p), None) => Some(p),
        (None, q) => q,
    }
}

/// The position of the first cell that overflows the table, by its range along columns or by that
/// along rows.
fn find_out_of_both(columns: usize, rows: usize, both: &PerDirection<Demands>) -> Option<Position>
    ensures { result ≡ earlier (first_out columns both.now.columns.rest.items)
        (first_out rows both.now.rows.rest.items) }
{
    earlier(
        find_out(columns, &both.columns.rest),
        find_out(rows, &both.rows.rest),
    )
}

/// What the kept cells of a table of so many columns and rows come to along both directions.
fn conclude<T: Solver, M: Measure<C>, C, S: ConfigView>(
    alloc: Global,
    columns: usize,
    rows: usize,
    both: &PerDirection<Demands>,
    settings: &S,
    certify: bool,
) -> LayoutResult<PerDirection<Solved>>
    requires { (cells : List (List C)) × (rows ≡ length cells)
        × AreBothGathered (S.grid settings.now) M.measured columns cells both.now }
    ensures { (cells : List (List C)) → rows ≡ length cells →
        AreBothGathered (S.grid settings.now) M.measured columns cells both.now →
        AnswersBoth (S.grid settings.now) M.measured columns cells T.sizing
        (IsSolvedBy T.sizing (Certifies T.sizing) certify) result }
{
    if let Some(position) = find_out_of_both(columns, rows, both) {
        return Err(LayoutError::OutOfTable(position));
    }
    let across = Along {
        settings,
        direction: Direction::Columns,
        count: columns,
    };
    let down = Along {
        settings,
        direction: Direction::Rows,
        count: rows,
    };
    let widths = T::solve(alloc, columns, &both.columns, &across, certify)?;
    let heights = T::solve(alloc, rows, &both.rows, &down, certify)?;
    Ok(PerDirection {
        columns: widths,
        rows: heights,
    })
}

/// What the records come to along columns and along rows.
///
/// # Errors
///
/// `OutOfTable` with the first visible cell that overflows the table along columns or rows, else
/// `TooLarge` where the sizes that are looked for along one of them come, with all lines, to more
/// than the greatest `usize`; `Memory` in place of any answer.
pub fn solve_both<T, M, R, S>(
    alloc: Global,
    records: R,
    settings: &S,
    certify: bool,
) -> LayoutResult<PerDirection<Solved>>
where
    T: Solver,
    R: Records + Drop,
    S: ConfigView,
    M: Measure<<<R as Records>::Iter as IntoRecords>::Cell>,
    <<R as Records>::Iter as IntoRecords>::Cell: Drop,
    requires { R.is_lawful records }
    ensures { UnlessMemory result (TellsRows R.tells records (λ cells.
        AnswersBoth (S.grid settings.now) M.measured (R.columns records) cells T.sizing
        (IsSolvedBy T.sizing (Certifies T.sizing) certify) result)) }
{
    let columns = records.count_columns();
    let (both, rows) = gather_both::<M, R, S>(alloc, records, settings)?;
    conclude::<T, M, _, S>(alloc, columns, rows, &both, settings, certify)
}

/// The sizes alone of what was found.
pub fn sizes_of(found: PerDirection<Solved>) -> (Vec<usize>, Vec<usize>)
    ensures { result ≡ (found.columns.sizes, found.rows.sizes) }
{
    let PerDirection { columns, rows } = found;
    (columns.sizes, rows.sizes)
}

/// What the records come to along columns and along rows, as their sizes are chosen.
///
/// # Errors
///
/// As those of `solve_both`.
pub fn solve_by<R: Records + Drop, S: ConfigView>(
    alloc: Global,
    records: R,
    settings: &S,
    sizing: Sizing,
    certify: bool,
) -> LayoutResult<PerDirection<Solved>>
where
    <<R as Records>::Iter as IntoRecords>::Cell: AsStr + Drop,
    requires { R.is_lawful records }
    ensures { UnlessMemory result (TellsRows R.tells records (λ cells.
        AnswersBoth (S.grid settings.now) (line_measure R.Iter.Cell.text)
        (R.columns records) cells sizing (IsSolvedBy sizing (Certifies sizing) certify) result)) }
{
    match sizing {
        Sizing::ByShares => solve_both::<ByShares, ByLines, _, _>(
            alloc, records, settings, certify,
        ),
        Sizing::Least => solve_both::<ByLeastTotal, ByLines, _, _>(
            alloc, records, settings, certify,
        ),
    }
}
