//! What is found along one direction.

ghost use Rattle.std.specs.Prelude.{◌≡◌};
ghost use Rattle.papergrid_tracks.specs.Sizings.{Answers, Certifies, IsSized, IsSolvedBy, IsTotal};
ghost use Rattle.papergrid_walk.specs.Cells.{count_along, problem_of};
ghost use Rattle.papergrid_layout.specs.Answers.{UnlessMemory};
ghost use Rattle.papergrid_text.specs.Records.{TellsRows};

use papergrid_maps::ConfigView;
use papergrid_text::{IntoRecords, Records};
use papergrid_tracks::{Axis, LayoutError, Solved, Solver};
use papergrid_values::{Direction, Position};
use papergrid_walk::{Measure, gather};
use std::alloc::Global;

/// Settings along one direction of a table with so many tracks.
#[derive(Drop)]
pub struct Along<'a, S> {
    pub settings: &'a S,
    pub direction: Direction,
    pub count: usize,
}

impl<'a, S: ConfigView> Axis for Along<'a, S> {
    ghost span_of = { λ s p. (S.grid s.settings.now).span s.direction p };

    ghost line = { λ s i. (S.grid s.settings.now).draws s.direction s.count i };

    fn span(&self, position: Position) -> usize {
        self.settings.span(self.direction, position)
    }

    fn has_line(&self, i: usize) -> bool {
        self.settings.has_line(self.direction, self.count, i)
    }
}

/// The number of columns, or of rows.
pub fn count_of(direction: Direction, columns: usize, rows: usize) -> usize
    ensures { result ≡ count_along direction columns rows }
{
    match direction {
        Direction::Columns => columns,
        Direction::Rows => rows,
    }
}

/// What the records come to along a direction.
///
/// # Errors
///
/// `OutOfTable` with the first visible cell that overflows the table, else `TooLarge` where the
/// sizes that are looked for come, with all lines, to more than the greatest `usize`; `Memory` in
/// place of any answer.
pub fn solve_along<T: Solver, M, R: Records + Drop, S: ConfigView>(
    alloc: Global,
    records: R,
    settings: &S,
    direction: Direction,
    certify: bool,
) -> Result<Solved, LayoutError>
where
    M: Measure<<<R as Records>::Iter as IntoRecords>::Cell>,
    <<R as Records>::Iter as IntoRecords>::Cell: Drop,
    requires { R.is_lawful records }
    ensures { UnlessMemory result (TellsRows R.tells records (λ cells.
        Answers T.sizing (IsSolvedBy T.sizing (Certifies T.sizing) certify)
        (problem_of (S.grid settings.now) M.measured
        (R.columns records) cells direction) result)) }
{
    let columns = records.count_columns();
    let (kept, rows) = gather::<M, R, S>(alloc, records, settings, direction)?;
    let count = count_of(direction, columns, rows);
    let axis = Along {
        settings,
        direction,
        count,
    };
    T::solve(alloc, count, &kept, &axis, certify)
}

/// The sizes of the records along a direction.
///
/// # Errors
///
/// As those of `solve_along`.
pub fn sizes_along<T: Solver, M, R: Records + Drop, S: ConfigView>(
    alloc: Global,
    records: R,
    settings: &S,
    direction: Direction,
) -> Result<Vec<usize>, LayoutError>
where
    M: Measure<<<R as Records>::Iter as IntoRecords>::Cell>,
    <<R as Records>::Iter as IntoRecords>::Cell: Drop,
    requires { R.is_lawful records }
    ensures { UnlessMemory result (TellsRows R.tells records (λ cells. IsSized T.sizing
        (problem_of (S.grid settings.now) M.measured
        (R.columns records) cells direction) result)) }
{
    let found = solve_along::<T, M, R, S>(alloc, records, settings, direction, false)?;
    Ok(found.sizes)
}

/// Their sum, with the lines.
///
/// # Errors
///
/// As those of `solve_along`.
pub fn total_along<T: Solver, M, R: Records + Drop, S: ConfigView>(
    alloc: Global,
    records: R,
    settings: &S,
    direction: Direction,
) -> Result<usize, LayoutError>
where
    M: Measure<<<R as Records>::Iter as IntoRecords>::Cell>,
    <<R as Records>::Iter as IntoRecords>::Cell: Drop,
    requires { R.is_lawful records }
    ensures { UnlessMemory result (TellsRows R.tells records (λ cells.
        Answers T.sizing (IsTotal T.sizing)
        (problem_of (S.grid settings.now) M.measured
        (R.columns records) cells direction) result)) }
{
    let found = solve_along::<T, M, R, S>(alloc, records, settings, direction, false)?;
    Ok(found.total)
}
