//! The sizes of records along both directions, by any way to choose sizes and to measure cells. Source:
//! `dimension/iterable.rs` and `dimension/peekable.rs`.

ghost use Rattle.std.specs.Prelude.{◌≡◌, []};
ghost use Rattle.papergrid_values.specs.declared.direction.Direction.TheVariants.{Columns, Rows};
ghost use Rattle.papergrid_text.specs.Records.{TellsRows};
ghost use Rattle.papergrid_tracks.specs.Sizings.{Answers, IsSized, IsTotal};
ghost use Rattle.papergrid_config.specs.Grids.{spanned_grid};
ghost use Rattle.papergrid_walk.specs.Cells.{problem_of};
ghost use Rattle.papergrid_layout.specs.Answers.{AreBothSized, UnlessMemory};

use crate::along::{sizes_along, total_along};
use crate::both::{sizes_of, solve_both};
use crate::dimension::{Dimension, Estimate};
use papergrid_config::SpannedConfig;
use papergrid_text::{IntoRecords, Records};
use papergrid_tracks::{LayoutError, SizeList, Solver, replace_sizes};
use papergrid_values::Direction;
use papergrid_walk::Measure;
use std::alloc::Global;
use std::marker::PhantomData;

/// Widths of columns and heights of rows, which `T` finds of cells that `M` measures.
///
/// The records of each call are lawful: they yield one finite list of rows, as each vector of rows does.
#[derive(Clone, Debug, PartialEq, Drop)]
pub struct GridDimension<T, M> {
    alloc: Global,
    way: PhantomData<(T, M)>,
    widths: SizeList,
    heights: SizeList,
}

impl<T: Solver, M> GridDimension<T, M> {
    /// No sizes. It does not allocate.
    pub fn new(alloc: Global) -> GridDimension<T, M>
        ensures widths { result.widths ≡ [] }
        ensures heights { result.heights ≡ [] }
    {
        GridDimension {
            alloc,
            way: PhantomData,
            widths: SizeList::new(alloc),
            heights: SizeList::new(alloc),
        }
    }

    /// The widths of the columns of the records, in columns of a terminal. Least ones: no widths with room
    /// for each visible cell have a smaller sum.
    ///
    /// # Errors
    ///
    /// `OutOfTable` with the first visible cell that overflows the table along columns, else
    /// `TooLarge` where the widths (of least ones any with room for each visible cell) and the vertical
    /// lines come to more than the greatest `usize`; `Memory` in place of any answer.
    pub fn width<R: Records + Drop>(
        alloc: Global,
        records: R,
        config: &SpannedConfig,
    ) -> Result<Vec<usize>, LayoutError>
    where
        M: Measure<<<R as Records>::Iter as IntoRecords>::Cell>,
        <<R as Records>::Iter as IntoRecords>::Cell: Drop,
        requires { R.is_lawful records }
        ensures { UnlessMemory result (TellsRows R.tells records (λ cells.
            IsSized T.sizing (problem_of (spanned_grid config.now) M.measured
            (R.columns records) cells Columns) result)) }
    {
        sizes_along::<T, M, _, _>(alloc, records, config, Direction::Columns)
    }

    /// The heights of the rows of the records, in lines. Least ones: no heights with room for each visible
    /// cell have a smaller sum.
    ///
    /// # Errors
    ///
    /// As those of `width`, along rows and with the horizontal lines.
    pub fn height<R: Records + Drop>(
        alloc: Global,
        records: R,
        config: &SpannedConfig,
    ) -> Result<Vec<usize>, LayoutError>
    where
        M: Measure<<<R as Records>::Iter as IntoRecords>::Cell>,
        <<R as Records>::Iter as IntoRecords>::Cell: Drop,
        requires { R.is_lawful records }
        ensures { UnlessMemory result (TellsRows R.tells records (λ cells.
            IsSized T.sizing (problem_of (spanned_grid config.now) M.measured
            (R.columns records) cells Rows) result)) }
    {
        sizes_along::<T, M, _, _>(alloc, records, config, Direction::Rows)
    }

    /// The width of the records' table: the sum of the widths and of the vertical lines.
    ///
    /// # Errors
    ///
    /// As those of `width`.
    pub fn width_total<R: Records + Drop>(
        alloc: Global,
        records: R,
        config: &SpannedConfig,
    ) -> Result<usize, LayoutError>
    where
        M: Measure<<<R as Records>::Iter as IntoRecords>::Cell>,
        <<R as Records>::Iter as IntoRecords>::Cell: Drop,
        requires { R.is_lawful records }
        ensures { UnlessMemory result (TellsRows R.tells records (λ cells.
            Answers T.sizing (IsTotal T.sizing) (problem_of (spanned_grid config.now)
            M.measured (R.columns records) cells Columns) result)) }
    {
        total_along::<T, M, _, _>(alloc, records, config, Direction::Columns)
    }

    /// The height of the records' table: the sum of the heights and of the horizontal lines.
    ///
    /// # Errors
    ///
    /// As those of `height`.
    pub fn height_total<R: Records + Drop>(
        alloc: Global,
        records: R,
        config: &SpannedConfig,
    ) -> Result<usize, LayoutError>
    where
        M: Measure<<<R as Records>::Iter as IntoRecords>::Cell>,
        <<R as Records>::Iter as IntoRecords>::Cell: Drop,
        requires { R.is_lawful records }
        ensures { UnlessMemory result (TellsRows R.tells records (λ cells.
            Answers T.sizing (IsTotal T.sizing) (problem_of (spanned_grid config.now)
            M.measured (R.columns records) cells Rows) result)) }
    {
        total_along::<T, M, _, _>(alloc, records, config, Direction::Rows)
    }

    /// The widths of the columns of the records, in columns of a terminal, and the heights of their
    /// rows, in lines.
    ///
    /// # Errors
    ///
    /// `OutOfTable` with the first visible cell that overflows the table along columns or rows, else
    /// `TooLarge` as for the widths or for the heights; `Memory` in place of any answer.
    pub fn dimension<R: Records + Drop>(
        alloc: Global,
        records: R,
        config: &SpannedConfig,
    ) -> Result<(Vec<usize>, Vec<usize>), LayoutError>
    where
        M: Measure<<<R as Records>::Iter as IntoRecords>::Cell>,
        <<R as Records>::Iter as IntoRecords>::Cell: Drop,
        requires { R.is_lawful records }
        ensures { UnlessMemory result (TellsRows R.tells records (λ cells.
            AreBothSized (spanned_grid config.now) M.measured (R.columns records) cells
            T.sizing result)) }
    {
        let found = solve_both::<T, M, _, _>(alloc, records, config, false)?;
        Ok(sizes_of(found))
    }

    /// The widths and the heights.
    pub fn get_values(self) -> (Vec<usize>, Vec<usize>)
        ensures widths { result.0.items ≡ self.widths }
        ensures heights { result.1.items ≡ self.heights }
    {
        let GridDimension {
            alloc: _,
            way: _,
            widths,
            heights,
        } = self;
        (widths.into_vec(), heights.into_vec())
    }
}

impl<T, M> Dimension for GridDimension<T, M> {
    ghost use Rattle.std.specs.Prelude.{◌<◌, length, slice_index};

    ghost has_column = { λ d column. column < length d.widths };

    ghost has_row = { λ d row. row < length d.heights };

    ghost width_of = { λ d column. slice_index d.widths column };

    ghost height_of = { λ d row. slice_index d.heights row };

    fn get_width(&self, column: usize) -> usize {
        self.widths.get(column)
    }

    fn get_height(&self, row: usize) -> usize {
        self.heights.get(row)
    }
}

impl<T: Solver, M, R: Records + Drop> Estimate<R, SpannedConfig> for GridDimension<T, M>
where
    M: Measure<<<R as Records>::Iter as IntoRecords>::Cell>,
    <<R as Records>::Iter as IntoRecords>::Cell: Drop,
{
    ghost use Rattle.papergrid_layout.specs.Answers.{AreBothSizes, IsBothRefused, UnlessMemoryError};

    ghost accepts = { R.is_lawful };

    ghost is_estimate = { λ d records config. TellsRows R.tells records (λ cells.
        AreBothSizes (spanned_grid config) M.measured
        (R.columns records) cells T.sizing d.widths d.heights) };

    ghost is_refused = { λ d records config error. UnlessMemoryError error
        (TellsRows R.tells records (λ cells.
        IsBothRefused (spanned_grid config) M.measured (R.columns records) cells T.sizing error)) };

    fn estimate(&mut self, records: R, config: &SpannedConfig) -> Result<(), LayoutError> {
        let found = solve_both::<T, M, _, _>(self.alloc, records, config, false);
        replace_sizes(&mut self.widths, &mut self.heights, found)
    }
}
