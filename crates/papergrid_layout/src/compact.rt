//! The sizes of records whose cells are all visible, alike and in one row and column each. Source:
//! `dimension/compact.rs`.

ghost use Rattle.std.specs.Prelude.{◌≡◌, []};
ghost use Rattle.papergrid_values.specs.declared.direction.Direction.TheVariants.{Columns, Rows};
ghost use Rattle.papergrid_maps.specs.Grids.{compact_grid};
ghost use Rattle.papergrid_walk.specs.Measures.{std_line_measure};
ghost use Rattle.papergrid_tracks.specs.declared.sizing.Sizing.TheVariants as sizings;
ghost use Rattle.papergrid_walk.specs.Cells.{problem_of};
ghost use Rattle.papergrid_layout.specs.Answers.{AreBothSized, UnlessMemory};
ghost use Rattle.papergrid_tracks.specs.Sizings.{IsSized};
ghost use Rattle.papergrid_text.specs.Records.{TellsRows};

use crate::along::sizes_along;
use crate::both::{sizes_of, solve_both};
use crate::dimension::{Dimension, Estimate};
use papergrid_config::CompactConfig;
use papergrid_text::{IntoRecords, Records};
use papergrid_tracks::{ByShares, LayoutError, SizeList};
use papergrid_values::Direction;
use papergrid_walk::measure::ByStdLines;
use std::alloc::Global;
use std::convert::AsStr;

/// Widths of columns. A cell is as wide as the widest of std's lines of its text, and as high as there
/// are lines between newlines. No lines of a table are counted.
#[derive(Clone, Debug, PartialEq, Drop)]
pub struct CompactGridDimension {
    alloc: Global,
    widths: SizeList,
}

impl CompactGridDimension {
    /// No sizes. It does not allocate.
    pub fn new(alloc: Global) -> CompactGridDimension
        ensures { result.widths ≡ [] }
    {
        CompactGridDimension {
            alloc,
            widths: SizeList::new(alloc),
        }
    }

    /// The widths of the columns of the records, in columns of a terminal.
    ///
    /// Condition: the records are lawful: they yield one finite list of rows, as each vector of
    /// rows does.
    ///
    /// # Errors
    ///
    /// `OutOfTable` with the first cell past the last column, else `TooLarge` where the widths come to
    /// more than the greatest `usize`; `Memory` in place of any answer.
    pub fn width<R: Records + Drop>(
        alloc: Global,
        records: R,
        config: &CompactConfig,
    ) -> Result<Vec<usize>, LayoutError>
    where
        <<R as Records>::Iter as IntoRecords>::Cell: AsStr + Drop,
        requires { R.is_lawful records }
        ensures { UnlessMemory result (TellsRows R.tells records (λ cells.
            IsSized sizings.ByShares
            (problem_of (compact_grid config.now) (std_line_measure R.Iter.Cell.text)
            (R.columns records) cells Columns) result)) }
    {
        sizes_along::<ByShares, ByStdLines, _, _>(alloc, records, config, Direction::Columns)
    }

    /// The heights of the rows of the records, in lines.
    ///
    /// Condition: the records are lawful: they yield one finite list of rows, as each vector of
    /// rows does.
    ///
    /// # Errors
    ///
    /// `TooLarge` where the heights come to more than the greatest `usize`; `Memory` in place of any
    /// answer.
    pub fn height<R: Records + Drop>(
        alloc: Global,
        records: R,
        config: &CompactConfig,
    ) -> Result<Vec<usize>, LayoutError>
    where
        <<R as Records>::Iter as IntoRecords>::Cell: AsStr + Drop,
        requires { R.is_lawful records }
        ensures { UnlessMemory result (TellsRows R.tells records (λ cells.
            IsSized sizings.ByShares
            (problem_of (compact_grid config.now) (std_line_measure R.Iter.Cell.text)
            (R.columns records) cells Rows) result)) }
    {
        sizes_along::<ByShares, ByStdLines, _, _>(alloc, records, config, Direction::Rows)
    }

    /// The widths of the columns of the records, in columns of a terminal, and the heights of their
    /// rows, in lines.
    ///
    /// Condition: the records are lawful: they yield one finite list of rows, as each vector of
    /// rows does.
    ///
    /// # Errors
    ///
    /// `OutOfTable` with the first cell past the last column, else `TooLarge` where the widths, or the
    /// heights, come to more than the greatest `usize`; `Memory` in place of any answer.
    pub fn dimension<R: Records + Drop>(
        alloc: Global,
        records: R,
        config: &CompactConfig,
    ) -> Result<(Vec<usize>, Vec<usize>), LayoutError>
    where
        <<R as Records>::Iter as IntoRecords>::Cell: AsStr + Drop,
        requires { R.is_lawful records }
        ensures { UnlessMemory result (TellsRows R.tells records (λ cells.
            AreBothSized (compact_grid config.now) (std_line_measure R.Iter.Cell.text)
            (R.columns records) cells sizings.ByShares result)) }
    {
        let found = solve_both::<ByShares, ByStdLines, _, _>(alloc, records, config, false)?;
        Ok(sizes_of(found))
    }
}

// Each row is taken for one line high.
impl Dimension for CompactGridDimension {
    ghost use Rattle.std.specs.Prelude.{◌<◌, ⊤, length, slice_index};

    ghost has_column = { λ d column. column < length d.widths };

    ghost has_row = { λ _ _. ⊤ };

    ghost width_of = { λ d column. slice_index d.widths column };

    ghost height_of = { λ _ _. 1 };

    fn get_width(&self, column: usize) -> usize {
        self.widths.get(column)
    }

    fn get_height(&self, _row: usize) -> usize {
        let _dimension = self;
        1
    }
}

// Columns alone are looked at.
impl<R: Records + Drop> Estimate<R, CompactConfig> for CompactGridDimension
where
    <<R as Records>::Iter as IntoRecords>::Cell: AsStr + Drop,
{
    ghost use Rattle.papergrid_values.specs.declared.direction.Direction.TheVariants.{Columns};
    ghost use Rattle.papergrid_maps.specs.Grids.{compact_grid};
    ghost use Rattle.papergrid_text.specs.Records.{TellsRows};
    ghost use Rattle.papergrid_walk.specs.Measures.{std_line_measure};
    ghost use Rattle.papergrid_walk.specs.Cells.{problem_of};
    ghost use Rattle.papergrid_layout.specs.Answers.{UnlessMemoryError};
    ghost use Rattle.papergrid_tracks.specs.Sizings.{AreSizesBy, IsRefused};
    ghost use Rattle.papergrid_tracks.specs.declared.sizing.Sizing.TheVariants as sizings;

    ghost accepts = { R.is_lawful };

    ghost is_estimate = { λ d records config. TellsRows R.tells records (λ cells.
        AreSizesBy sizings.ByShares
        (problem_of (compact_grid config) (std_line_measure R.Iter.Cell.text)
        (R.columns records) cells Columns) d.widths) };

    ghost is_refused = { λ _ records config error. UnlessMemoryError error
        (TellsRows R.tells records (λ cells.
        IsRefused sizings.ByShares (problem_of (compact_grid config)
        (std_line_measure R.Iter.Cell.text)
        (R.columns records) cells Columns) error)) };

    fn estimate(&mut self, records: R, config: &CompactConfig) -> Result<(), LayoutError> {
        let widths = CompactGridDimension::width(self.alloc, records, config)?;
        self.widths = SizeList::of(widths);
        Ok(())
    }
}
