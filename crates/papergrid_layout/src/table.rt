//! A table as one value: a configuration with the sizes of its columns and rows.

ghost use Rattle.std.specs.Prelude.{◌≡◌, ◌≢◌, ◌+◌, ◌<◌, ◌≤◌, ◌↔◌, ◌⊎◌, ◌^◌, ◌&&◌, [], All, Err, IfErr, IfOk, IsTrue, MatchOption, MatchResult, None, length, nat_le};
ghost use Rattle.std.specs.Option.{SomeIff};
ghost use Rattle.std.specs.Result.{IsOkAnd};
ghost use Rattle.papergrid_values.specs.declared.direction.Direction.{Direction};
ghost use Rattle.papergrid_values.specs.declared.direction.Direction.TheVariants.{Columns, Rows};
ghost use Rattle.papergrid_walk.specs.Measures.{line_measure};
ghost use Rattle.papergrid_tracks.specs.declared.error.LayoutError.TheVariants.{TooLarge};
ghost use Rattle.papergrid_layout.specs.Answers.{UnlessMemory, UnlessMemoryError};
ghost use Rattle.papergrid_layout.specs.declared.rect.PlaceError.{PlaceError};
ghost use Rattle.papergrid_layout.specs.Places.{ArePlacesRefused, EndsWithin, HaveAllPlaces, IsFirstOver, IsPlaced, IsTrackAt, StandsOver, place_at, sized_table, total_along, track_count, track_line, track_size};
ghost use Rattle.papergrid_layout.specs.Tables.{IsTable, IsTableOf, line_position, view_of};
ghost use Rattle.papergrid_layout.specs.ForProofs.Placing.{AreMarks};
ghost use Rattle.papergrid_layout.specs.ForProofs.Points.{LiesInEach};
ghost use Rattle.papergrid_layout.specs.ForProofs.Tables.{IsMeasuredAlong};
ghost use Rattle.papergrid_text.specs.Records.{TellsRows};

use crate::along::count_of;
use crate::both::{sizes_of, solve_by};
use crate::cell_rects::places;
use crate::dimension::Dimension;
use crate::marks::{Marks, place_of};
use crate::rect::{Place, PlaceError};
use crate::ruler::Ruler;
use crate::spanning::{SpanningCell, first_covering, spanning_cells};
use papergrid_config::SpannedConfig;
use papergrid_maps::{Anchor, ConfigView};
use papergrid_text::{IntoRecords, Records};
use papergrid_tracks::{LayoutError, Sizing};
use papergrid_values::{Direction, PerDirection, Position};
use std::alloc::Global;
use std::convert::AsStr;
use std::marker::Model;

/// A configuration, with the widths of the columns and the heights of the rows of a table, whose totals
/// fit `usize`. It has as many columns and rows as there are widths and heights. Where its columns and rows
/// begin is kept, and so are its cells that span several of them.
pub struct Table<'a> {
    config: &'a SpannedConfig,
    sizes: PerDirection<Vec<usize>>,
    totals: PerDirection<usize>,
    marks: PerDirection<Marks>,
    spanning: Vec<SpanningCell>,
}

// By hand: docs/DECISIONS.md, "Drops".
impl Drop for Table<'_> {
    fn drop(self) {
        let Table {
            config: _,
            sizes: _,
            totals: _,
            marks: _,
            spanning: _,
        } = self;
    }
}

impl<'a> Model for Table<'a> {
    ghost use Rattle.papergrid_config.specs.contracts.spanned.SpannedConfig.{the_row};
    ghost use Rattle.papergrid_layout.specs.Tables.{TableParts, view_of};
    ghost use Rattle.papergrid_layout.specs.ForProofs.Tables.{IsMeasured, parts_code};

    ghost Value = { TableParts };

    ghost coded = { parts_code the_row.coded };

    ghost view = { λ t. record {
      config = t.config.now;
      widths = t.sizes.columns.items;
      heights = t.sizes.rows.items;
    } };

    ghost invariant = { λ t. IsMeasured (view_of (record {
      config = t.config.now;
      widths = t.sizes.columns.items;
      heights = t.sizes.rows.items;
    }))
        t.totals.columns t.totals.rows t.marks.columns t.marks.rows t.spanning.items };
}

impl<'a> Table<'a> {
    /// The table of the records by a configuration: its widths are in columns of a terminal, its heights in
    /// lines. Takes time that grows with the cells and the spans, and some numbers for each column, row and span.
    ///
    /// Condition: the records are lawful: they yield one finite list of rows, as each vector of rows does.
    ///
    /// # Errors
    ///
    /// `OutOfTable` with the first visible cell that overflows the table, else `TooLarge` where the
    /// sizes that are chosen so come, with all lines, to more than the greatest `usize`; `Memory`
    /// in place of any answer.
    pub fn new<R: Records + Drop>(
        alloc: Global,
        config: &'a SpannedConfig,
        records: R,
        sizing: Sizing,
    ) -> Result<Table<'a>, LayoutError>
    where
        <<R as Records>::Iter as IntoRecords>::Cell: AsStr + Drop,
        requires { R.is_lawful records }
        ensures { UnlessMemory result (TellsRows R.tells records (λ cells.
            IsTableOf config.now (line_measure R.Iter.Cell.text)
            (R.columns records) cells sizing result)) }
    {
        let found = solve_by(alloc, records, config, sizing, false)?;
        let (widths, heights) = sizes_of(found);
        Table::from_sizes(alloc, config, widths, heights)
    }

    /// The table of these widths and heights, of any estimate or one's own.
    ///
    /// # Errors
    ///
    /// `TooLarge` where the widths with the vertical lines, or the heights with the horizontal lines, come
    /// to more than the greatest `usize`; `Memory` in place of any answer.
    pub fn from_sizes(
        alloc: Global,
        config: &'a SpannedConfig,
        widths: Vec<usize>,
        heights: Vec<usize>,
    ) -> Result<Table<'a>, LayoutError>
        ensures { IsTable (record {
          config = config.now;
          widths = widths.items;
          heights = heights.items;
        }) result }
    {
        let sizes = PerDirection {
            columns: widths,
            rows: heights,
        };
        let (width, wide) = measured(alloc, config, &sizes, Direction::Columns)?;
        let (height, high) = measured(alloc, config, &sizes, Direction::Rows)?;
        let marks = PerDirection {
            columns: wide,
            rows: high,
        };
        let spanning = spanning_cells(alloc, config, &marks)?;
        Ok(Table {
            config,
            sizes,
            totals: PerDirection {
                columns: width,
                rows: height,
            },
            marks,
            spanning,
        })
    }

    /// The numbers of its rows and of its columns.
    pub fn shape(&self) -> (usize, usize)
        ensures { result ≡ (length self.now.heights, length self.now.widths) }
    {
        (self.sizes.rows.len(), self.sizes.columns.len())
    }

    /// Its width with its vertical lines, in columns of a terminal.
    pub fn width(&self) -> usize
        ensures { result ≡ total_along (view_of self.now) Columns }
    {
        self.totals.columns
    }

    /// Its height with its horizontal lines, in lines.
    pub fn height(&self) -> usize
        ensures { result ≡ total_along (view_of self.now) Rows }
    {
        self.totals.rows
    }

    /// The configuration.
    pub fn config(&self) -> &'a SpannedConfig
        ensures { result.now ≡ self.now.config }
    {
        self.config
    }

    /// The screen rectangle of the cell at a position by its spans, if it ends within the table, whether the
    /// position is visible or not.
    pub fn rectangle(&self, position: Position) -> Option<Place>
        ensures { let table = view_of self.now in SomeIff result
            ((position.col + table.grid.span Columns position ≤ table.shape.1)
            × (position.row + table.grid.span Rows position ≤ table.shape.0))
            (place_at table position) }
    {
        let anchor = Anchor {
            position,
            rows: self.config.span(Direction::Rows, position),
            cols: self.config.span(Direction::Columns, position),
        };
        place_of(&self.marks, anchor)
    }

    /// The screen rectangle of the cell at a position.
    ///
    /// # Errors
    ///
    /// `Hidden` where the position is hidden, else `OutOfTable` where its range ends past the last column
    /// or the last row, and no other one.
    pub fn place(&self, position: Position) -> Result<Place, PlaceError>
        ensures exact { IsPlaced (view_of self.now) position result }
        ensures never_large { result ≢ Err PlaceError.TooLarge }
        ensures within { IfOk result (EndsWithin (view_of self.now)) }
    {
        if !self.config.is_visible(position) {
            return Err(PlaceError::Hidden);
        }
        self.rectangle(position).ok_or(PlaceError::OutOfTable)
    }

    /// All visible cells with their screen rectangles, by row and then by column.
    ///
    /// # Errors
    ///
    /// `OutOfTable` with the first visible cell that overflows the table; `Memory` in place of any
    /// answer, but for a table without rows or columns: that is never refused.
    pub fn places(&self, alloc: Global) -> Result<Vec<(Position, Place)>, LayoutError>
        ensures ok { IfOk result (λ places. HaveAllPlaces (view_of self.now) places.items) }
        ensures err { IfErr result (ArePlacesRefused (view_of self.now)) }
        ensures never_large { IfErr result (λ e. e ≢ TooLarge) }
        ensures within { IfOk result (λ places.
            All (λ x. EndsWithin (view_of self.now) x.1) places.items) }
        ensures empty { (self.now.heights ≡ []) ⊎ (self.now.widths ≡ []) →
            IsOkAnd result (λ places. places.items ≡ []) }
    {
        places(alloc, self, self.config, self.shape())
    }

    /// Whether the cell at a position stands over a column of the terminal in a line.
    fn stands_over(&self, position: Position, column: usize, line: usize) -> bool
        ensures { IsTrue result ↔ StandsOver (view_of self.now) column line position }
    {
        match self.place(position) {
            Ok(place) => place.covers(column, line),
            Err(_) => false,
        }
    }

    /// The column and the row around a point: the rectangle of each cell that stands over it has them.
    fn position_around(&self, column: usize, line: usize) -> Option<Position>
        ensures { let table = view_of self.now in
            MatchOption result (IsFirstOver table column line None)
            (LiesInEach table column line) }
    {
        if column >= self.totals.columns || line >= self.totals.rows {
            return None;
        }
        Some(Position {
            row: self.marks.rows.track_before(line)?,
            col: self.marks.columns.track_before(column)?,
        })
    }

    /// The position of the cell at a column of the terminal in a line, both counted from the left
    /// edge and the top of the table: that of the first cell, by row and then by column, whose
    /// screen rectangle covers the point. None on a line of the table over which no such screen
    /// rectangle goes, and outside of the table. It does not allocate, and takes time that grows
    /// with the logarithms of the rows and columns, at a hidden position with the spans.
    pub fn cell_at(&self, column: usize, line: usize) -> Option<Position>
        ensures { IsFirstOver (view_of self.now) column line result }
    {
        let within = self.position_around(column, line)?;
        if self.config.is_visible(within) {
            return self.stands_over(within, column, line).then_some(within);
        }
        first_covering(&self.spanning, within.row, column, line)
    }

    /// The column of the table that a column of the terminal is in. None on a vertical line, and outside of
    /// the table.
    pub fn column_at(&self, column: usize) -> Option<usize>
        ensures { let table = view_of self.now in
            IsTrackAt (track_size table Columns) (track_line table Columns)
            (track_count table Columns) column result }
    {
        self.track_at(Direction::Columns, column)
    }

    /// The row of the table that a line is in. None on a horizontal line, and outside of the table.
    pub fn row_at(&self, line: usize) -> Option<usize>
        ensures { let table = view_of self.now in
            IsTrackAt (track_size table Rows) (track_line table Rows)
            (track_count table Rows) line result }
    {
        self.track_at(Direction::Rows, line)
    }

    /// The column of the terminal in which the vertical line before a column stands, or, at their count, that
    /// after the last. None where no line is drawn there.
    pub fn vertical_at(&self, index: usize) -> Option<usize>
        ensures { result ≡ line_position (view_of self.now) Columns index }
    {
        self.line_at(Direction::Columns, index)
    }

    /// The line of the table that is the horizontal line before a row, or, at their count, that after the
    /// last. None where no line is drawn there.
    pub fn horizontal_at(&self, index: usize) -> Option<usize>
        ensures { result ≡ line_position (view_of self.now) Rows index }
    {
        self.line_at(Direction::Rows, index)
    }

    /// Where the tracks of a direction begin and end, and the total.
    fn marks_along(&self, direction: Direction) -> (&Marks, usize)
        ensures marks { let table = view_of self.now in
            AreMarks (track_size table direction) (track_line table direction)
            (track_count table direction) result.0.now }
        ensures total { result.1 ≡ total_along (view_of self.now) direction }
    {
        match direction {
            Direction::Columns => (&self.marks.columns, self.totals.columns),
            Direction::Rows => (&self.marks.rows, self.totals.rows),
        }
    }

    /// The track of a direction that covers a point along it.
    fn track_at(&self, direction: Direction, point: usize) -> Option<usize>
        ensures { let table = view_of self.now in
            IsTrackAt (track_size table direction) (track_line table direction)
            (track_count table direction) point result }
    {
        let (marks, total) = self.marks_along(direction);
        if point >= total {
            return None;
        }
        marks.track_at(point)
    }

    /// Where the line before a track stands, or, at their count, that after the last, if it is drawn.
    fn line_at(&self, direction: Direction, index: usize) -> Option<usize>
        ensures { result ≡ line_position (view_of self.now) direction index }
    {
        if !self.has_line(direction, index) {
            return None;
        }
        let (marks, total) = self.marks_along(direction);
        Some(marks.begin(index, total) - 1)
    }

    /// Whether there is a line before track `index`, or, at their count, after the last.
    fn has_line(&self, direction: Direction, index: usize) -> bool
        ensures { let table = view_of self.now in
            result ≡ nat_le index (track_count table direction)
            && track_line table direction index }
    {
        let count = count_of(direction, self.sizes.columns.len(), self.sizes.rows.len());
        index <= count && self.config.has_line(direction, count, index)
    }
}

impl<'a> Dimension for Table<'a> {
    ghost use Rattle.std.specs.Prelude.{◌<◌, length, slice_index};

    ghost has_column = { λ t column. column < length t.widths };

    ghost has_row = { λ t row. row < length t.heights };

    ghost width_of = { λ t column. slice_index t.widths column };

    ghost height_of = { λ t row. slice_index t.heights row };

    fn get_width(&self, column: usize) -> usize {
        self.sizes.columns[column]
    }

    fn get_height(&self, row: usize) -> usize {
        self.sizes.rows[row]
    }
}

/// The total along a direction of the table of these sizes, and where its tracks begin and end.
///
/// # Errors
///
/// `TooLarge` where the total is past the greatest `usize`; `Memory` in place of any answer.
fn measured<S: ConfigView>(
    alloc: Global,
    settings: &S,
    sizes: &PerDirection<Vec<usize>>,
    direction: Direction,
) -> Result<(usize, Marks), LayoutError>
    ensures { let wide = sizes.now.columns.items in
        let high = sizes.now.rows.items in
        let table = sized_table (S.grid settings.now) wide high (length high, length wide) in
        MatchResult result (IsMeasuredAlong table direction)
        (λ e. UnlessMemoryError e ((e ≡ TooLarge) × (2 ^ 64 ≤ total_along table direction))) }
{
    let count = count_of(direction, sizes.columns.len(), sizes.rows.len());
    let ruler = Ruler {
        dimension: sizes,
        settings,
        direction,
        count,
    };
    let Some(total) = ruler.total() else {
        return Err(LayoutError::TooLarge);
    };
    Ok((total, ruler.marks(alloc)?))
}

impl Dimension for PerDirection<Vec<usize>> {
    ghost use Rattle.std.specs.Prelude.{◌<◌, length, slice_index};

    ghost has_column = { λ d column. column < length d.columns.items };

    ghost has_row = { λ d row. row < length d.rows.items };

    ghost width_of = { λ d column. slice_index d.columns.items column };

    ghost height_of = { λ d row. slice_index d.rows.items row };

    fn get_width(&self, column: usize) -> usize {
        self.columns[column]
    }

    fn get_height(&self, row: usize) -> usize {
        self.rows[row]
    }
}
