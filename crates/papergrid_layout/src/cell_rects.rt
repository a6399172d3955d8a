//! The screen rectangles of all visible cells.

ghost use Rattle.std.specs.Prelude.{◌≡◌, ◌+◌, ◌-◌, ◌<◌, ◌^◌, ◌⊎◌, [], All, IfErr, IfOk};
ghost use Rattle.std.specs.Result.{IsOkAnd};
ghost use Rattle.papergrid_values.specs.declared.direction.Direction.{Direction};
ghost use Rattle.papergrid_layout.specs.Places.{ArePlacesRefused, EndsWithin, HaveAllPlaces, TableView, table_by, table_view_of, total_along};
ghost use Rattle.papergrid_layout.specs.ForProofs.Placing.{HasPlaced};
ghost use Rattle.papergrid_layout.specs.Tables.{HasSizes};

use crate::cell_rect::place;
use crate::dimension::Dimension;
use crate::marks::{Marks, place_of};
use crate::rect::{Place, PlaceError};
use crate::ruler::Ruler;
use papergrid_config::SpannedConfig;
use papergrid_maps::ConfigView;
use papergrid_tracks::LayoutError;
use papergrid_values::{Direction, PerDirection, Position};
use papergrid_walk::Sweep;
use papergrid_walk::shown::{sweep_of, visible_anchor};
use std::alloc::{AllocError, Global};

/// A walk over the positions of a table, by row and then by column, and the visible ones that it
/// met, with their screen rectangles.
#[derive(Drop)]
struct Placing {
    marks: PerDirection<Marks>,
    sweep: Sweep,
    places: Vec<(Position, Place)>,
}

impl Placing {
    /// Before the first position of a table whose totals fit.
    fn new<D: Dimension, S: ConfigView>(
        alloc: Global,
        dimension: &D,
        settings: &S,
        shape: (usize, usize),
    ) -> Result<Placing, AllocError>
        requires columns { HasSizes (D.has_column dimension.now) shape.1 }
        requires rows { HasSizes (D.has_row dimension.now) shape.0 }
        requires fit { let table = table_view_of (S.grid settings.now) (D.width_of dimension.now)
            (D.height_of dimension.now) shape in
            (direction : Direction) → total_along table direction < 2 ^ 64 }
        ensures { let table = table_view_of (S.grid settings.now) (D.width_of dimension.now)
            (D.height_of dimension.now) shape in
            IfOk result (HasPlaced table 0 0) }
    {
        let (rows, columns) = shape;
        let across = Ruler {
            dimension,
            settings,
            direction: Direction::Columns,
            count: columns,
        };
        let down = Ruler {
            dimension,
            settings,
            direction: Direction::Rows,
            count: rows,
        };
        Ok(Placing {
            marks: PerDirection {
                columns: across.marks(alloc)?,
                rows: down.marks(alloc)?,
            },
            sweep: sweep_of(alloc, settings)?,
            places: Vec::new(alloc),
        })
    }

    /// Adds the position to those that it met, if that is visible.
    fn visit(&mut self, alloc: Global, position: Position) -> Result<(), LayoutError>
        requires placed { (table : TableView) × HasPlaced table position.row position.col self.old }
        requires row_in { position.row < 2 ^ 64 - 1 }
        requires col_in { position.col < 2 ^ 64 - 1 }
        ensures ok { IfOk result (λ _. (table : TableView) →
            HasPlaced table position.row position.col self.old →
            HasPlaced table position.row (position.col + 1) self.new) }
        ensures err { IfErr result (λ error. (table : TableView) →
            position.row < table.shape.0 → position.col < table.shape.1 →
            HasPlaced table position.row position.col self.old → ArePlacesRefused table error) }
    {
        let Some(anchor) = visible_anchor(&mut self.sweep, alloc, position)? else {
            return Ok(());
        };
        let Some(place) = place_of(&self.marks, anchor) else {
            return Err(LayoutError::OutOfTable(position));
        };
        match self.places.push((position, place)) {
            Ok(()) => Ok(()),
            Err(refused) => Err(AllocError::from(refused).into()),
        }
    }

    /// Visits the positions of a row.
    fn visit_row(&mut self, alloc: Global, row: usize, columns: usize) -> Result<(), LayoutError>
        requires placed { (table : TableView) × HasPlaced table row 0 self.old }
        requires row_in { row < 2 ^ 64 - 1 }
        ensures ok { IfOk result (λ _. (table : TableView) → columns ≡ table.shape.1 →
            HasPlaced table row 0 self.old → HasPlaced table (row + 1) 0 self.new) }
        ensures err { IfErr result (λ error. (table : TableView) → row < table.shape.0 →
            columns ≡ table.shape.1 → HasPlaced table row 0 self.old →
            ArePlacesRefused table error) }
    {
        for col in 0..columns {
            self.visit(alloc, Position { row, col })?;
        }
        Ok(())
    }

    /// What it meets in all rows of a table of the shape (rows, columns).
    fn visit_rows(
        mut self,
        alloc: Global,
        shape: (usize, usize),
    ) -> Result<Vec<(Position, Place)>, LayoutError>
        requires placed { (table : TableView) × (shape ≡ table.shape) × HasPlaced table 0 0 self }
        ensures ok { IfOk result (λ places. (table : TableView) → shape ≡ table.shape →
            HasPlaced table 0 0 self → HaveAllPlaces table places.items) }
        ensures err { IfErr result (λ error. (table : TableView) → shape ≡ table.shape →
            HasPlaced table 0 0 self → ArePlacesRefused table error) }
    {
        let (rows, columns) = shape;
        for row in 0..rows {
            self.visit_row(alloc, row, columns)?;
        }
        Ok(self.places)
    }
}

/// All visible cells of a table of the shape (rows, columns) with their screen rectangles, by row
/// and then by column. It takes time that grows with the rows, the columns, the cells and the
/// spans, and memory for the screen rectangles and for a few numbers for each row, column and span.
///
/// Condition: the dimension has a width for each of the columns and a height for each of the rows.
///
/// # Errors
///
/// That of the first visible cell, by row and then by column, which `place` refuses: `OutOfTable` with its
/// position, or `TooLarge`. `Memory` in place of any answer, but for a table without rows or columns: that is
/// never refused.
pub fn places<D: Dimension>(
    alloc: Global,
    dimension: &D,
    config: &SpannedConfig,
    shape: (usize, usize),
) -> Result<Vec<(Position, Place)>, LayoutError>
    requires columns { HasSizes (D.has_column dimension.now) shape.1 }
    requires rows { HasSizes (D.has_row dimension.now) shape.0 }
    ensures ok { let table = table_by config.now (D.width_of dimension.now)
        (D.height_of dimension.now) shape in
        IfOk result (λ places. HaveAllPlaces table places.items) }
    ensures err { let table = table_by config.now (D.width_of dimension.now)
        (D.height_of dimension.now) shape in
        IfErr result (ArePlacesRefused table) }
    ensures within { let table = table_by config.now (D.width_of dimension.now)
        (D.height_of dimension.now) shape in
        IfOk result (λ places. All (λ x. EndsWithin table x.1) places.items) }
    ensures empty { (shape.0 ≡ 0) ⊎ (shape.1 ≡ 0) → IsOkAnd result (λ places. places.items ≡ []) }
{
    let (rows, columns) = shape;
    if rows == 0 || columns == 0 {
        return Ok(Vec::new(alloc));
    }
    // The totals are those of all screen rectangles, so where they are too large the first
    // cell decides.
    let first = Position { row: 0, col: 0 };
    match place(dimension, config, shape, first) {
        Ok(_) => {}
        Err(PlaceError::OutOfTable) => return Err(LayoutError::OutOfTable(first)),
        Err(PlaceError::TooLarge) => return Err(LayoutError::TooLarge),
        // No position stands above or left of the first one.
        Err(PlaceError::Hidden) => unreachable!(),
    }
    let placing = Placing::new(alloc, dimension, config, shape)?;
    placing.visit_rows(alloc, shape)
}
