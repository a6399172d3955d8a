//! The cells of a table that span several columns or rows, found by a point.

ghost use Rattle.std.specs.Prelude.{◌≡◌, ◌+◌, ◌<◌, ◌^◌, IfOk, nat_le};
ghost use Rattle.papergrid_values.specs.declared.direction.Direction.{Direction};
ghost use Rattle.papergrid_walk.specs.ForProofs.Shown.{Shows};
ghost use Rattle.papergrid_layout.specs.Places.{TableView, total_along};
ghost use Rattle.papergrid_layout.specs.ForProofs.Placing.{AreMarked};
ghost use Rattle.papergrid_layout.specs.ForProofs.Spanning.{AreSpanning, CoverInRow, HaveAllSpanning, IsFirstCovering, IsSpannedStep};

use crate::marks::{Marks, place_of};
use crate::rect::Place;
use papergrid_maps::ConfigView;
use papergrid_values::{PerDirection, Position};
use papergrid_walk::Sweep;
use papergrid_walk::shown::{sweep_of, visible_anchor};
use std::alloc::{AllocError, Global};

/// A cell over several columns or rows, its screen rectangle, and the first row that neither it nor
/// a cell before it spans.
#[derive(Clone, Copy)]
pub struct SpanningCell {
    pub position: Position,
    pub place: Place,
    pub reach: usize,
}

/// A walk over the anchors of a table, and the cells that it found.
#[derive(Drop)]
pub struct Spanning {
    pub sweep: Sweep,
    pub reach: usize,
    pub cells: Vec<SpanningCell>,
}

impl Spanning {
    /// Adds the cell at a position, if it is visible and lies in the table.
    fn visit(
        &mut self,
        alloc: Global,
        marks: &PerDirection<Marks>,
        position: Position,
    ) -> Result<(), AllocError>
        requires { (table : TableView) × AreMarked table marks.now.columns marks.now.rows
            × ((direction : Direction) → total_along table direction < 2 ^ 64)
            × Shows table.grid self.old.sweep position.row position.col }
        ensures step { IfOk result (λ _. (table : TableView) →
            AreMarked table marks.now.columns marks.now.rows →
            Shows table.grid self.old.sweep position.row position.col →
            IsSpannedStep table position self.old self.new) }
        ensures later { IfOk result (λ _. (table : TableView) →
            Shows table.grid self.old.sweep position.row position.col →
            Shows table.grid self.new.sweep position.row (position.col + 1)) }
    {
        if position.row >= marks.rows.begins.len() || position.col >= marks.columns.begins.len() {
            return Ok(());
        }
        let Some(anchor) = visible_anchor(&mut self.sweep, alloc, position)? else {
            return Ok(());
        };
        let Some(place) = place_of(marks, anchor) else {
            return Ok(());
        };
        let end = position.row + anchor.rows;
        if self.reach < end {
            self.reach = end;
        }
        let reach = self.reach;
        self.cells.push(SpanningCell {
            position,
            place,
            reach,
        })?;
        Ok(())
    }
}

/// The cells of a table whose totals fit that span several columns or rows, by row and then by column.
pub fn spanning_cells<S: ConfigView>(
    alloc: Global,
    settings: &S,
    marks: &PerDirection<Marks>,
) -> Result<Vec<SpanningCell>, AllocError>
    requires { (table : TableView) × (table.grid ≡ S.grid settings.now)
        × AreMarked table marks.now.columns marks.now.rows
        × ((direction : Direction) → total_along table direction < 2 ^ 64) }
    ensures { IfOk result (λ cells. (table : TableView) → table.grid ≡ S.grid settings.now →
        AreMarked table marks.now.columns marks.now.rows →
        ((direction : Direction) → total_along table direction < 2 ^ 64) →
        HaveAllSpanning table cells.items) }
{
    let anchors = settings.anchors(alloc)?;
    let mut found = Spanning {
        sweep: sweep_of(alloc, settings)?,
        reach: 0,
        cells: Vec::new(alloc),
    };
    for i in 0..anchors.len() {
        found.visit(alloc, marks, anchors[i].position)?;
    }
    Ok(found.cells)
}

/// The first of the cells that covers a column of the terminal in a line, where only cells that span the
/// row do. Those that end above the row are passed by binary search.
pub fn first_covering(
    cells: &[SpanningCell],
    row: usize,
    column: usize,
    line: usize,
) -> Option<Position>
    requires { (table : TableView) × AreSpanning table cells.now
        × CoverInRow table row column line cells.now }
    ensures { IsFirstCovering column line cells.now result }
{
    let first = cells.partition_point(
        |cell: &SpanningCell| -> bool
            ensures { result ≡ nat_le cell.now.reach row }
        { cell.reach <= row },
    );
    for i in first..cells.len() {
        let cell = &cells[i];
        if cell.position.row > row {
            return None;
        }
        if cell.place.covers(column, line) {
            return Some(cell.position);
        }
    }
    None
}
