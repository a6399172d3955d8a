//! Whether the visible cells tile a table.

ghost use Rattle.std.specs.Prelude.{◌≡◌, ◌+◌, ◌-◌, ◌<◌, ◌≤◌, ◌^◌, ◌⊎◌, ◌↔◌, IfErr, IfNone, IfOk, IfSome, IsTrue, OnOk, length, slice_index};
ghost use Rattle.papergrid_maps.specs.Anchors.{IsSorted};
ghost use Rattle.papergrid_maps.specs.Grids.{Grid};
ghost use Rattle.papergrid_maps.specs.Hidden.{AreAnchorsOf};
ghost use Rattle.papergrid_config.specs.Grids.{spanned_grid};
ghost use Rattle.papergrid_walk.specs.ForProofs.Shown.{Shows, anchor_in};
ghost use Rattle.papergrid_layout.specs.Places.{TableView};
ghost use Rattle.papergrid_draw.specs.Tiles.{AreWithin, IsTablePosition, IsTileFault, IsTiled, EndsOutside};
ghost use Rattle.papergrid_draw.specs.ForProofs.Tiles.{AreFree, AreRaised, HasTiled};

use crate::error::DrawError;
use papergrid_config::SpannedConfig;
use papergrid_maps::{Anchor, ConfigView};
use papergrid_values::Position;
use papergrid_walk::Sweep;
use papergrid_walk::shown::visible_anchor;
use std::alloc::{AllocError, Global};

/// Whether an anchor stands in a table of so many rows and columns, and its rectangle ends past the last row
/// or the last column.
fn overflows(anchor: Anchor, shape: (usize, usize)) -> bool
    ensures { IsTrue result ↔
        ((anchor.position.row < shape.0) × (anchor.position.col < shape.1)
        × ((shape.0 < anchor.position.row + anchor.rows)
        ⊎ (shape.1 < anchor.position.col + anchor.cols))) }
{
    let Position { row, col } = anchor.position;
    row < shape.0 && col < shape.1 && (anchor.rows > shape.0 - row || anchor.cols > shape.1 - col)
}

/// Whether the cell at an anchor is a visible one of the table that ends outside of it. Each anchor stands
/// behind the one that was asked for before it.
fn ends_outside(
    sweep: &mut Sweep,
    alloc: Global,
    anchor: Anchor,
    shape: (usize, usize),
) -> Result<bool, AllocError>
    requires { (grid : Grid) × Shows grid sweep.old anchor.position.row anchor.position.col }
    ensures found { IfOk result (λ found. (table : TableView) → table.shape ≡ shape →
        anchor ≡ anchor_in table.grid anchor.position →
        Shows table.grid sweep.old anchor.position.row anchor.position.col →
        IsTrue found ↔ EndsOutside table anchor.position) }
    ensures later { IfOk result (λ _. (grid : Grid) →
        Shows grid sweep.old anchor.position.row anchor.position.col →
        Shows grid sweep.new anchor.position.row (anchor.position.col + 1)) }
{
    if !overflows(anchor, shape) {
        return Ok(false);
    }
    let found = visible_anchor(sweep, alloc, anchor.position)?;
    Ok(found.is_some())
}

/// Tells whether each visible cell ends in the table. It looks at the anchors alone: without one a cell is a
/// single position.
fn check_ends(alloc: Global, anchors: &[Anchor], shape: (usize, usize)) -> Result<(), DrawError>
    requires sorted { IsSorted anchors.now }
    requires anchors { (table : TableView) × AreAnchorsOf table.grid anchors.now
        × (table.shape ≡ shape) }
    ensures ok { OnOk result ((table : TableView) →
        AreAnchorsOf table.grid anchors.now → table.shape ≡ shape → AreWithin table) }
    ensures err { IfErr result (λ e. (table : TableView) →
        AreAnchorsOf table.grid anchors.now → table.shape ≡ shape → IsTileFault table e) }
{
    let mut sweep = Sweep::new(alloc, anchors.to_vec(alloc)?, 0)?;
    for i in 0..anchors.len() {
        let anchor = anchors[i];
        if ends_outside(&mut sweep, alloc, anchor, shape)? {
            return Err(DrawError::OutOfTable(anchor.position));
        }
    }
    Ok(())
}

/// Gives the columns from `start` to before `last` the number `end`, up to the first whose number is greater
/// than `row`: that is answered.
fn raise(until: &mut [usize], row: usize, start: usize, last: usize, end: usize) -> Option<usize>
    requires range { start ≤ last }
    requires within { last ≤ length until.old }
    ensures found { IfSome result (λ column. (start ≤ column) × (column < last)
        × AreFree until.old row start column × (row < slice_index until.old column)) }
    ensures none { IfNone result (AreFree until.old row start last
        × AreRaised until.old until.new start last end) }
{
    for column in start..last {
        if until[column] > row {
            return Some(column);
        }
        until[column] = end;
    }
    None
}

/// A walk over the positions of a table, by row and then by column. For each column it keeps the first row that
/// the last visible cell over it leaves free.
struct Tiling {
    sweep: Sweep,
    until: Vec<usize>,
}

// By hand: docs/DECISIONS.md, "Drops".
impl Drop for Tiling {
    fn drop(self) {
        let Tiling { sweep: _, until: _ } = self;
    }
}

impl Tiling {
    /// Passes a position that just one visible cell covers.
    fn visit(&mut self, alloc: Global, position: Position) -> Result<(), DrawError>
        requires walk { (table : TableView) × IsTablePosition table position
            × HasTiled table position.row position.col self.old }
        requires row_in { position.row < 2 ^ 64 - 1 }
        requires col_in { position.col < 2 ^ 64 - 1 }
        ensures ok { IfOk result (λ _. (table : TableView) → IsTablePosition table position →
            HasTiled table position.row position.col self.old →
            HasTiled table position.row (position.col + 1) self.new) }
        ensures err { IfErr result (λ e. (table : TableView) → IsTablePosition table position →
            HasTiled table position.row position.col self.old → IsTileFault table e) }
    {
        let Position { row, col } = position;
        if self.until[col] > row {
            return Ok(());
        }
        let Some(anchor) = visible_anchor(&mut self.sweep, alloc, position)? else {
            return Err(DrawError::NotTiled(position));
        };
        match raise(
            &mut self.until,
            row,
            col,
            col + anchor.cols,
            row + anchor.rows,
        ) {
            None => Ok(()),
            Some(col) => Err(DrawError::NotTiled(Position { row, col })),
        }
    }

    /// Passes the positions of a row.
    fn visit_row(&mut self, alloc: Global, row: usize, columns: usize) -> Result<(), DrawError>
        requires walk { (table : TableView) × (columns ≡ table.shape.1) × (row < table.shape.0)
            × HasTiled table row 0 self.old }
        requires row_in { row < 2 ^ 64 - 1 }
        ensures ok { IfOk result (λ _. (table : TableView) → columns ≡ table.shape.1 →
            row < table.shape.0 → HasTiled table row 0 self.old →
            HasTiled table (row + 1) 0 self.new) }
        ensures err { IfErr result (λ e. (table : TableView) → columns ≡ table.shape.1 →
            row < table.shape.0 → HasTiled table row 0 self.old → IsTileFault table e) }
    {
        for col in 0..columns {
            self.visit(alloc, Position { row, col })?;
        }
        Ok(())
    }

    /// Passes all rows.
    fn visit_rows(&mut self, alloc: Global, shape: (usize, usize)) -> Result<(), DrawError>
        requires { (table : TableView) × (table.shape ≡ shape) × HasTiled table 0 0 self.old }
        ensures ok { OnOk result ((table : TableView) → table.shape ≡ shape →
            HasTiled table 0 0 self.old → IsTiled table) }
        ensures err { IfErr result (λ e. (table : TableView) → table.shape ≡ shape →
            HasTiled table 0 0 self.old → IsTileFault table e) }
    {
        for row in 0..shape.0 {
            self.visit_row(alloc, row, shape.1)?;
        }
        Ok(())
    }
}

/// Tells whether the visible cells of a table of so many rows and columns tile it: each ends in it, and just one covers
/// each position. It takes a few numbers for each column and each span, and time that grows with the positions and
/// the spans; no time where there are no spans.
///
/// # Errors
///
/// `OutOfTable` with the first visible cell, by row and then by column, that ends past the last column or row;
/// else `NotTiled` with the first position that no visible cell covers, or that two do; `Memory` in place of any answer.
pub fn check_tiles(
    alloc: Global,
    config: &SpannedConfig,
    shape: (usize, usize),
) -> Result<(), DrawError>
    ensures ok { OnOk result ((table : TableView) → table.grid ≡ spanned_grid config.now →
        table.shape ≡ shape → IsTiled table) }
    ensures err { IfErr result (λ e. (table : TableView) → table.grid ≡ spanned_grid config.now →
        table.shape ≡ shape → IsTileFault table e) }
{
    let anchors = ConfigView::anchors(config, alloc)?;
    if anchors.is_empty() {
        return Ok(());
    }
    check_ends(alloc, &anchors, shape)?;
    let sweep = Sweep::new(alloc, anchors, shape.1)?;
    let until = vec![in alloc; 0; shape.1]?;
    let mut tiling = Tiling { sweep, until };
    tiling.visit_rows(alloc, shape)
}
