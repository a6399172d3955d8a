//! What is read of a configuration, cell by cell and line by line.

ghost use Rattle.std.specs.Prelude.{◌≡◌, ◌≤◌, ◌↔◌, All, AllPairs, IfOk, IsTrue, Option, refl};
ghost use Rattle.papergrid_values.specs.Positions.{AreRising, StayWithin};
ghost use Rattle.papergrid_values.specs.declared.entity.Entity.{Entity};
ghost use Rattle.papergrid_maps.specs.Anchors.{IsSorted};
ghost use Rattle.papergrid_maps.specs.Grids.{Grid, compact_grid, size_after, size_before};
ghost use Rattle.papergrid_maps.specs.Hidden.{AreAnchorsOf};
ghost use Rattle.papergrid_maps.specs.Listed.{AreSetCells};
ghost use Rattle.papergrid_maps.specs.Paddings.{AreCommon, AreEffective, for_all_cells, sizes};
ghost use Rattle.papergrid_maps.specs.declared.view.Paddings.{Paddings};

use crate::Anchor;
use papergrid_values::{CompactConfig, Direction, Entity, Indent, Position, Sides};
use std::alloc::{AllocError, Global};

/// The paddings left and right of a cell's text, above and below it.
#[derive(Clone, Copy, Debug, PartialEq, Eq)]
pub struct Paddings {
    pub left: usize,
    pub right: usize,
    pub top: usize,
    pub bottom: usize,
}

/// What a table is laid out by: the visible positions, the spans, the paddings and the lines.
pub trait ConfigView {
    // What is seen of the configuration.
    ghost grid: { Self → Grid };

    /// Whether the cell at a position is visible.
    fn is_visible(&self, position: Position) -> bool
        ensures { result ≡ (grid self.now).shows position };

    /// Whether the cells at all of these positions are visible, of which the numbers along a direction
    /// rise.
    fn are_visible(&self, direction: Direction, positions: &[Position]) -> bool
        requires { AllPairs (AreRising direction) positions.now }
        ensures { IsTrue result ↔ All (λ position. IsTrue ((grid self.now).shows position))
            positions.now };

    /// What hides cells: the anchors of all spans, by row and then by column.
    fn anchors(&self, alloc: Global) -> Result<Vec<Anchor>, AllocError>
        ensures sorted { IfOk result (λ anchors. IsSorted anchors.items) }
        ensures shows { IfOk result (λ anchors. AreAnchorsOf (grid self.now) anchors.items) };

    /// How many tracks the cell at a position spans.
    fn span(&self, direction: Direction, position: Position) -> usize
        ensures value { result ≡ (grid self.now).span direction position }
        ensures positive { 1 ≤ result };

    /// Whether it is known of each position before track `count` that its span ends there or
    /// before. It does not allocate.
    fn spans_end_within(&self, direction: Direction, count: usize) -> bool
        ensures { IsTrue result → StayWithin direction ((grid self.now).span direction) count };

    /// The padding left of the text of the cell at a position (above it).
    fn padding_before(&self, direction: Direction, position: Position) -> usize
        ensures { result ≡ (grid self.now).before direction position };

    /// The padding right of the text (below it).
    fn padding_after(&self, direction: Direction, position: Position) -> usize
        ensures { result ≡ (grid self.now).after direction position };

    // The paddings that are set for an entity itself.
    ghost set_for: { Self → Entity → Option Paddings };

    // Those of a cell are its own, else its column's, else its row's, else the table's.
    ghost effective: { (s : Self) → AreEffective (grid s) (set_for s) };

    /// The paddings that are set for an entity itself: of a cell without those of its column and of its row.
    fn paddings_for(&self, entity: Entity) -> Option<Paddings>
        ensures { result ≡ set_for self.now entity };

    /// The cells that have paddings of their own, in no order, or out of memory.
    fn padded_cells(&self, alloc: Global) -> Result<Vec<Position>, AllocError>
        ensures { IfOk result (λ cells. AreSetCells (set_for self.now) cells.items) };

    /// The paddings of all cells, where it is known that they are alike.
    fn common_paddings(&self) -> Option<Paddings>
        ensures { AreCommon (grid self.now) result };

    /// Whether there is a line before track `i` of so many, or, at their count, after the last.
    fn has_line(&self, direction: Direction, count: usize, i: usize) -> bool
        ensures { result ≡ (grid self.now).draws direction count i };
}

/// The padding left of a text (above it), in columns of a terminal (lines).
pub fn size_before(direction: Direction, padding: &Sides<Indent>) -> usize
    ensures { result ≡ size_before direction padding.now }
{
    match direction {
        Direction::Columns => padding.left.size,
        Direction::Rows => padding.top.size,
    }
}

/// The padding right of a text (below it), in columns of a terminal (lines).
pub fn size_after(direction: Direction, padding: &Sides<Indent>) -> usize
    ensures { result ≡ size_after direction padding.now }
{
    match direction {
        Direction::Columns => padding.right.size,
        Direction::Rows => padding.bottom.size,
    }
}

/// The paddings on the four sides, without their characters.
pub fn sizes(padding: &Sides<Indent>) -> Paddings
    ensures { result ≡ sizes padding.now }
{
    Paddings {
        left: padding.left.size,
        right: padding.right.size,
        top: padding.top.size,
        bottom: padding.bottom.size,
    }
}

impl ConfigView for CompactConfig {
    ghost grid = { compact_grid };

    fn is_visible(&self, _position: Position) -> bool {
        let _config = self;
        true
    }

    fn are_visible(&self, _direction: Direction, _positions: &[Position]) -> bool {
        let _config = self;
        true
    }

    fn anchors(&self, alloc: Global) -> Result<Vec<Anchor>, AllocError> {
        let _config = self;
        Ok(Vec::new(alloc))
    }

    fn span(&self, _direction: Direction, _position: Position) -> usize {
        let _config = self;
        1
    }

    fn spans_end_within(&self, _direction: Direction, _count: usize) -> bool {
        let _config = self;
        true
    }

    fn padding_before(&self, direction: Direction, _position: Position) -> usize {
        size_before(direction, self.get_padding())
    }

    fn padding_after(&self, direction: Direction, _position: Position) -> usize {
        size_after(direction, self.get_padding())
    }

    ghost set_for = { λ s. for_all_cells (sizes s.padding) };

    ghost effective = { λ s p. refl };

    fn paddings_for(&self, entity: Entity) -> Option<Paddings> {
        match entity {
            Entity::Global => Some(sizes(self.get_padding())),
            Entity::Column(_) | Entity::Row(_) | Entity::Cell(_, _) => None,
        }
    }

    fn padded_cells(&self, alloc: Global) -> Result<Vec<Position>, AllocError> {
        let _config = self;
        Ok(Vec::new(alloc))
    }

    fn common_paddings(&self) -> Option<Paddings> {
        Some(sizes(self.get_padding()))
    }

    fn has_line(&self, _direction: Direction, _count: usize, _i: usize) -> bool {
        let _config = self;
        false
    }
}
