//! A walk over the cells of a table, by row and then by column, that tells which are hidden.

ghost use Rattle.std.specs.Prelude.{◌≡◌, ℕ, ◌+◌, ◌-◌, ◌^◌, ◌<◌, ◌≤◌, ◌↔◌, IsTrue, IfOk, OnOk, OnErr, Some, length, slice_get};
ghost use Rattle.papergrid_values.specs.declared.position.Position.{Position};
ghost use Rattle.papergrid_maps.specs.Anchors.{IsSorted};
ghost use Rattle.papergrid_maps.specs.declared.anchors.Anchor.{Anchor};
ghost use Rattle.papergrid_walk.specs.ForProofs.MaxTree.{HasLevels, end_at};
ghost use Rattle.papergrid_values.specs.Positions.{IsBefore};
ghost use Rattle.papergrid_maps.specs.Hidden.{IsHidden};
ghost use Rattle.papergrid_walk.specs.ForProofs.Swept.{AllBefore, HasReached, HoldsEnds, IsAhead, IsAnchorAt, IsSwept, end_with, lesser};

use crate::max_tree::MaxTree;
use papergrid_maps::Anchor;
use papergrid_values::Position;
use std::alloc::{AllocError, Global};
use std::marker::Model;

/// The anchors in order, and how far a walk over so many columns has come among them.
pub struct Sweep {
    anchors: Vec<Anchor>,
    next: usize,
    columns: usize,
    max_tree: MaxTree,
}

// By hand: docs/DECISIONS.md, "Drops".
impl Drop for Sweep {
    fn drop(self) {
        let Sweep {
            anchors: _,
            next: _,
            columns: _,
            max_tree: _,
        } = self;
    }
}

impl Model for Sweep {
    ghost use Rattle.papergrid_walk.specs.ForProofs.Swept.{IsSwept, Walk};

    ghost Value = { Walk };

    ghost view = { λ s. record { anchors = s.anchors.items; columns = s.columns; passed = s.next } };

    ghost invariant = { λ s. IsSwept s.max_tree (record { anchors = s.anchors.items; columns = s.columns; passed = s.next }) };
}

impl Sweep {
    /// A walk at its start, over a table of so many columns. The anchors stand by row and then by
    /// column, no two at one position; they need not be cells of the table.
    pub fn new(alloc: Global, anchors: Vec<Anchor>, columns: usize) -> Result<Sweep, AllocError>
        requires { IsSorted anchors.items }
        ensures { IfOk result (λ walk. walk ≡
            record { anchors = anchors.items; columns = columns; passed = 0 }) }
    {
        let max_tree = MaxTree::new(alloc, columns)?;
        Ok(Sweep {
            anchors,
            next: 0,
            columns,
            max_tree,
        })
    }

    /// The anchors, by row and then by column.
    pub fn anchors(&self) -> &[Anchor]
        ensures { result.now ≡ self.now.anchors }
    {
        self.anchors.as_slice()
    }

    /// How many columns the table has.
    pub fn columns(&self) -> usize
        ensures { result ≡ self.now.columns }
    {
        self.columns
    }

    /// Begins anew over a table of so many columns. Where an allocation fails the walk is as it
    /// was.
    pub fn restart(&mut self, alloc: Global, columns: usize) -> Result<(), AllocError>
        ensures ok { OnOk result (self.new ≡
            record { anchors = self.old.anchors; columns = columns; passed = 0 }) }
        ensures err { OnErr result (self.new ≡ self.old) }
    {
        self.max_tree = MaxTree::new(alloc, columns)?;
        self.columns = columns;
        self.next = 0;
        Ok(())
    }

    /// Whether the position lies in the rectangle of another anchor. Each position stands behind
    /// the one that was asked for before it, in a later row or further right in its row; positions
    /// may be left out. No row has the greatest `usize` as its number.
    pub fn is_hidden(&mut self, position: Position) -> bool
        requires ahead { IsAhead self.old position }
        requires row_in { position.row < 2 ^ 64 - 1 }
        requires col_in { position.col < self.old.columns }
        ensures hidden { IsTrue result ↔ IsHidden self.old.anchors position }
        ensures reached { HasReached self.new position }
        ensures later { (q : Position) → IsBefore position q → IsAhead self.new q }
        ensures anchors { self.new.anchors ≡ self.old.anchors }
        ensures columns { self.new.columns ≡ self.old.columns }
    {
        self.next = advance(
            &mut self.max_tree,
            self.columns,
            self.anchors.as_slice(),
            self.next,
            position,
        );
        position.row < self.max_tree.end_at(position.col)
    }

    /// The position that was asked for last, with its spans: those of its anchor, 1 where it has none.
    pub fn anchor_at(&self, position: Position) -> Anchor
        requires { HasReached self.now position }
        ensures { IsAnchorAt self.now.anchors position result }
    {
        if self.next < self.anchors.len() {
            let anchor = self.anchors[self.next];
            if anchor.position == position {
                return anchor;
            }
        }
        Anchor {
            position,
            rows: 1,
            cols: 1,
        }
    }
}

// Passes the anchors before the position.
fn advance(
    max_tree: &mut MaxTree,
    columns: usize,
    anchors: &[Anchor],
    mut next: usize,
    position: Position,
) -> usize
    requires fits { HasLevels max_tree.old columns }
    requires within { next ≤ length anchors.now }
    requires holds { HoldsEnds max_tree.old columns anchors.now next }
    requires before { AllBefore anchors.now next position }
    ensures fits { HasLevels max_tree.new columns }
    ensures within { result ≤ length anchors.now }
    ensures holds { HoldsEnds max_tree.new columns anchors.now result }
    ensures before { AllBefore anchors.now result position }
    ensures rest { (a : Anchor) → slice_get anchors.now result ≡ Some a →
        IsBefore a.position position → ⊥ }
{
    while next < anchors.len() && anchors[next].is_before(position) {
        pass(max_tree, columns, anchors[next]);
        next += 1;
    }
    next
}

// Raises the columns of the anchor to its end. An end above the greatest `usize` counts as that
// one, which no row reaches.
fn pass(max_tree: &mut MaxTree, columns: usize, anchor: Anchor)
    requires { HasLevels max_tree.old columns }
    ensures fits { HasLevels max_tree.new columns }
    ensures passed { (column : ℕ) → column < columns →
        end_at max_tree.new column ≡ end_with (Some anchor) (end_at max_tree.old column) column }
{
    let first = anchor.position.col;
    if first < columns {
        let last = sum_to(first, anchor.cols, columns);
        let end = sum_to(anchor.position.row, anchor.rows, usize::MAX);
        max_tree.raise(first, last, end);
    }
}

// The sum, or `most` where the sum is more.
fn sum_to(a: usize, b: usize, most: usize) -> usize
    requires { a ≤ most }
    ensures { result ≡ lesser (a + b) most }
{
    if b <= most - a { a + b } else { most }
}
