//! Spans by position, and what they hide. Source: `config/spanned/mod.rs`.

ghost use Rattle.std.specs.Prelude.{◌≡◌, ◌∷◌, [], ◌<◌, ◌≤◌, ◌-◌, ◌&&◌, ◌⊎◌, All, AllPairs, OnOk, OnErr, IfOk, IfSome, IsOk, IsSome, IsTrue, ◌↔◌, nat_lt};
ghost use Rattle.std.specs.BTreeMap.{IsOrdered};
ghost use Rattle.std.specs.BTreeMap.Range.{entries_between};
ghost use Rattle.std.specs.List.{list_any};
ghost use Rattle.std.specs.FinMap as map;
ghost use Rattle.std.specs.FinMap.{get as value_at};
ghost use Rattle.papergrid_values.specs.History.{AppendsHistory};
ghost use Rattle.papergrid_values.specs.Positions.{AreRising};
ghost use Rattle.papergrid_values.specs.declared.direction.Direction.TheVariants.{Columns, Rows};
ghost use Rattle.papergrid_values.specs.declared.position.Position.{Position};
ghost use Rattle.papergrid_values.specs.MapKeys.{position_cmp, position_eq};
ghost use Rattle.papergrid_values.specs.declared.direction.Direction.{Direction};
ghost use Rattle.papergrid_maps.specs.Anchors.{AreAnchors, HasAnchor, IsSorted};
ghost use Rattle.papergrid_maps.specs.Listed.{HasAtEach};
ghost use Rattle.papergrid_maps.specs.Spans.{HasSpanHistory, EndWithin, HasSpan, IsVisible, IsCoveredByColumn, IsCoveredByRow, IsCoveredByBoth, SetSpan, RemoveSpans, span_along, spans_along};
ghost use Rattle.papergrid_maps.specs.Visible.{is_visible};
ghost use Rattle.papergrid_maps.specs.ForProofs.SpanIndex.{AreFromTwo, HoldsBoth, span_set};

use crate::anchors::{Anchor, anchors_of};
use crate::span_index::{Extent, SpanIndex, extent_of};
use papergrid_values::{Direction, Position};
use std::alloc::{AllocError, Global};
use std::collections::{BTreeMap, HashMap};
use std::marker::Model;
use std::ops::Bound;

/// The column spans and the row spans of two or more, by position. All other spans are 1.
///
/// The rectangle of an anchor at (r, c) has the rows from r up to r + row span, and the columns
/// from c up to c + column span, however large these sums are.
#[derive(Debug)]
pub struct SpanTable {
    alloc: Global,
    columns: SpanIndex,
    rows: SpanIndex,
    // The anchors with both spans.
    both: BTreeMap<Position, Extent>,
}

impl Model for SpanTable {
    ghost use Rattle.std.specs.Prelude.{◌≡◌};
    ghost use Rattle.papergrid_maps.specs.Spans.{Spans};
    ghost use Rattle.papergrid_maps.specs.ForProofs.SpanIndex.{spans_code};

    ghost Value = { Spans };

    ghost coded = { spans_code };

    ghost view = { λ s. record { columns = s.columns.spans; rows = s.rows.spans } };

    ghost use Rattle.papergrid_maps.specs.ForProofs.SpanIndex.{AreFromTwo, HoldsBoth};
    ghost use Rattle.papergrid_values.specs.declared.direction.Direction.TheVariants.{Columns, Rows};

    ghost invariant = { λ s. (s.columns.direction ≡ Columns) × (s.rows.direction ≡ Rows)
        × AreFromTwo s.columns.spans × AreFromTwo s.rows.spans × HoldsBoth s.columns s.rows.spans s.both };
}

// By hand: docs/DECISIONS.md, "Drops".
impl Drop for SpanTable {
    fn drop(self) {
        let SpanTable {
            alloc: _,
            columns: _,
            rows: _,
            both: _,
        } = self;
    }
}

impl SpanTable {
    /// The table with no span. It does not allocate.
    pub fn new(alloc: Global) -> Self
        ensures { HasSpanHistory [] result }
    {
        SpanTable {
            alloc,
            columns: SpanIndex::new(alloc, Direction::Columns),
            rows: SpanIndex::new(alloc, Direction::Rows),
            both: BTreeMap::new(alloc),
        }
    }

    /// Sets the column span of a position: 0 does nothing and 1 removes the one that is stored,
    /// so that neither takes memory. Where an allocation fails the table is as it was.
    pub fn set_column(&mut self, position: Position, span: usize) -> Result<(), AllocError>
        ensures ok { OnOk result
            (AppendsHistory HasSpanHistory self.old self.new (SetSpan Columns position span ∷ [])) }
        ensures err { OnErr result (self.new ≡ self.old) }
        ensures others { self.new.rows ≡ self.old.rows }
        ensures small { span < 2 → IsOk result }
    {
        set_span(
            &mut self.columns,
            &self.rows,
            &mut self.both,
            position,
            span,
        )
    }

    /// Sets the row span of a position, as `set_column` does the column span.
    pub fn set_row(&mut self, position: Position, span: usize) -> Result<(), AllocError>
        ensures ok { OnOk result
            (AppendsHistory HasSpanHistory self.old self.new (SetSpan Rows position span ∷ [])) }
        ensures err { OnErr result (self.new ≡ self.old) }
        ensures others { self.new.columns ≡ self.old.columns }
        ensures small { span < 2 → IsOk result }
    {
        set_span(
            &mut self.rows,
            &self.columns,
            &mut self.both,
            position,
            span,
        )
    }

    /// The column span stored at a position, of 2 or more.
    pub fn get_column(&self, position: Position) -> Option<usize>
        ensures stored { result ≡ value_at self.now.columns position }
        ensures from_two { IfSome result (λ n. 2 ≤ n) }
    {
        self.columns.get(position)
    }

    /// The row span stored at a position, of 2 or more.
    pub fn get_row(&self, position: Position) -> Option<usize>
        ensures stored { result ≡ value_at self.now.rows position }
        ensures from_two { IfSome result (λ n. 2 ≤ n) }
    {
        self.rows.get(position)
    }

    /// Removes all column spans.
    pub fn remove_columns(&mut self)
        ensures told { AppendsHistory HasSpanHistory self.old self.new (RemoveSpans Columns ∷ []) }
        ensures others { self.new.rows ≡ self.old.rows }
    {
        self.columns.clear();
        self.both.clear();
    }

    /// Removes all row spans.
    pub fn remove_rows(&mut self)
        ensures told { AppendsHistory HasSpanHistory self.old self.new (RemoveSpans Rows ∷ []) }
        ensures others { self.new.columns ≡ self.old.columns }
    {
        self.rows.clear();
        self.both.clear();
    }

    /// Whether a column span is stored.
    pub fn has_columns(&self) -> bool
        ensures { IsTrue result ↔ HasSpan self.now.columns }
    {
        self.columns.holds_any()
    }

    /// Whether a row span is stored.
    pub fn has_rows(&self) -> bool
        ensures { IsTrue result ↔ HasSpan self.now.rows }
    {
        self.rows.holds_any()
    }

    /// All column spans that are stored, or out of memory.
    pub fn columns(&self) -> Result<HashMap<Position, usize>, AllocError>
        ensures { IfOk result (λ all. HasAtEach position_eq all (value_at self.now.columns)) }
    {
        self.columns.by_position(self.alloc)
    }

    /// All row spans that are stored, or out of memory.
    pub fn rows(&self) -> Result<HashMap<Position, usize>, AllocError>
        ensures { IfOk result (λ all. HasAtEach position_eq all (value_at self.now.rows)) }
    {
        self.rows.by_position(self.alloc)
    }

    /// An anchor for each position that holds a span, by row and then by column, or out of memory.
    pub fn anchors(&self) -> Result<Vec<Anchor>, AllocError>
        ensures sorted { IfOk result (λ anchors. IsSorted anchors.items) }
        ensures spans { IfOk result (λ anchors. AreAnchors (span_along self.now) anchors.items) }
        ensures stored { IfOk result (λ anchors. (p : Position) → HasAnchor anchors.items p →
            IsSome (value_at self.now.columns p) ⊎ IsSome (value_at self.now.rows p)) }
        ensures from_one { (d : Direction) (p : Position) → 1 ≤ span_along self.now d p }
    {
        anchors_of(self.alloc, &self.columns, &self.rows)
    }

    /// Whether each span of the direction that is stored ends within so many tracks, wherever its
    /// position stands in the other direction. It does not allocate.
    pub fn end_within(&self, direction: Direction, count: usize) -> bool
        ensures ends { IsTrue result ↔ EndWithin direction (spans_along direction self.now) count }
        ensures from_one { (p : Position) → 1 ≤ span_along self.now direction p }
    {
        match direction {
            Direction::Columns => self.columns.ends_within(count),
            Direction::Rows => self.rows.ends_within(count),
        }
    }

    /// Whether the position stands right of an anchor, in its row and its rectangle.
    pub fn covered_by_column(&self, position: Position) -> bool
        ensures { IsTrue result ↔ IsCoveredByColumn (span_along self.now) position }
    {
        self.columns.reaches(position)
    }

    /// Whether the position stands below an anchor, in its column and its rectangle.
    pub fn covered_by_row(&self, position: Position) -> bool
        ensures { IsTrue result ↔ IsCoveredByRow (span_along self.now) position }
    {
        self.rows.reaches(position)
    }

    /// Whether the position stands below and right of an anchor, in its rectangle.
    pub fn covered_by_both(&self, position: Position) -> bool
        ensures { IsTrue result ↔ IsCoveredByBoth (span_along self.now) position }
    {
        reaches_inside(&self.both, position)
    }

    /// Whether the position lies in no rectangle of another anchor.
    pub fn is_visible(&self, position: Position) -> bool
        ensures visible { IsTrue result ↔ IsVisible (span_along self.now) position }
        ensures test { result ≡ is_visible self.now position }
    {
        let _held = &self.columns;
        if !self.has_columns() && !self.has_rows() {
            return true;
        }
        if self.covered_by_column(position) {
            return false;
        }
        if self.covered_by_row(position) {
            return false;
        }
        !self.covered_by_both(position)
    }

    /// Whether all of the positions, of which the columns or the rows rise, are visible. Each span is
    /// looked at once, with those of the positions alone that its rectangle can have.
    pub fn are_visible(&self, direction: Direction, positions: &[Position]) -> bool
        requires { AllPairs (AreRising direction) positions.now }
        ensures { IsTrue result ↔ All (λ p. IsTrue (is_visible self.now p)) positions.now }
    {
        if self.columns.covers_one(&self.rows, direction, positions) {
            return false;
        }
        !self.rows.covers_one(&self.columns, direction, positions)
    }
}

impl Clone for SpanTable {
    ghost is_clone = { λ s t. t ≡ s };

    fn clone(&self) -> Result<SpanTable, AllocError> {
        Ok(SpanTable {
            alloc: self.alloc,
            columns: self.columns.clone()?,
            rows: self.rows.clone()?,
            both: self.both.clone()?,
        })
    }
}

impl PartialEq for SpanTable {
    ghost use Rattle.papergrid_maps.specs.ForProofs.SpanEq.{spans_eq, spans_eq_laws};

    ghost eq = { spans_eq };

    ghost laws = { spans_eq_laws };

    fn eq(&self, other: &SpanTable) -> bool {
        self.columns.holds_same(&other.columns) && self.rows.holds_same(&other.rows)
    }
}

// Sets a span of one direction, where `others` has those of the other one and `both` the anchors with
// both spans.
fn set_span(
    index: &mut SpanIndex,
    others: &SpanIndex,
    both: &mut BTreeMap<Position, Extent>,
    position: Position,
    span: usize,
) -> Result<(), AllocError>
    requires { HoldsBoth index.old others.now.spans both.old }
    ensures ok { OnOk result ((p : Position) →
        value_at index.new.spans p ≡ span_set position span p (value_at index.old.spans p)) }
    ensures err { OnErr result (index.new ≡ index.old) }
    ensures small { span < 2 → IsOk result }
    ensures direction { index.new.direction ≡ index.old.direction }
    ensures from_two { AreFromTwo index.old.spans → AreFromTwo index.new.spans }
    ensures both { HoldsBoth index.new others.now.spans both.new }
{
    match span {
        0 => Ok(()),
        1 => {
            index.remove(position);
            let _ = both.remove(&position);
            Ok(())
        }
        _ => hold_span(index, others, both, position, span),
    }
}

// Holds a span of one direction. Where an allocation fails, what was taken is given back.
fn hold_span(
    index: &mut SpanIndex,
    others: &SpanIndex,
    both: &mut BTreeMap<Position, Extent>,
    position: Position,
    span: usize,
) -> Result<(), AllocError>
    requires { HoldsBoth index.old others.now.spans both.old }
    ensures ok { OnOk result
        (index.new ≡ record index.old { spans = map.insert index.old.spans position span }) }
    ensures err { OnErr result (index.new ≡ index.old) }
    ensures both { HoldsBoth index.new others.now.spans both.new }
{
    index.insert(position, span)?;
    let Some(other) = others.get(position) else {
        return Ok(());
    };
    match both.insert(position, extent_of(index.direction(), span, other)) {
        Ok(_) => Ok(()),
        Err(_) => {
            // Both were not stored here, and so neither was this one.
            index.remove(position);
            Err(AllocError)
        }
    }
}

// Whether a rectangle begins above and left of the position and reaches it.
fn reaches_inside(both: &BTreeMap<Position, Extent>, position: Position) -> bool
    ensures value { result ≡ list_any (λ e. nat_lt e.0.col position.col
        && (nat_lt (position.col - e.0.col) e.1.columns
        && nat_lt (position.row - e.0.row) e.1.rows))
        (entries_between position_cmp
        Bound.Unbounded (Bound.Excluded (record { row = position.row; col = 0 }))
        both.now.entries) }
    ensures ordered { IsOrdered position_cmp both.now }
{
    both.range(..Position::new(position.row, 0)).any(|(anchor, extent)| anchor.col < position.col
        && position.col - anchor.col < extent.columns
        && position.row.saturating_sub(anchor.row) < extent.rows)
}
