//! The spans of one direction, found by the line that they run in.

ghost use Rattle.std.specs.Prelude.{◌≡◌, ◌+◌, ◌-◌, ◌↔◌, AllPairs, IfOk, IsSome, IsTrue, None, OnErr, OnOk, nat_eq, nat_le, nat_lt};
ghost use Rattle.std.specs.BTreeMap.Range.{entries_between};
ghost use Rattle.std.specs.FinMap as map;
ghost use Rattle.std.specs.FinMap.{get as value_at};
ghost use Rattle.std.specs.Prelude.{map as list_map};
ghost use Rattle.std.specs.List.{list_all, list_any};
ghost use Rattle.papergrid_values.specs.declared.direction.Direction.TheVariants.{Columns};
ghost use Rattle.papergrid_values.specs.declared.position.Position.{Position};
ghost use Rattle.papergrid_values.specs.Positions.{AreRising};
ghost use Rattle.papergrid_values.specs.Equal.{positions_eq};
ghost use Rattle.papergrid_values.specs.MapKeys.{position_cmp, position_eq};
ghost use Rattle.papergrid_maps.specs.Listed.{HasAtEach};
ghost use Rattle.papergrid_maps.specs.Spans.{EndWithin, HasSpan};
ghost use Rattle.papergrid_maps.specs.ForProofs.SpanIndex.{AreAt, CoversOne, IsReached, IsRising, anchor_along, covers_stored, entry_anchor, extent_of, key_of};

use crate::anchors::Anchor;
use crate::covering::covers_one;
use papergrid_values::{Direction, Position};
use std::alloc::{AllocError, Global};
use std::collections::{BTreeMap, HashMap};
use std::marker::Model;
use std::ops::Bound;

/// The spans of one direction. Those of one line stand next to each other, by their index in it: a
/// column span runs in its row, a row span in its column.
#[derive(Debug, Drop)]
pub(crate) struct SpanIndex {
    direction: Direction,
    // By line and then by index: the keys of row spans have row and column exchanged.
    spans: BTreeMap<Position, usize>,
}

impl Model for SpanIndex {
    ghost use Rattle.std.specs.BTreeMap.{IsOrdered};
    ghost use Rattle.papergrid_values.specs.MapKeys.{position_cmp};
    ghost use Rattle.papergrid_maps.specs.ForProofs.SpanIndex.{DirectedSpans, directed_code, stored_along};

    ghost Value = { DirectedSpans };

    ghost coded = { directed_code };

    ghost view = { λ s. record { direction = s.direction; spans = stored_along s.direction s.spans.entries } };

    ghost invariant = { λ s. IsOrdered position_cmp s.spans };
}

impl SpanIndex {
    /// The index with no span. It does not allocate.
    pub(crate) fn new(alloc: Global, direction: Direction) -> SpanIndex
        ensures { result ≡ record { direction = direction; spans = map.empty } }
    {
        SpanIndex {
            direction,
            spans: BTreeMap::new(alloc),
        }
    }

    /// The direction of the spans.
    pub(crate) fn direction(&self) -> Direction
        ensures { result ≡ self.now.direction }
    {
        self.direction
    }

    /// Whether a span is stored.
    pub(crate) fn holds_any(&self) -> bool
        ensures { IsTrue result ↔ HasSpan self.now.spans }
    {
        !self.spans.is_empty()
    }

    /// The span stored at a position.
    pub(crate) fn get(&self, position: Position) -> Option<usize>
        ensures { result ≡ value_at self.now.spans position }
    {
        self.spans.get(&key_of(self.direction, position)).copied()
    }

    /// Holds a span at a position. Only where none is held there can memory be refused: then the index
    /// is as it was.
    pub(crate) fn insert(&mut self, position: Position, span: usize) -> Result<(), AllocError>
        ensures ok { OnOk result
            (self.new ≡ record self.old { spans = map.insert self.old.spans position span }) }
        ensures err { OnErr result (self.new ≡ self.old) }
        ensures absent { OnErr result (value_at self.old.spans position ≡ None) }
    {
        let _ = self.spans.insert(key_of(self.direction, position), span)?;
        Ok(())
    }

    /// Drops the span stored at a position.
    pub(crate) fn remove(&mut self, position: Position)
        ensures { self.new ≡ record self.old { spans = map.remove self.old.spans position } }
    {
        let _ = self.spans.remove(&key_of(self.direction, position));
    }

    /// Drops all spans.
    pub(crate) fn clear(&mut self)
        ensures { self.new ≡ record self.old { spans = map.empty } }
    {
        self.spans.clear();
    }

    /// Whether a span of the position's line begins before it and reaches it. Only the spans of that
    /// line that begin before it are looked at.
    pub(crate) fn reaches(&self, position: Position) -> bool
        ensures { IsTrue result ↔ IsReached self.now position }
    {
        reaches_key(&self.spans, key_of(self.direction, position))
    }

    /// Whether one of the positions, of which the columns or the rows rise, lies in the rectangle of an
    /// anchor with a span here, where `others` has the spans of the other direction. Each span is looked
    /// at once.
    pub(crate) fn covers_one(
        &self,
        others: &SpanIndex,
        rising: Direction,
        positions: &[Position],
    ) -> bool
        requires { AllPairs (AreRising rising) positions.now }
        ensures { IsTrue result ↔ CoversOne self.now others.now.spans positions.now }
    {
        entries_cover(&self.spans, self.direction, others, rising, positions)
    }

    /// Whether each span ends within so many tracks.
    pub(crate) fn ends_within(&self, count: usize) -> bool
        ensures { IsTrue result ↔ EndWithin self.now.direction self.now.spans count }
    {
        entries_end_within(&self.spans, count)
    }

    /// The anchors of the positions that hold a span, where `others` has the spans of the other
    /// direction, by line and then by index, or out of memory.
    pub(crate) fn anchors(
        &self,
        alloc: Global,
        others: &SpanIndex,
    ) -> Result<Vec<Anchor>, AllocError>
        ensures spans { IfOk result (λ anchors. AreAt
            (anchor_along self.now.direction (value_at self.now.spans) (value_at others.now.spans))
            (λ p. IsSome (value_at self.now.spans p)) anchors.items) }
        ensures sorted { IfOk result (λ anchors.
            self.now.direction ≡ Columns → IsRising anchors.items) }
    {
        anchors_along(alloc, self.direction, &self.spans, others)
    }

    /// The spans by position, or out of memory.
    pub(crate) fn by_position(&self, alloc: Global) -> Result<HashMap<Position, usize>, AllocError>
        ensures { IfOk result (λ all. HasAtEach position_eq all (value_at self.now.spans)) }
    {
        let direction = self.direction;
        self.spans
            .iter()
            .map(|(key, span)| (key_of(direction, *key), *span))
            .collect(alloc)
    }

    /// Whether both hold the same spans.
    pub(crate) fn holds_same(&self, other: &SpanIndex) -> bool
        requires { self.now.direction ≡ other.now.direction }
        ensures { result ≡ positions_eq nat_eq self.now.spans other.now.spans }
    {
        self.spans == other.spans
    }
}

impl Clone for SpanIndex {
    ghost is_clone = { λ s t. t ≡ s };

    fn clone(&self) -> Result<SpanIndex, AllocError> {
        Ok(SpanIndex {
            direction: self.direction,
            spans: self.spans.clone()?,
        })
    }
}

/// The columns and the rows of an anchor's rectangle.
#[derive(Clone, Copy, Debug)]
pub(crate) struct Extent {
    pub(crate) columns: usize,
    pub(crate) rows: usize,
}

/// The rectangle of an anchor, by its span in a direction and its span in the other one.
pub(crate) fn extent_of(direction: Direction, span: usize, other: usize) -> Extent
    ensures { result ≡ extent_of direction span other }
{
    match direction {
        Direction::Columns => Extent {
            columns: span,
            rows: other,
        },
        Direction::Rows => Extent {
            columns: other,
            rows: span,
        },
    }
}

// The line and the index in it of a position, and the position of a line and an index.
fn key_of(direction: Direction, position: Position) -> Position
    ensures { result ≡ key_of direction position }
{
    match direction {
        Direction::Columns => position,
        Direction::Rows => Position::new(position.col, position.row),
    }
}

// Whether each span ends within so many tracks of its line. What begins past them ends past them.
fn entries_end_within(spans: &BTreeMap<Position, usize>, count: usize) -> bool
    ensures { result ≡ list_all (λ e. nat_le (e.0.col + e.1) count) spans.now.entries }
{
    spans.iter().all(|(start, span)| start.col <= count && *span <= count - start.col)
}

// The anchors of the entries.
fn anchors_along(
    alloc: Global,
    direction: Direction,
    spans: &BTreeMap<Position, usize>,
    others: &SpanIndex,
) -> Result<Vec<Anchor>, AllocError>
    ensures { IfOk result (λ anchors.
        anchors.items ≡ list_map (entry_anchor direction others.now.spans) spans.now.entries) }
{
    spans
        .iter()
        .map(|(key, span)| anchor_of(direction, *key, *span, others))
        .collect(alloc)
}

// The anchor of an entry.
fn anchor_of(direction: Direction, key: Position, span: usize, others: &SpanIndex) -> Anchor
    ensures { result ≡ entry_anchor direction others.now.spans (key, span) }
{
    let position = key_of(direction, key);
    let extent = extent_of(direction, span, others.get(position).unwrap_or(1));
    Anchor {
        position,
        rows: extent.rows,
        cols: extent.columns,
    }
}

// Whether a span of the key's line begins before the key and reaches it. What the range has stands
// before the key, so that no difference is cut off.
fn reaches_key(spans: &BTreeMap<Position, usize>, key: Position) -> bool
    ensures { result ≡ list_any (λ e. nat_lt (key.col - e.0.col) e.1)
        (entries_between position_cmp (Bound.Included (record { row = key.row; col = 0 }))
        (Bound.Excluded key) spans.now.entries) }
{
    spans
        .range(Position::new(key.row, 0)..key)
        .any(|(start, span)| key.col.saturating_sub(start.col) < *span)
}

// Whether one of the positions lies in the rectangle of an anchor with a span of the entries.
fn entries_cover(
    spans: &BTreeMap<Position, usize>,
    direction: Direction,
    others: &SpanIndex,
    rising: Direction,
    positions: &[Position],
) -> bool
    requires { AllPairs (AreRising rising) positions.now }
    ensures { result
        ≡ list_any (covers_stored direction others.now.spans positions.now) spans.now.entries }
{
    spans.iter().any(|(key, span)| {
        let anchor = key_of(direction, *key);
        let extent = extent_of(direction, *span, others.get(anchor).unwrap_or(1));
        covers_one(rising, anchor, extent.columns, extent.rows, positions)
    })
}
