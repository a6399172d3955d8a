//! The anchors of the spans that a table holds.

ghost use Rattle.std.specs.Prelude.{◌≡◌, ◌⊎◌, ◌↔◌, IfOk, IsSome, IsTrue};
ghost use Rattle.std.specs.FinMap.{get as value_at};
ghost use Rattle.papergrid_values.specs.Positions.{IsBefore};
ghost use Rattle.papergrid_values.specs.declared.direction.Direction.TheVariants.{Columns, Rows};
ghost use Rattle.papergrid_values.specs.declared.position.Position.{Position};
ghost use Rattle.papergrid_maps.specs.Anchors.{AreAnchors, HasAnchor, IsSorted};
ghost use Rattle.papergrid_maps.specs.Spans.{span_along};

use crate::span_index::SpanIndex;
use papergrid_values::Position;
use std::alloc::{AllocError, Global};

/// A position with its spans: its rectangle has `rows` rows from the position's row on, and `cols`
/// columns from its column on, however large these sums are.
#[derive(Clone, Copy, Debug, PartialEq, Eq)]
pub struct Anchor {
    pub position: Position,
    pub rows: usize,
    pub cols: usize,
}

impl Anchor {
    /// Whether it stands in a row above the position, or in its row and left of it.
    pub fn is_before(&self, position: Position) -> bool
        ensures { IsTrue result ↔ IsBefore self.now.position position }
    {
        self.position < position
    }
}

/// An anchor for each position that has a span, by row and then by column; a span that is not
/// stored is 1. Those of column spans alone stand in order as they come.
pub(crate) fn anchors_of(
    alloc: Global,
    columns: &SpanIndex,
    rows: &SpanIndex,
) -> Result<Vec<Anchor>, AllocError>
    requires columns { columns.now.direction ≡ Columns }
    requires rows { rows.now.direction ≡ Rows }
    ensures sorted { IfOk result (λ anchors. IsSorted anchors.items) }
    ensures spans { IfOk result (λ anchors. AreAnchors (span_along
        (record { columns = columns.now.spans; rows = rows.now.spans })) anchors.items) }
    ensures stored { IfOk result (λ anchors. (p : Position) → HasAnchor anchors.items p →
        IsSome (value_at columns.now.spans p) ⊎ IsSome (value_at rows.now.spans p)) }
{
    let mut anchors = columns.anchors(alloc, rows)?;
    if !rows.holds_any() {
        return Ok(anchors);
    }
    let mut others = rows.anchors(alloc, columns)?;
    anchors.append(&mut others)?;
    anchors.sort_by_key(|anchor| anchor.position)?;
    anchors.dedup_by_key(|anchor| anchor.position);
    Ok(anchors)
}
