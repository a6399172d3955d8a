//! Spans, and which cells they hide. Source: `config/spanned/mod.rs`.

ghost use Rattle.std.specs.Prelude.{◌≡◌, ◌↔◌, ◌<◌, ◌≤◌, ◌⊎◌, All, AllPairs, OnOk, OnErr, IfOk, IfSome, IsOk, IsSome, IsTrue};
ghost use Rattle.std.specs.FinMap.{get as value_at};
ghost use Rattle.papergrid_values.specs.Positions.{AreRising};
ghost use Rattle.papergrid_values.specs.declared.direction.Direction.{Direction};
ghost use Rattle.papergrid_values.specs.declared.position.Position.{Position};
ghost use Rattle.papergrid_values.specs.MapKeys.{position_eq};
ghost use Rattle.papergrid_maps.specs.Anchors.{AreAnchors, HasAnchor, IsSorted};
ghost use Rattle.papergrid_maps.specs.Listed.{HasAtEach};
ghost use Rattle.papergrid_maps.specs.Spans.{EndWithin, HasSpan, IsCoveredByBoth, IsCoveredByColumn, IsCoveredByRow, IsVisible, span_along, spans_along};
ghost use Rattle.papergrid_maps.specs.Visible.{is_visible};
ghost use Rattle.papergrid_config.specs.History.{AddsSetting};
ghost use Rattle.papergrid_config.specs.declared.setting.Setting.TheVariants.{SetColumnSpan, SetRowSpan, RemoveColumnSpans, RemoveRowSpans};

use crate::spanned::SpannedConfig;
use papergrid_maps::Anchor;
use papergrid_values::{Direction, Position};
use std::alloc::AllocError;
use std::collections::HashMap;

// The rectangle of an anchor at (r, c) has the rows from r up to r + row span, and the columns from
// c up to c + column span, however large these sums are. A span that is not stored is 1.
impl SpannedConfig {
    /// Sets the number of columns that a cell spans: 0 does nothing and 1 removes the span that is
    /// stored, so that neither allocates or fails. Where an allocation fails the configuration is
    /// as it was.
    pub fn set_column_span(&mut self, position: Position, span: usize) -> Result<(), AllocError>
        ensures ok { OnOk result (AddsSetting self.old self.new (SetColumnSpan position span)) }
        ensures err { OnErr result (self.new ≡ self.old) }
        ensures small { span < 2 → IsOk result }
        ensures others { self.new ≡ record self.old {
          spans = record self.old.spans { columns = self.new.spans.columns };
        } }
    {
        self.spans.set_column(position, span)
    }

    /// Sets the number of rows that a cell spans: 0 does nothing and 1 removes the span that is
    /// stored, so that neither allocates or fails. Where an allocation fails the configuration is
    /// as it was.
    pub fn set_row_span(&mut self, position: Position, span: usize) -> Result<(), AllocError>
        ensures ok { OnOk result (AddsSetting self.old self.new (SetRowSpan position span)) }
        ensures err { OnErr result (self.new ≡ self.old) }
        ensures small { span < 2 → IsOk result }
        ensures others { self.new ≡ record self.old {
          spans = record self.old.spans { rows = self.new.spans.rows };
        } }
    {
        self.spans.set_row(position, span)
    }

    /// The column span stored at a position, of 2 or more: a number of columns.
    pub fn get_column_span(&self, position: Position) -> Option<usize>
        ensures stored { result ≡ value_at self.now.spans.columns position }
        ensures from_two { IfSome result (λ n. 2 ≤ n) }
    {
        self.spans.get_column(position)
    }

    /// The row span stored at a position, of 2 or more: a number of rows.
    pub fn get_row_span(&self, position: Position) -> Option<usize>
        ensures stored { result ≡ value_at self.now.spans.rows position }
        ensures from_two { IfSome result (λ n. 2 ≤ n) }
    {
        self.spans.get_row(position)
    }

    /// All column spans that are stored, or out of memory.
    pub fn get_column_spans(&self) -> Result<HashMap<Position, usize>, AllocError>
        ensures { IfOk result (λ all. HasAtEach position_eq all (value_at self.now.spans.columns)) }
    {
        self.spans.columns()
    }

    /// All row spans that are stored, or out of memory.
    pub fn get_row_spans(&self) -> Result<HashMap<Position, usize>, AllocError>
        ensures { IfOk result (λ all. HasAtEach position_eq all (value_at self.now.spans.rows)) }
    {
        self.spans.rows()
    }

    /// An anchor for each position that holds a span, by row and then by column, or out of memory.
    pub fn anchors(&self) -> Result<Vec<Anchor>, AllocError>
        ensures sorted { IfOk result (λ anchors. IsSorted anchors.items) }
        ensures spans { IfOk result (λ anchors.
            AreAnchors (span_along self.now.spans) anchors.items) }
        ensures stored { IfOk result (λ anchors. (p : Position) → HasAnchor anchors.items p →
            IsSome (value_at self.now.spans.columns p) ⊎ IsSome (value_at self.now.spans.rows p)) }
        ensures from_one { (d : Direction) (p : Position) → 1 ≤ span_along self.now.spans d p }
    {
        self.spans.anchors()
    }

    /// Whether each span of the direction that is stored ends within so many tracks, wherever its
    /// position stands in the other direction. It does not allocate.
    pub fn spans_end_within(&self, direction: Direction, count: usize) -> bool
        ensures ends { IsTrue result
            ↔ EndWithin direction (spans_along direction self.now.spans) count }
        ensures from_one { (p : Position) → 1 ≤ span_along self.now.spans direction p }
    {
        self.spans.end_within(direction, count)
    }

    /// Whether a column span is stored.
    pub fn has_column_spans(&self) -> bool
        ensures { IsTrue result ↔ HasSpan self.now.spans.columns }
    {
        self.spans.has_columns()
    }

    /// Whether a row span is stored.
    pub fn has_row_spans(&self) -> bool
        ensures { IsTrue result ↔ HasSpan self.now.spans.rows }
    {
        self.spans.has_rows()
    }

    /// Removes all column spans.
    pub fn remove_column_spans(&mut self)
        ensures told { AddsSetting self.old self.new RemoveColumnSpans }
        ensures others { self.new ≡ record self.old {
          spans = record self.old.spans { columns = self.new.spans.columns };
        } }
    {
        self.spans.remove_columns();
    }

    /// Removes all row spans.
    pub fn remove_row_spans(&mut self)
        ensures told { AddsSetting self.old self.new RemoveRowSpans }
        ensures others { self.new ≡ record self.old {
          spans = record self.old.spans { rows = self.new.spans.rows };
        } }
    {
        self.spans.remove_rows();
    }

    /// Whether the position lies in no rectangle of another anchor. An anchor need not be a cell
    /// of the table, and a hidden one still hides.
    pub fn is_cell_visible(&self, position: Position) -> bool
        ensures visible { IsTrue result ↔ IsVisible (span_along self.now.spans) position }
        ensures test { result ≡ is_visible self.now.spans position }
    {
        self.spans.is_visible(position)
    }

    /// Whether all of the positions are visible. Each span is looked at once. Condition: the columns
    /// of the positions rise, or their rows, as `direction` says.
    pub fn are_cells_visible(&self, direction: Direction, positions: &[Position]) -> bool
        requires { AllPairs (AreRising direction) positions.now }
        ensures { IsTrue result ↔ All (λ p. IsTrue (is_visible self.now.spans p)) positions.now }
    {
        self.spans.are_visible(direction, positions)
    }

    /// Whether the position stands right of an anchor, in its row and its rectangle.
    pub fn is_cell_covered_by_column_span(&self, position: Position) -> bool
        ensures { IsTrue result ↔ IsCoveredByColumn (span_along self.now.spans) position }
    {
        self.spans.covered_by_column(position)
    }

    /// Whether the position stands below an anchor, in its column and its rectangle.
    pub fn is_cell_covered_by_row_span(&self, position: Position) -> bool
        ensures { IsTrue result ↔ IsCoveredByRow (span_along self.now.spans) position }
    {
        self.spans.covered_by_row(position)
    }

    /// Whether the position stands below and right of an anchor, in its rectangle.
    pub fn is_cell_covered_by_both_spans(&self, position: Position) -> bool
        ensures { IsTrue result ↔ IsCoveredByBoth (span_along self.now.spans) position }
    {
        self.spans.covered_by_both(position)
    }
}
