//! Laws over the definitions that the contracts cite.

ghost use Rattle.std.specs.Prelude.{◌≡◌, ◌↔◌, ℕ, IsTrue, List, true};
ghost use Rattle.papergrid_values.specs.declared.direction.Direction.{Direction};
ghost use Rattle.papergrid_values.specs.declared.position.Position.{Position};
ghost use Rattle.papergrid_maps.specs.Anchors.{AreAnchors};
ghost use Rattle.papergrid_maps.specs.Hidden.{IsHidden};
ghost use Rattle.papergrid_maps.specs.declared.anchors.Anchor.{Anchor};
ghost use Rattle.papergrid_maps.specs.declared.entity_map.MapCall.{MapCall};
ghost use Rattle.papergrid_maps.specs.declared.entity_map.Stopped.{Stopped};
ghost use Rattle.papergrid_maps.specs.declared.view.Paddings.{Paddings};
ghost use Rattle.papergrid_maps.specs.StoredSame.{HoldTheSameSpans, HoldTheSameValues};
ghost use Rattle.papergrid_maps.specs.EffectiveCall.{IsEffective};
ghost use Rattle.papergrid_maps.specs.StoredMap.{Stored, HasMapHistory, stored_value};
ghost use Rattle.papergrid_maps.specs.Spans as spans;
ghost use Rattle.papergrid_maps.specs.Spans.{IsEffectiveSpan, IsVisible, SpanCall, Spans, span_along};
ghost use Rattle.papergrid_maps.specs.Visible.{is_visible};

use crate::{Anchor, EntityMap, MapCall, Paddings, SpanTable, Stopped};

/// A map that was made with a value and has the calls as its history has at each position the
/// value that they decide.
pub fn history_decides<T>()
    ensures { (given : T) (calls : List (MapCall T)) (stored : Stored T) →
        HasMapHistory given calls stored →
        (position : Position) → IsEffective calls given position (stored_value stored position) }
{}

/// What is decided for a cell is what its deciding call says, by its index in the list: the last
/// override that counts, else the column's value that stands, else the row's, else the whole
/// table's, else the one given at first. There is such a value, and no other is.
pub fn one_effective_value<T>()
    ensures some { (given : T) (calls : List (MapCall T)) (position : Position) →
        (v : T) × IsEffective calls given position v }
    ensures only { (given : T) (calls : List (MapCall T)) (position : Position) (v w : T) →
        IsEffective calls given position v → IsEffective calls given position w → v ≡ w }
{}

/// Any calls make spans that have them as their history, and no others.
pub fn history_makes_spans()
    ensures some { (calls : List SpanCall) →
        (stored : Spans) × spans.HasSpanHistory calls stored }
    ensures only { (calls : List SpanCall) (s t : Spans) →
        spans.HasSpanHistory calls s → spans.HasSpanHistory calls t → s ≡ t }
{}

/// The span that calls decide is the one that their deciding call sets, by its index in the list:
/// the last of those that set it to 1 or more and of those that remove all spans of its direction.
/// There is such a span, and no other is.
pub fn one_effective_span()
    ensures some { (calls : List SpanCall) (d : Direction) (position : Position) →
        (n : ℕ) × IsEffectiveSpan d position calls n }
    ensures only { (calls : List SpanCall) (d : Direction) (position : Position) (m n : ℕ) →
        IsEffectiveSpan d position calls m → IsEffectiveSpan d position calls n → m ≡ n }
{}

/// A position passes the computed test of visibility exactly where it lies in no other anchor's
/// rectangle, whatever spans are stored.
pub fn visible_by_rectangles()
    ensures { (stored : Spans) (position : Position) →
        IsTrue (is_visible stored position) ↔ IsVisible (span_along stored) position }
{}

/// A position is visible exactly where no anchor of the spans hides it.
pub fn visible_where_not_hidden()
    ensures rectangles { (span : Direction → Position → ℕ) (anchors : List Anchor) (p : Position) →
        AreAnchors span anchors → (IsVisible span p ↔ (IsHidden anchors p → ⊥)) }
    ensures test { (spans : Spans) (anchors : List Anchor) (p : Position) →
        AreAnchors (span_along spans) anchors →
        (IsTrue (is_visible spans p) ↔ (IsHidden anchors p → ⊥)) }
{}

/// Two maps that were made with the same value and have the same history of calls are equal,
/// and so are two tables of spans with the same history of calls.
pub fn equal_maps_by_history<T: Eq>()
    ensures maps { (given : T) (calls : List (MapCall T)) (m n : Stored T) →
        HasMapHistory given calls m → HasMapHistory given calls n →
        ⟦<EntityMap<T> as PartialEq>⟧.eq m n ≡ true }
    ensures spans { (calls : List SpanCall) (s t : Spans) →
        spans.HasSpanHistory calls s → spans.HasSpanHistory calls t →
        ⟦<SpanTable as PartialEq>⟧.eq s t ≡ true }
{}

/// Two maps are equal exactly where they hold equal values, or none, for each entity.
pub fn equal_maps<T: PartialEq>()
    ensures { (m n : Stored T) →
        (⟦<EntityMap<T> as PartialEq>⟧.eq m n ≡ true) ↔ HoldTheSameValues T.eq m n }
{}

/// Two tables of spans are equal exactly where each position has the same spans in both. Two
/// anchors, paddings of a cell, and what two lists of calls that stopped say are equal where they
/// are the same.
pub fn equal_spans()
    ensures tables { (s t : Spans) →
        (⟦<SpanTable as PartialEq>⟧.eq s t ≡ true) ↔ HoldTheSameSpans s t }
    ensures anchors { (x y : Anchor) → (⟦<Anchor as PartialEq>⟧.eq x y ≡ true) ↔ (x ≡ y) }
    ensures stopped { (x y : Stopped) → (⟦<Stopped as PartialEq>⟧.eq x y ≡ true) ↔ (x ≡ y) }
    ensures paddings { (x y : Paddings) → (⟦<Paddings as PartialEq>⟧.eq x y ≡ true) ↔ (x ≡ y) }
{}

/// A clone of a call equals its original where clones of its value do, and so do clones of anchors,
/// of paddings and of what a list of calls that stopped says.
pub fn equal_clones<T: Clone>()
    requires { (x y : T) → T.is_clone x y → y ≡ x }
    ensures calls { (x y : MapCall T) → ⟦<MapCall<T> as Clone>⟧.is_clone x y → y ≡ x }
    ensures anchors { (x y : Anchor) → ⟦<Anchor as Clone>⟧.is_clone x y → y ≡ x }
    ensures stopped { (x y : Stopped) → ⟦<Stopped as Clone>⟧.is_clone x y → y ≡ x }
    ensures paddings { (x y : Paddings) → ⟦<Paddings as Clone>⟧.is_clone x y → y ≡ x }
{}
