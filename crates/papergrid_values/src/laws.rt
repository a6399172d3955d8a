//! Laws over the definitions that the contracts cite.

ghost use Rattle.std.specs.Prelude.{◌≡◌, ◌<◌, ◌≤◌, ◌⊎◌, ◌↔◌, [], ◌∷◌, ◌++◌, ℕ, All, AllPairs, None, false, pos, true};
ghost use Rattle.std.specs.Cmp.Lexicographic.{slice_cmp, pointwise};
ghost use Rattle.std.specs.Hash as fed;
ghost use Rattle.std.specs.List.{flat_map, list_all};
ghost use Rattle.std.specs.Option.{option_cmp, option_eq};
ghost use Rattle.std.specs.Ordering.{nat_cmp};
ghost use Rattle.papergrid_values.specs.declared.entity.Entity.TheVariants.{Global};
ghost use Rattle.papergrid_values.specs.declared.position.Position.{Position};
ghost use Rattle.papergrid_values.specs.declared.alignment.AlignmentHorizontal.{AlignmentHorizontal};
ghost use Rattle.papergrid_values.specs.declared.alignment.AlignmentVertical.{AlignmentVertical};
ghost use Rattle.papergrid_values.specs.declared.ansi_buf.ANSIBuf.{ANSIBuf};
ghost use Rattle.papergrid_values.specs.declared.ansi_str.ANSIStr.{ANSIStr};
ghost use Rattle.papergrid_values.specs.declared.border.Border.{Border};
ghost use Rattle.papergrid_values.specs.declared.borders.Borders.{Borders};
ghost use Rattle.papergrid_values.specs.declared.horizontal_line.HorizontalLine.{HorizontalLine};
ghost use Rattle.papergrid_values.specs.declared.sides.Sides.{Sides};
ghost use Rattle.papergrid_values.specs.declared.vertical_line.VerticalLine.{VerticalLine};
ghost use Rattle.papergrid_values.specs.declared.colors.NoColor.{NoColor};
ghost use Rattle.papergrid_values.specs.declared.colors.NoColors.{NoColors};
ghost use Rattle.papergrid_values.specs.declared.compact.CompactConfig.{CompactConfig};
ghost use Rattle.papergrid_values.specs.declared.direction.Direction.{Direction};
ghost use Rattle.papergrid_values.specs.declared.entity.Entity.{Entity};
ghost use Rattle.papergrid_values.specs.declared.entity_iterator.EntityIterator.{EntityIterator};
ghost use Rattle.papergrid_values.specs.declared.indent.Indent.{Indent};
ghost use Rattle.papergrid_values.specs.declared.formatting.Formatting.{Formatting};
ghost use Rattle.papergrid_values.specs.declared.offset.Offset.{Offset};
ghost use Rattle.papergrid_values.specs.declared.per_direction.PerDirection.{PerDirection};
ghost use Rattle.papergrid_values.specs.Borders.{border_parts, frame_parts, frame_with};
ghost use Rattle.papergrid_values.specs.Entities.{positions};
ghost use Rattle.papergrid_values.specs.Lines.{horizontal_parts, horizontal_with, vertical_parts, vertical_with};
ghost use Rattle.papergrid_values.specs.Colors.{texts_of, texts_cmp};
ghost use Rattle.papergrid_values.specs.Compact.{IsNew, first_difference};
ghost use Rattle.papergrid_values.specs.Keys.{sides_parts, formatting_flags};
ghost use Rattle.papergrid_values.specs.Keys.{entity_key, offset_key, horizontal_rank, vertical_rank};
ghost use Rattle.papergrid_values.specs.Writes.{key_fed, texts_fed};
ghost use Rattle.papergrid_values.specs.Positions.{IsBefore, count_of};

use crate::{
    ANSIBuf, ANSIFmt, ANSIStr, AlignmentHorizontal, AlignmentVertical, Border, Borders, Colors,
    CompactConfig, Direction, Entity, EntityIterator, Formatting, HorizontalLine, Indent, NoColor,
    NoColors, Offset, PerDirection, Position, Sides, VerticalLine,
};
use std::cmp::Ordering;
use std::hash::Hash;

/// The positions of a whole table: each position with a row and a column below the counts stands
/// there exactly once, nothing else does, and they rise by row and then by column.
pub fn global_positions()
    ensures once { (rows cols : ℕ) (p : Position) → p.row < rows → p.col < cols →
        count_of p (positions Global rows cols) ≡ 1 }
    ensures nothing_else { (rows cols : ℕ) (p : Position) → (rows ≤ p.row) ⊎ (cols ≤ p.col) →
        count_of p (positions Global rows cols) ≡ 0 }
    ensures rising { (rows cols : ℕ) → AllPairs IsBefore (positions Global rows cols) }
{}

/// A clone of a border, of a frame, of a line, of four sides or of both directions equals its
/// original where clones of the parts equal theirs.
pub fn equal_clones<T: Clone>()
    requires { (x y : T) → T.is_clone x y → y ≡ x }
    ensures both { (x y : PerDirection T) →
        ⟦<PerDirection<T> as Clone>⟧.is_clone x y → y ≡ x }
    ensures sides { (x y : Sides T) → ⟦<Sides<T> as Clone>⟧.is_clone x y → y ≡ x }
    ensures borders { (x y : Border T) → ⟦<Border<T> as Clone>⟧.is_clone x y → y ≡ x }
    ensures frames { (x y : Borders T) → ⟦<Borders<T> as Clone>⟧.is_clone x y → y ≡ x }
    ensures horizontal_lines { (x y : HorizontalLine T) →
        ⟦<HorizontalLine<T> as Clone>⟧.is_clone x y → y ≡ x }
    ensures vertical_lines { (x y : VerticalLine T) →
        ⟦<VerticalLine<T> as Clone>⟧.is_clone x y → y ≡ x }
{}

/// A clone of any other value, and of a walk over positions, equals its original.
pub fn equal_clones_of_values()
    ensures positions { (x y : Position) → ⟦<Position as Clone>⟧.is_clone x y → y ≡ x }
    ensures entities { (x y : Entity) → ⟦<Entity as Clone>⟧.is_clone x y → y ≡ x }
    ensures walks { (x y : EntityIterator) → ⟦<EntityIterator as Clone>⟧.is_clone x y → y ≡ x }
    ensures directions { (x y : Direction) → ⟦<Direction as Clone>⟧.is_clone x y → y ≡ x }
    ensures indents { (x y : Indent) → ⟦<Indent as Clone>⟧.is_clone x y → y ≡ x }
    ensures offsets { (x y : Offset) → ⟦<Offset as Clone>⟧.is_clone x y → y ≡ x }
    ensures flags { (x y : Formatting) → ⟦<Formatting as Clone>⟧.is_clone x y → y ≡ x }
    ensures across { (x y : AlignmentHorizontal) →
        ⟦<AlignmentHorizontal as Clone>⟧.is_clone x y → y ≡ x }
    ensures down { (x y : AlignmentVertical) →
        ⟦<AlignmentVertical as Clone>⟧.is_clone x y → y ≡ x }
    ensures borrowed_colors { (x y : ANSIStr) →
        ⟦<ANSIStr<'static> as Clone>⟧.is_clone x y → y ≡ x }
    ensures colors { (x y : ANSIBuf) → ⟦<ANSIBuf as Clone>⟧.is_clone x y → y ≡ x }
{}

/// Values with parts of one type are ordered by the first part that differs, in the order of their
/// fields. A part that is not set stands before one that is.
pub fn ordered_by_parts<T: Ord>()
    ensures sides { (x y : Sides T) →
        ⟦<Sides<T> as Ord>⟧.cmp x y ≡ slice_cmp T.cmp (sides_parts x) (sides_parts y) }
    ensures borders { (x y : Border T) →
        ⟦<Border<T> as Ord>⟧.cmp x y
        ≡ slice_cmp (option_cmp T.cmp) (border_parts x) (border_parts y) }
    ensures frames { (x y : Borders T) →
        ⟦<Borders<T> as Ord>⟧.cmp x y
        ≡ slice_cmp (option_cmp T.cmp) (frame_parts x) (frame_parts y) }
    ensures horizontal_lines { (x y : HorizontalLine T) →
        ⟦<HorizontalLine<T> as Ord>⟧.cmp x y
        ≡ slice_cmp (option_cmp T.cmp) (horizontal_parts x) (horizontal_parts y) }
    ensures vertical_lines { (x y : VerticalLine T) →
        ⟦<VerticalLine<T> as Ord>⟧.cmp x y
        ≡ slice_cmp (option_cmp T.cmp) (vertical_parts x) (vertical_parts y) }
{}

/// Values with parts of one type are equal where each part equals the other's.
pub fn equal_by_parts<T: PartialEq>()
    ensures both { (x y : PerDirection T) →
        ⟦<PerDirection<T> as PartialEq>⟧.eq x y
        ≡ pointwise T.eq (x.columns ∷ x.rows ∷ []) (y.columns ∷ y.rows ∷ []) }
    ensures sides { (x y : Sides T) →
        ⟦<Sides<T> as PartialEq>⟧.eq x y ≡ pointwise T.eq (sides_parts x) (sides_parts y) }
    ensures borders { (x y : Border T) →
        ⟦<Border<T> as PartialEq>⟧.eq x y
        ≡ pointwise (option_eq T.eq) (border_parts x) (border_parts y) }
    ensures frames { (x y : Borders T) →
        ⟦<Borders<T> as PartialEq>⟧.eq x y
        ≡ pointwise (option_eq T.eq) (frame_parts x) (frame_parts y) }
    ensures horizontal_lines { (x y : HorizontalLine T) →
        ⟦<HorizontalLine<T> as PartialEq>⟧.eq x y
        ≡ pointwise (option_eq T.eq) (horizontal_parts x) (horizontal_parts y) }
    ensures vertical_lines { (x y : VerticalLine T) →
        ⟦<VerticalLine<T> as PartialEq>⟧.eq x y
        ≡ pointwise (option_eq T.eq) (vertical_parts x) (vertical_parts y) }
{}

/// Values with parts of one type hash the parts, in the order of their fields.
pub fn hashed_by_parts<T: Hash>()
    ensures sides { (x : Sides T) →
        ⟦<Sides<T> as Hash>⟧.hash_input x ≡ flat_map T.hash_input (sides_parts x) }
    ensures borders { (x : Border T) →
        ⟦<Border<T> as Hash>⟧.hash_input x ≡ flat_map (fed.option T.hash_input) (border_parts x) }
    ensures frames { (x : Borders T) →
        ⟦<Borders<T> as Hash>⟧.hash_input x ≡ flat_map (fed.option T.hash_input) (frame_parts x) }
    ensures horizontal_lines { (x : HorizontalLine T) →
        ⟦<HorizontalLine<T> as Hash>⟧.hash_input x
        ≡ flat_map (fed.option T.hash_input) (horizontal_parts x) }
    ensures vertical_lines { (x : VerticalLine T) →
        ⟦<VerticalLine<T> as Hash>⟧.hash_input x
        ≡ flat_map (fed.option T.hash_input) (vertical_parts x) }
{}

/// The other values are ordered likewise: positions by row and column, entities and offsets by
/// kind and then by numbers, indents by character and size, flags of formatting in the order of
/// the fields, alignments as they are listed, colours by prefix and suffix.
pub fn ordered_by_fields()
    ensures positions { (p q : Position) →
        (⟦<Position as Ord>⟧.cmp p q ≡ Ordering.Less) ↔ IsBefore p q }
    ensures entities { (x y : Entity) →
        ⟦<Entity as Ord>⟧.cmp x y ≡ slice_cmp nat_cmp (entity_key x) (entity_key y) }
    ensures offsets { (x y : Offset) →
        ⟦<Offset as Ord>⟧.cmp x y ≡ slice_cmp nat_cmp (offset_key x) (offset_key y) }
    ensures indents { (x y : Indent) →
        ⟦<Indent as Ord>⟧.cmp x y
        ≡ slice_cmp nat_cmp (x.fill ∷ x.size ∷ []) (y.fill ∷ y.size ∷ []) }
    ensures flags { (x y : Formatting) →
        ⟦<Formatting as Ord>⟧.cmp x y
        ≡ slice_cmp ⟦<bool as Ord>⟧.cmp (formatting_flags x) (formatting_flags y) }
    ensures across { (x y : AlignmentHorizontal) →
        ⟦<AlignmentHorizontal as Ord>⟧.cmp x y ≡ nat_cmp (horizontal_rank x) (horizontal_rank y) }
    ensures down { (x y : AlignmentVertical) →
        ⟦<AlignmentVertical as Ord>⟧.cmp x y ≡ nat_cmp (vertical_rank x) (vertical_rank y) }
    ensures borrowed_colors { (x y : ANSIStr) →
        ⟦<ANSIStr<'static> as Ord>⟧.cmp x y ≡ texts_cmp (texts_of x) (texts_of y) }
    ensures colors { (x y : ANSIBuf) → ⟦<ANSIBuf as Ord>⟧.cmp x y ≡ texts_cmp x y }
{}

/// Two directions are equal where they are the same.
pub fn equal_directions()
    ensures { (x y : Direction) → (⟦<Direction as PartialEq>⟧.eq x y ≡ true) ↔ (x ≡ y) }
{}

/// The other values hash likewise: positions the row and then the column, entities and offsets the
/// kind and then the numbers, indents the character and then the size, flags of formatting in the
/// order of the fields, alignments their index in the list, colours the prefix and then the suffix.
pub fn hashed_by_fields()
    ensures positions { (p : Position) →
        ⟦<Position as Hash>⟧.hash_input p ≡ flat_map fed.usize (p.row ∷ p.col ∷ []) }
    ensures entities { (x : Entity) → ⟦<Entity as Hash>⟧.hash_input x ≡ key_fed (entity_key x) }
    ensures offsets { (x : Offset) → ⟦<Offset as Hash>⟧.hash_input x ≡ key_fed (offset_key x) }
    ensures indents { (x : Indent) →
        ⟦<Indent as Hash>⟧.hash_input x ≡ fed.char x.fill ++ fed.usize x.size }
    ensures flags { (x : Formatting) →
        ⟦<Formatting as Hash>⟧.hash_input x ≡ flat_map fed.bool (formatting_flags x) }
    ensures across { (x : AlignmentHorizontal) →
        ⟦<AlignmentHorizontal as Hash>⟧.hash_input x ≡ fed.isize (pos (horizontal_rank x)) }
    ensures down { (x : AlignmentVertical) →
        ⟦<AlignmentVertical as Hash>⟧.hash_input x ≡ fed.isize (pos (vertical_rank x)) }
    ensures borrowed_colors { (x : ANSIStr) →
        ⟦<ANSIStr<'static> as Hash>⟧.hash_input x ≡ texts_fed (texts_of x) }
    ensures colors { (x : ANSIBuf) → ⟦<ANSIBuf as Hash>⟧.hash_input x ≡ texts_fed x }
{}

/// The default is the plain value: the first position, no room, no flag, no text, no part set, and
/// four sides that are each the default of their type. That of a compact configuration is a new one.
pub fn plain_defaults<T: Default>()
    ensures positions { (p : Position) →
        ⟦<Position as Default>⟧.is_default p → p ≡ record { row = 0; col = 0 } }
    ensures indents { (x : Indent) →
        ⟦<Indent as Default>⟧.is_default x → x ≡ record { fill = 32; size = 0 } }
    ensures flags { (x : Formatting) →
        ⟦<Formatting as Default>⟧.is_default x → All (λ flag. flag ≡ false) (formatting_flags x) }
    ensures colors { (x : ANSIStr) →
        ⟦<ANSIStr<'static> as Default>⟧.is_default x → texts_of x ≡ ([], []) }
    ensures sides { (x : Sides T) →
        ⟦<Sides<T> as Default>⟧.is_default x → All T.is_default (sides_parts x) }
    ensures borders { (x : Border T) →
        ⟦<Border<T> as Default>⟧.is_default x → All (λ part. part ≡ None) (border_parts x) }
    ensures frames { (x : Borders T) →
        ⟦<Borders<T> as Default>⟧.is_default x → x ≡ frame_with None }
    ensures horizontal_lines { (x : HorizontalLine T) →
        ⟦<HorizontalLine<T> as Default>⟧.is_default x → x ≡ horizontal_with None }
    ensures vertical_lines { (x : VerticalLine T) →
        ⟦<VerticalLine<T> as Default>⟧.is_default x → x ≡ vertical_with None }
    ensures compact { (x : CompactConfig) → ⟦<CompactConfig as Default>⟧.is_default x → IsNew x }
{}

/// A reference to a colour tells the texts that the colour tells, and is held to them as it is.
pub fn colors_by_reference<C: ANSIFmt>()
    ensures prefix { (x : _) → ⟦<&'static C as ANSIFmt>⟧.prefix_text x ≡ C.prefix_text x.now }
    ensures suffix { (x : _) → ⟦<&'static C as ANSIFmt>⟧.suffix_text x ≡ C.suffix_text x.now }
{}

/// Colours that are empty have none at any position.
pub fn empty_colors<C: Colors>()
    ensures { (colors : C) (position : Position) → C.is_blank colors →
        C.color_at colors position ≡ None }
{}

/// Compact configurations are ordered by the first field that differs, in this order: the frame,
/// its colours, the margin, its colours, the padding, its colours, the alignment. They are equal
/// where each field is, hash their fields in this order, and equal their clones.
pub fn compact_by_fields()
    ensures ordered { (x y : CompactConfig) →
        ⟦<CompactConfig as Ord>⟧.cmp x y ≡ first_difference (
        ⟦<Borders<char> as Ord>⟧.cmp x.borders y.borders
        ∷ ⟦<Borders<ANSIStr<'static>> as Ord>⟧.cmp x.border_colors y.border_colors
        ∷ ⟦<Sides<Indent> as Ord>⟧.cmp x.margin y.margin
        ∷ ⟦<Sides<ANSIStr<'static>> as Ord>⟧.cmp x.margin_color y.margin_color
        ∷ ⟦<Sides<Indent> as Ord>⟧.cmp x.padding y.padding
        ∷ ⟦<Sides<ANSIStr<'static>> as Ord>⟧.cmp x.padding_color y.padding_color
        ∷ ⟦<AlignmentHorizontal as Ord>⟧.cmp x.alignment y.alignment ∷ []) }
    ensures equal { (x y : CompactConfig) →
        ⟦<CompactConfig as PartialEq>⟧.eq x y ≡ list_all (λ same. same) (
        ⟦<Borders<char> as PartialEq>⟧.eq x.borders y.borders
        ∷ ⟦<Borders<ANSIStr<'static>> as PartialEq>⟧.eq x.border_colors y.border_colors
        ∷ ⟦<Sides<Indent> as PartialEq>⟧.eq x.margin y.margin
        ∷ ⟦<Sides<ANSIStr<'static>> as PartialEq>⟧.eq x.margin_color y.margin_color
        ∷ ⟦<Sides<Indent> as PartialEq>⟧.eq x.padding y.padding
        ∷ ⟦<Sides<ANSIStr<'static>> as PartialEq>⟧.eq x.padding_color y.padding_color
        ∷ ⟦<AlignmentHorizontal as PartialEq>⟧.eq x.alignment y.alignment ∷ []) }
    ensures hashed { (x : CompactConfig) →
        ⟦<CompactConfig as Hash>⟧.hash_input x
        ≡ ⟦<Borders<char> as Hash>⟧.hash_input x.borders
        ++ ⟦<Borders<ANSIStr<'static>> as Hash>⟧.hash_input x.border_colors
        ++ ⟦<Sides<Indent> as Hash>⟧.hash_input x.margin
        ++ ⟦<Sides<ANSIStr<'static>> as Hash>⟧.hash_input x.margin_color
        ++ ⟦<Sides<Indent> as Hash>⟧.hash_input x.padding
        ++ ⟦<Sides<ANSIStr<'static>> as Hash>⟧.hash_input x.padding_color
        ++ ⟦<AlignmentHorizontal as Hash>⟧.hash_input x.alignment }
    ensures cloned { (x y : CompactConfig) → ⟦<CompactConfig as Clone>⟧.is_clone x y → y ≡ x }
{}

/// There is one value of no colour, and one of no colours: each equals itself, and hashes nothing.
pub fn one_value_each()
    ensures no_color { (x y : NoColor) → ⟦<NoColor as PartialEq>⟧.eq x y ≡ true }
    ensures no_color_ordered { (x y : NoColor) → ⟦<NoColor as Ord>⟧.cmp x y ≡ Ordering.Equal }
    ensures no_color_hashed { (x : NoColor) → ⟦<NoColor as Hash>⟧.hash_input x ≡ [] }
    ensures no_colors { (x y : NoColors) → ⟦<NoColors as PartialEq>⟧.eq x y ≡ true }
    ensures no_colors_ordered { (x y : NoColors) → ⟦<NoColors as Ord>⟧.cmp x y ≡ Ordering.Equal }
    ensures no_colors_hashed { (x : NoColors) → ⟦<NoColors as Hash>⟧.hash_input x ≡ [] }
{}
