//! Laws over the definitions that the contracts cite.

ghost use Rattle.std.specs.Prelude.{◌≡◌, ◌↔◌, List, true};
ghost use Rattle.std.specs.FinMap.{FinMap};
ghost use Rattle.papergrid_tables.specs.BorderCalls.{BorderCall};
ghost use Rattle.papergrid_tables.specs.StoredBorders as borders;
ghost use Rattle.papergrid_tables.specs.StoredBorders.{StoredBorders, parts_of_borders};
ghost use Rattle.papergrid_tables.specs.BorderSame.{HoldTheSameBorders};
ghost use Rattle.papergrid_values.specs.MapKeys.{position_cmp};
ghost use Rattle.papergrid_tables.specs.Overrides as overrides;
ghost use Rattle.papergrid_tables.specs.Overrides.{StoredOffsets, HoldTheSame, OffsetCall};

use crate::{BorderTable, OffsetTable};

/// Any calls make a border table that has them as its history, and no other.
pub fn history_makes_borders<T>()
    ensures some { (calls : List (BorderCall T)) →
        (stored : StoredBorders T) × borders.HasBorderHistory calls stored }
    ensures only { (calls : List (BorderCall T)) (s t : StoredBorders T) →
        borders.HasBorderHistory calls s → borders.HasBorderHistory calls t → s ≡ t }
{}

/// Two border tables are equal exactly where they hold equal values, or none, for each part: for
/// all lines, in each part of the frame and of each line, and at each edge and corner.
pub fn equal_borders<T: PartialEq>()
    ensures { (s t : StoredBorders T) →
        (⟦<BorderTable<T> as PartialEq>⟧.eq s t ≡ true)
        ↔ HoldTheSameBorders T.eq (parts_of_borders s) (parts_of_borders t) }
{}

/// Two tables of overrides are equal exactly where they hold equal values, or none, at each
/// position and offset, however they keep them.
pub fn equal_overrides<T: PartialEq>()
    ensures { (s t : FinMap position_cmp (StoredOffsets T)) →
        (⟦<OffsetTable<T> as PartialEq>⟧.eq s t ≡ true) ↔ HoldTheSame T.eq s t }
{}

/// Two tables with the same history of calls are equal.
pub fn equal_tables_by_history<T: Eq>()
    ensures borders { (calls : List (BorderCall T)) (s t : StoredBorders T) →
        borders.HasBorderHistory calls s → borders.HasBorderHistory calls t →
        ⟦<BorderTable<T> as PartialEq>⟧.eq s t ≡ true }
    ensures overrides { (calls : List (OffsetCall T))
        (s t : FinMap position_cmp (StoredOffsets T)) →
        overrides.HasOverrideHistory calls s → overrides.HasOverrideHistory calls t →
        ⟦<OffsetTable<T> as PartialEq>⟧.eq s t ≡ true }
{}
