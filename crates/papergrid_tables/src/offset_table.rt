//! Values at offsets of positions. Source: `config/spanned/mod.rs`.

ghost use Rattle.std.specs.Prelude.{◌≡◌, ◌∷◌, [], ◌↔◌, Some, None, ◌-◌, nat_eq, nat_lt, IsTrue, OnOk, OnErr, if◌then◌else◌, option_copied};
ghost use Rattle.std.specs.HashMap.{get as map_get};
ghost use Rattle.papergrid_values.specs.History.{AppendsHistory};
ghost use Rattle.papergrid_values.specs.declared.offset.Offset.{Offset};
ghost use Rattle.papergrid_values.specs.MapKeys.{position_eq};
ghost use Rattle.papergrid_tables.specs.ForProofs.Maps.{HoldsAsBefore};
ghost use Rattle.papergrid_tables.specs.ForProofs.OverrideScan.{AfterSet, AreSet};
ghost use Rattle.papergrid_tables.specs.Overrides.{IsOverridden, HasOverrideHistory, RemoveAll, RemoveAt, SetAt, at_offset, found_override, is_same_offset, override_at};

use papergrid_values::hashed::{remove, write};
use papergrid_values::{Offset, Position};
use std::alloc::{AllocError, Global};
use std::collections::HashMap;
use std::marker::Model;

/// A value for each offset of a position that has one.
#[derive(Debug)]
pub struct OffsetTable<T> {
    alloc: Global,
    overrides: HashMap<Position, Overrides<T>>,
}

// By hand: docs/DECISIONS.md, "Drops".
impl<T: Drop> Drop for OffsetTable<T> {
    fn drop(self) {
        let OffsetTable {
            alloc: _,
            overrides: _,
        } = self;
    }
}

// The values of one position, by offsets from either end.
#[derive(Debug)]
struct Overrides<T> {
    from_start: HashMap<usize, T>,
    from_end: HashMap<usize, T>,
}

impl<T: Drop> Drop for Overrides<T> {
    fn drop(self) {
        let Overrides {
            from_start: _,
            from_end: _,
        } = self;
    }
}

impl<T> Model for Overrides<T> {
    ghost use Rattle.std.specs.FinMap as map;
    ghost use Rattle.papergrid_tables.specs.Overrides.{StoredOffsets};
    ghost use Rattle.papergrid_tables.specs.ForProofs.OverrideScan.{offsets_code};

    ghost Value = { StoredOffsets T };

    ghost coded = { offsets_code T.code };

    ghost view = { λ s. record {
      from_start = map.from_entries s.from_start.entries;
      from_end = map.from_entries s.from_end.entries;
    } };
}

impl<T> Model for OffsetTable<T> {
    ghost use Rattle.std.specs.FinMap as map;
    ghost use Rattle.papergrid_values.specs.MapKeys.{position_cmp, coded_position};
    ghost use Rattle.papergrid_tables.specs.Overrides.{StoredOffsets};
    ghost use Rattle.papergrid_tables.specs.ForProofs.OverrideScan.{AreSet, offsets_code};

    ghost Value = { map.FinMap position_cmp (StoredOffsets T) };

    ghost coded = { map.code coded_position (offsets_code T.code) };

    ghost view = { λ t. map.from_entries t.overrides.entries };

    ghost invariant = { λ t. AreSet t.overrides.entries };
}

impl<T> Overrides<T> {
    fn new(alloc: Global) -> Self
        ensures { (o : Offset) → at_offset result o ≡ None }
    {
        Overrides {
            from_start: HashMap::new(alloc),
            from_end: HashMap::new(alloc),
        }
    }

    fn set(&mut self, offset: Offset, value: T) -> Result<(), AllocError>
    where
        T: Drop,
        ensures ok { OnOk result ((o : Offset) → at_offset self.new o
            ≡ (if is_same_offset offset o then Some value else at_offset self.old o)) }
        ensures err { OnErr result (self.new ≡ self.old) }
    {
        match offset {
            Offset::Start(n) => write(&mut self.from_start, n, value),
            Offset::End(n) => write(&mut self.from_end, n, value),
        }
    }

    fn lookup(&self, offset: usize, end: usize) -> Option<&T>
        ensures { option_copied result ≡ found_override (at_offset self.now) offset end }
    {
        self.from_start
            .get(&offset)
            .or(mirrored(&self.from_end, offset, end))
    }
}

impl<T> OffsetTable<T> {
    /// The table that holds nothing. It does not allocate.
    pub fn new(alloc: Global) -> Self
        ensures { HasOverrideHistory [] result }
    {
        OffsetTable {
            alloc,
            overrides: HashMap::new(alloc),
        }
    }

    /// The value of a position at an offset from the start, where the end stands so far from it:
    /// the one stored at this offset from the start, else the one stored for that character
    /// from the end, 0 being the last before it.
    pub fn lookup(&self, position: Position, offset: usize, end: usize) -> Option<&T>
        ensures { option_copied result ≡ found_override (override_at self.now position) offset end }
    {
        match self.overrides.get(&position) {
            Some(overrides) => overrides.lookup(offset, end),
            None => None,
        }
    }

    /// Whether a value is stored for a position.
    pub fn is_overridden(&self, position: Position) -> bool
        ensures { IsTrue result ↔ IsOverridden self.now position }
    {
        self.overrides.contains_key(&position)
    }

    /// Whether no value is stored.
    pub fn is_empty(&self) -> bool
        ensures { IsTrue result ↔ HasOverrideHistory [] self.now }
    {
        self.overrides.is_empty()
    }
}

impl<T: Drop> OffsetTable<T> {
    /// Sets the value of a position at an offset. Where an allocation fails the table is as it was.
    pub fn set(&mut self, position: Position, offset: Offset, value: T) -> Result<(), AllocError>
        ensures ok { OnOk result (AppendsHistory HasOverrideHistory self.old self.new
            (SetAt position offset value ∷ [])) }
        ensures err { OnErr result (self.new ≡ self.old) }
    {
        set_override(self.alloc, &mut self.overrides, position, offset, value)
    }

    /// Removes all values of a position.
    pub fn remove(&mut self, position: Position)
        ensures { AppendsHistory HasOverrideHistory self.old self.new (RemoveAt position ∷ []) }
    {
        remove(&mut self.overrides, position);
    }

    /// Removes all values.
    pub fn clear(&mut self)
        ensures { AppendsHistory HasOverrideHistory self.old self.new (RemoveAll ∷ []) }
    {
        self.overrides.clear();
    }
}

impl<T: Clone> Clone for Overrides<T> {
    ghost use Rattle.papergrid_tables.specs.ForProofs.OverrideScan.{IsCopy};

    // It has values at the same offsets, and is like its original where clones of the values are.
    ghost is_clone = { λ s t. IsCopy T.is_clone s t };

    fn clone(&self) -> Result<Overrides<T>, AllocError> {
        Ok(Overrides {
            from_start: self.from_start.clone()?,
            from_end: self.from_end.clone()?,
        })
    }
}

impl<T: Clone> Clone for OffsetTable<T> {
    // It is like its original where clones of the values are.
    ghost is_clone = { λ s t. ((x y : T) → T.is_clone x y → y ≡ x) → t ≡ s };

    fn clone(&self) -> Result<OffsetTable<T>, AllocError> {
        Ok(OffsetTable {
            alloc: self.alloc,
            overrides: self.overrides.clone()?,
        })
    }
}

impl<T: PartialEq> PartialEq for Overrides<T> {
    ghost use Rattle.papergrid_tables.specs.ForProofs.OffsetEq.{offsets_eq, offsets_eq_laws};

    ghost eq = { offsets_eq T.eq };

    ghost laws = { offsets_eq_laws T.eq T.laws };

    fn eq(&self, other: &Overrides<T>) -> bool {
        let from_start = self.from_start == other.from_start;
        let from_end = self.from_end == other.from_end;
        from_start & from_end
    }
}

impl<T: PartialEq> PartialEq for OffsetTable<T> {
    ghost use Rattle.papergrid_tables.specs.ForProofs.OffsetEq.{overrides_eq, overrides_eq_laws};

    ghost eq = { overrides_eq T.eq };

    ghost laws = { overrides_eq_laws T.eq T.laws };

    fn eq(&self, other: &OffsetTable<T>) -> bool {
        self.overrides == other.overrides
    }
}

// Sets one value among those of its position, which are made where there are none.
fn set_override<T: Drop>(
    alloc: Global,
    overrides: &mut HashMap<Position, Overrides<T>>,
    position: Position,
    offset: Offset,
    value: T,
) -> Result<(), AllocError>
    ensures ok { OnOk result (AfterSet position offset value
        (map_get position_eq overrides.old) (map_get position_eq overrides.new)) }
    ensures err { OnErr result (HoldsAsBefore overrides.old overrides.new) }
{
    if let Some(stored) = overrides.get_mut(&position) {
        return stored.set(offset, value);
    }
    let mut stored = Overrides::new(alloc);
    stored.set(offset, value)?;
    write(overrides, position, stored)
}

// The value at an offset from the start of an end, counted from that end.
fn mirrored<T>(from_end: &HashMap<usize, T>, offset: usize, end: usize) -> Option<&T>
    ensures { option_copied result
        ≡ (if nat_lt offset end then map_get nat_eq from_end.now (end - offset - 1) else None) }
{
    if offset < end {
        from_end.get(&(end - offset - 1))
    } else {
        None
    }
}
