//! Edges and corners by position, with how many of them stand on each line.

ghost use Rattle.std.specs.Prelude.{◌≡◌, ◌+◌, ◌<◌, ◌≤◌, ◌^◌, ◌==◌, ◌&&◌, [], ℕ, OnOk};
ghost use Rattle.std.specs.HashMap.{spare, keys};
ghost use Rattle.papergrid_values.specs.Positions.{along};
ghost use Rattle.papergrid_values.specs.declared.direction.Direction.{Direction};
ghost use Rattle.papergrid_tables.specs.BorderCalls.{at_position};
ghost use Rattle.papergrid_tables.specs.ForProofs.CountedParts.{AreEdgesCounted, AreCornersCounted, HasEdgeRoom, HasCornerRoom};
ghost use Rattle.papergrid_tables.specs.ForProofs.Counts.{number_on, one_if};
ghost use Rattle.papergrid_tables.specs.ForProofs.Maps.{Gains, HoldsAsBefore, Loses};
ghost use Rattle.papergrid_values.specs.MapKeys.{position_eq};

use crate::line_counts::LineCounts;
use papergrid_values::{Direction, Position};
use std::alloc::{AllocError, Global};
use std::collections::HashMap;

/// Edges by position, and how many of them stand on each line of one direction.
#[derive(Debug, Clone)]
pub(crate) struct Edges<T> {
    pub(crate) values: HashMap<Position, T>,
    pub(crate) on_lines: LineCounts,
}

// By hand: docs/DECISIONS.md, "Drops".
impl<T: Drop> Drop for Edges<T> {
    fn drop(self) {
        let Edges {
            values: _,
            on_lines: _,
        } = self;
    }
}

/// Corners by position, and how many of them stand in each row and in each column.
#[derive(Debug, Clone)]
pub(crate) struct Corners<T> {
    pub(crate) values: HashMap<Position, T>,
    pub(crate) in_rows: LineCounts,
    pub(crate) in_columns: LineCounts,
}

impl<T: Drop> Drop for Corners<T> {
    fn drop(self) {
        let Corners {
            values: _,
            in_rows: _,
            in_columns: _,
        } = self;
    }
}

impl<T> Edges<T> {
    /// No edge. It does not allocate.
    pub(crate) fn new(alloc: Global) -> Self
        ensures empty { result.values.entries ≡ [] }
        ensures counted { (direction : Direction) → AreEdgesCounted direction result }
    {
        Edges {
            values: HashMap::new(alloc),
            on_lines: LineCounts::new(alloc),
        }
    }

    /// Makes room for so many more edges.
    pub(crate) fn reserve(&mut self, additional: usize) -> Result<(), AllocError>
        ensures same { HoldsAsBefore self.old.values self.new.values }
        ensures counted { (direction : Direction) →
            AreEdgesCounted direction self.old → AreEdgesCounted direction self.new }
        ensures room { OnOk result (HasEdgeRoom additional self.new) }
    {
        self.values.reserve(additional)?;
        self.on_lines.reserve(additional)
    }
}

impl<T: Drop> Edges<T> {
    /// Writes an edge if it is set, where there is room. The counts are those along the direction.
    pub(crate) fn put(&mut self, direction: Direction, position: Position, part: Option<T>)
        requires room { HasEdgeRoom 1 self.old }
        requires counted { AreEdgesCounted direction self.old }
        ensures written { Gains (λ q. at_position position q part) self.old.values self.new.values }
        ensures room { (n : ℕ) → HasEdgeRoom (n + 1) self.old → HasEdgeRoom n self.new }
        ensures counted { AreEdgesCounted direction self.new }
    {
        if put_part(&mut self.values, position, part) {
            self.on_lines.add(direction.number_of(position));
        }
    }

    /// Drops an edge. The counts are those along the direction.
    pub(crate) fn take(&mut self, direction: Direction, position: Position)
        requires { AreEdgesCounted direction self.old }
        ensures taken { Loses (position_eq position) self.old.values self.new.values }
        ensures counted { AreEdgesCounted direction self.new }
    {
        if take_part(&mut self.values, position) {
            self.on_lines.remove(direction.number_of(position));
        }
    }
}

impl<T> Corners<T> {
    /// No corner. It does not allocate.
    pub(crate) fn new(alloc: Global) -> Self
        ensures empty { result.values.entries ≡ [] }
        ensures counted { AreCornersCounted result }
    {
        Corners {
            values: HashMap::new(alloc),
            in_rows: LineCounts::new(alloc),
            in_columns: LineCounts::new(alloc),
        }
    }

    /// Makes room for so many more corners.
    pub(crate) fn reserve(&mut self, additional: usize) -> Result<(), AllocError>
        ensures same { HoldsAsBefore self.old.values self.new.values }
        ensures counted { AreCornersCounted self.old → AreCornersCounted self.new }
        ensures room { OnOk result (HasCornerRoom additional self.new) }
    {
        self.values.reserve(additional)?;
        self.in_rows.reserve(additional)?;
        self.in_columns.reserve(additional)
    }
}

impl<T: Drop> Corners<T> {
    /// Writes a corner if it is set, where there is room.
    pub(crate) fn put(&mut self, position: Position, part: Option<T>)
        requires room { HasCornerRoom 1 self.old }
        requires counted { AreCornersCounted self.old }
        ensures written { Gains (λ q. at_position position q part) self.old.values self.new.values }
        ensures room { (n : ℕ) → HasCornerRoom (n + 1) self.old → HasCornerRoom n self.new }
        ensures counted { AreCornersCounted self.new }
    {
        if put_part(&mut self.values, position, part) {
            self.in_rows.add(position.row);
            self.in_columns.add(position.col);
        }
    }

    /// Drops a corner.
    pub(crate) fn take(&mut self, position: Position)
        requires { AreCornersCounted self.old }
        ensures taken { Loses (position_eq position) self.old.values self.new.values }
        ensures counted { AreCornersCounted self.new }
    {
        if take_part(&mut self.values, position) {
            self.in_rows.remove(position.row);
            self.in_columns.remove(position.col);
        }
    }
}

// Writes a part if it is set, where there is room, and tells whether its position had none.
fn put_part<T: Drop>(map: &mut HashMap<Position, T>, position: Position, part: Option<T>) -> bool
    requires room { 0 < spare map.old }
    ensures written { Gains (λ q. at_position position q part) map.old map.new }
    ensures spare { spare map.old ≤ spare map.new + 1 }
    ensures more { (direction : Direction) (n : ℕ) → number_on direction n (keys map.new)
        ≡ number_on direction n (keys map.old) + one_if (result && along direction position == n) }
    ensures fits { (direction : Direction) (n : ℕ) →
        number_on direction n (keys map.old) + 1 < 2 ^ 64 }
{
    // No count is greater than the length, which is told here.
    let _ = map.len();
    let Some(value) = part else {
        return false;
    };
    match map.insert(position, value) {
        Ok(old) => old.is_none(),
        Err(_) => unreachable!(),
    }
}

// Drops a part, and tells whether there was one.
fn take_part<T: Drop>(map: &mut HashMap<Position, T>, position: Position) -> bool
    ensures taken { Loses (position_eq position) map.old map.new }
    ensures less { (direction : Direction) (n : ℕ) →
        number_on direction n (keys map.new) + one_if (result && along direction position == n)
        ≡ number_on direction n (keys map.old) }
{
    map.remove(&position).is_some()
}
