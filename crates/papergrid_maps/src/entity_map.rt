//! A value for each position, set by entity. Source: `config/spanned/entity_map.rs`.

ghost use Rattle.std.specs.Prelude.{All, AllPairs, Any, true, false, List, ◌≡◌, ◌≢◌, ◌∷◌, [], map, length, IfOk, OnOk, OnErr, IsOk, IfErr, IsTrue, take, slice_get, IsSomeAnd, Some, if◌then◌else◌, filter, not, option_copied, nat_eq, ◌==◌, ◌<◌, ◌↔◌};
ghost use Rattle.std.specs.Bool.{OnTrue, OnFalse};
ghost use Rattle.std.specs.Fn.{FnReturnsAt};
ghost use Rattle.std.specs.HashMap.{IsUnique, keys, values, get as map_get};
ghost use Rattle.std.specs.Map.{update_all};
ghost use Rattle.std.specs.Set.{is_member};
ghost use Rattle.papergrid_values.specs.declared.entity.Entity.{Entity};
ghost use Rattle.papergrid_values.specs.declared.position.Position.{Position};
ghost use Rattle.papergrid_values.specs.MapKeys.{position_eq};
ghost use Rattle.papergrid_maps.specs.Keys.{entity_eq};
ghost use Rattle.papergrid_maps.specs.EffectiveCall.{IsEffective};
ghost use Rattle.papergrid_maps.specs.Listed.{AreSetCells, HasAtEach};
ghost use Rattle.papergrid_maps.specs.MapCalls.{HasEqualClones, may_grow};
ghost use Rattle.papergrid_maps.specs.StoredMap.{HasMapHistory, AppendsCalls, HasNothing, HoldsValue, held_for, stored_value};
ghost use Rattle.papergrid_maps.specs.declared.entity_map.MapCall.{MapCall};

use papergrid_values::hashed::{look_up, put, remove, write};
use papergrid_values::{Entity, Position};
use std::alloc::{AllocError, Global};
use std::collections::HashMap;
use std::hash::Hash;
use std::marker::Model;
use thiserror::Error;

/// A call that changes an `EntityMap`.
#[derive(Clone, Debug, Drop)]
pub enum MapCall<T> {
    /// Sets a value for an entity.
    Insert(Entity, T),
    /// Takes back what was set for an entity.
    Remove(Entity),
}

/// How many calls of a list were done before an allocation of one failed.
#[derive(Clone, Copy, Debug, PartialEq, Eq, Error)]
#[error("out of memory after {done} of the calls")]
pub struct Stopped {
    pub done: usize,
}

/// A value for each position: one for the whole table, and values for some columns, rows and cells.
#[derive(Debug)]
pub struct EntityMap<T> {
    alloc: Global,
    global: T,
    columns: HashMap<usize, T>,
    rows: HashMap<usize, T>,
    cells: HashMap<Position, T>,
}

impl<T> Model for EntityMap<T> {
    ghost use Rattle.std.specs.FinMap as map;
    ghost use Rattle.papergrid_maps.specs.StoredMap.{Stored, stored_code};

    ghost Value = { Stored T };

    ghost coded = { stored_code T.code };

    ghost view = { λ m. record { global = m.global; columns = map.from_entries m.columns.entries; rows = map.from_entries m.rows.entries; cells = map.from_entries m.cells.entries } };
}

// By hand: docs/DECISIONS.md, "Drops".
impl<T: Drop> Drop for EntityMap<T> {
    fn drop(self) {
        let EntityMap {
            alloc: _,
            global: _,
            columns: _,
            rows: _,
            cells: _,
        } = self;
    }
}

impl<T> EntityMap<T> {
    /// The map that holds the value for the whole table alone. It does not allocate.
    pub fn new(alloc: Global, global: T) -> Self
        ensures { HasMapHistory global [] result }
    {
        EntityMap {
            alloc,
            global,
            columns: HashMap::new(alloc),
            rows: HashMap::new(alloc),
            cells: HashMap::new(alloc),
        }
    }

    /// Whether nothing is stored for a column, a row or a cell.
    pub fn is_empty(&self) -> bool
        ensures { IsTrue result ↔ HasNothing self.now }
    {
        let columns = self.columns.is_empty();
        let rows = self.rows.is_empty();
        let cells = self.cells.is_empty();
        columns & (rows & cells)
    }

    /// The value stored for the cell, else for its column, else for its row, else for the
    /// whole table: where calls made the map, the one that they decide.
    pub fn get(&self, position: Position) -> &T
        ensures stored { result.now ≡ stored_value self.now position }
        ensures effective { (given : T) (calls : List (MapCall T)) →
            HasMapHistory given calls self.now → IsEffective calls given position result.now }
    {
        if let Some(value) = look_up(&self.cells, position) {
            return value;
        }
        if let Some(value) = look_up(&self.columns, position.col) {
            return value;
        }
        if let Some(value) = look_up(&self.rows, position.row) {
            return value;
        }
        &self.global
    }

    /// The value stored for an entity itself: of a cell without those of its column and of its row.
    #[inline(always)]
    pub fn held_for(&self, entity: Entity) -> Option<&T>
        ensures { option_copied result ≡ held_for self.now entity }
    {
        match entity {
            Entity::Global => Some(&self.global),
            Entity::Column(col) => look_up(&self.columns, col),
            Entity::Row(row) => look_up(&self.rows, row),
            Entity::Cell(row, col) => look_up(&self.cells, Position { row, col }),
        }
    }

    /// The cells that hold a value of their own, each once, in no order, or out of memory.
    pub fn held_cells(&self) -> Result<Vec<Position>, AllocError>
        ensures stored { IfOk result (λ cells. AreSetCells (held_for self.now) cells.items) }
        ensures once { IfOk result (λ cells. AllPairs (λ p q. p ≢ q) cells.items) }
    {
        keys_of_cells(self.alloc, &self.cells)
    }

    /// Whether `f` is true of a value that is stored, the one for the whole table among
    /// them. Condition: `f` may be called on what is stored.
    pub fn any_held<F: Fn(&T) -> bool>(&self, f: F) -> bool
    where
        F: Drop,
        requires { (lent : _) → HoldsValue self.now lent.now → F.pre f lent }
        ensures yes { OnTrue result ((v : T) × HoldsValue self.now v × FnReturnsAt F.Fn f v true) }
        ensures no { OnFalse result ((v : T) → HoldsValue self.now v → FnReturnsAt F.Fn f v false) }
    {
        self.any_held_by(&f)
    }

    // The same by a test that is lent.
    fn any_held_by<F: Fn(&T) -> bool>(&self, f: &F) -> bool
        requires { (lent : _) → HoldsValue self.now lent.now → F.pre f.now lent }
        ensures yes { OnTrue result
            ((v : T) × HoldsValue self.now v × FnReturnsAt F.Fn f.now v true) }
        ensures no { OnFalse result
            ((v : T) → HoldsValue self.now v → FnReturnsAt F.Fn f.now v false) }
    {
        if f(&self.global) {
            return true;
        }
        if any_value(&self.columns, f) {
            return true;
        }
        if any_value(&self.rows, f) {
            return true;
        }
        any_value(&self.cells, f)
    }

    /// What is stored for each entity, or out of memory.
    pub fn into_map(self) -> Result<HashMap<Entity, T>, AllocError>
    where
        T: Drop,
        ensures { IfOk result (λ all. HasAtEach entity_eq all (held_for self)) }
    {
        let EntityMap {
            alloc,
            global,
            columns,
            rows,
            cells,
        } = self;
        let mut all = HashMap::new(alloc);
        put_all(&mut all, columns, Entity::Column)?;
        put_all(&mut all, rows, Entity::Row)?;
        put_all(&mut all, cells, |cell| Entity::Cell(cell.row, cell.col))?;
        write(&mut all, Entity::Global, global)?;
        Ok(all)
    }
}

impl<T> AsRef<T> for EntityMap<T> {
    /// The value stored for the whole table.
    fn as_ref(&self) -> &T
        ensures { result.now ≡ self.now.global }
    {
        &self.global
    }
}

impl<T: Clone> Clone for EntityMap<T> {
    // It is like its original where clones of the values are.
    ghost is_clone = { λ m n. ((x y : T) → T.is_clone x y → y ≡ x) → n ≡ m };

    fn clone(&self) -> Result<EntityMap<T>, AllocError> {
        Ok(EntityMap {
            alloc: self.alloc,
            global: self.global.clone()?,
            columns: self.columns.clone()?,
            rows: self.rows.clone()?,
            cells: self.cells.clone()?,
        })
    }
}

impl<T: PartialEq> PartialEq for EntityMap<T> {
    ghost use Rattle.papergrid_maps.specs.MapEq.{stored_eq};
    ghost use Rattle.papergrid_maps.specs.ForProofs.MapEqLaws.{stored_eq_laws};

    ghost eq = { stored_eq T.eq };

    ghost laws = { stored_eq_laws T.eq T.laws };

    fn eq(&self, other: &EntityMap<T>) -> bool {
        let global = self.global == other.global;
        let columns = self.columns == other.columns;
        let rows = self.rows == other.rows;
        let cells = self.cells == other.cells;
        global & (columns & (rows & cells))
    }
}

impl<T: Drop> EntityMap<T> {
    /// Takes back what was set: for the whole table all but its own value, for a column or a row
    /// the values of its cells alone, and for a cell its value. It does not allocate.
    pub fn remove(&mut self, entity: Entity)
        ensures { AppendsCalls self.old self.new (MapCall.Remove entity ∷ []) }
    {
        match entity {
            Entity::Global => {
                self.columns.clear();
                self.rows.clear();
                self.cells.clear();
            }
            Entity::Column(col) => drop_column(&mut self.cells, col),
            Entity::Row(row) => drop_row(&mut self.cells, row),
            Entity::Cell(row, col) => remove(&mut self.cells, Position { row, col }),
        }
    }
}

impl<T: Clone> EntityMap<T> {
    /// Sets a value. One for the whole table drops all others, and is never refused. A column's is
    /// also written to its cells in the rows that have a value, and a row's to its cells in the
    /// columns that have one. Where an allocation fails the map is as it was. Condition, for a
    /// column or a row: a clone of the value equals it.
    pub fn insert(&mut self, entity: Entity, value: T) -> Result<(), AllocError>
        requires equal_clones { HasEqualClones T.is_clone (MapCall.Insert entity value) }
        ensures ok { OnOk result (AppendsCalls self.old self.new
            (MapCall.Insert entity value ∷ [])) }
        ensures err { OnErr result (self.new ≡ self.old) }
        ensures global { entity ≡ Entity.Global → IsOk result }
    {
        match entity {
            Entity::Global => {
                self.columns.clear();
                self.rows.clear();
                self.cells.clear();
                self.global = value;
                Ok(())
            }
            Entity::Column(col) => {
                let crossings = crossings_of_column(self.alloc, &self.rows, col)?;
                write_line(
                    self.alloc,
                    &mut self.columns,
                    &mut self.cells,
                    crossings,
                    col,
                    value,
                )
            }
            Entity::Row(row) => {
                let crossings = crossings_of_row(self.alloc, &self.columns, row)?;
                write_line(
                    self.alloc,
                    &mut self.rows,
                    &mut self.cells,
                    crossings,
                    row,
                    value,
                )
            }
            Entity::Cell(row, col) => write(&mut self.cells, Position { row, col }, value),
        }
    }

    /// Makes the calls in order, up to one whose allocation fails: then the map is that of the
    /// calls done before it. Inserts alone take memory, but for those for the whole table.
    /// Condition, for inserts for columns and rows: a clone of the value equals it.
    pub fn apply_all(&mut self, calls: Vec<MapCall<T>>) -> Result<(), Stopped>
        requires equal_clones { All (HasEqualClones T.is_clone) calls.items }
        ensures ok { OnOk result (AppendsCalls self.old self.new calls.items) }
        ensures err { IfErr result (λ stopped.
            AppendsCalls self.old self.new (take stopped.done calls.items)) }
        ensures refused { IfErr result (λ stopped. stopped.done < length calls.items) }
        ensures blamed { IfErr result (λ stopped.
            IsSomeAnd (slice_get calls.items stopped.done) (λ call. may_grow call ≡ true)) }
        ensures free { All (λ call. may_grow call ≡ false) calls.items → IsOk result }
    {
        let mut done = 0;
        for call in calls {
            match self.apply(call) {
                Ok(()) => done += 1,
                Err(_) => return Err(Stopped { done }),
            }
        }
        Ok(())
    }

    fn apply(&mut self, call: MapCall<T>) -> Result<(), AllocError>
        requires equal_clones { HasEqualClones T.is_clone call }
        ensures ok { OnOk result (AppendsCalls self.old self.new (call ∷ [])) }
        ensures err { OnErr result (self.new ≡ self.old) }
        ensures free { may_grow call ≡ false → IsOk result }
    {
        match call {
            MapCall::Insert(entity, value) => self.insert(entity, value),
            MapCall::Remove(entity) => {
                self.remove(entity);
                Ok(())
            }
        }
    }
}

// Puts what a map has into `all`, each value for the entity of its key.
fn put_all<K: Eq + Hash + Drop, T: Drop, F: Fn(K) -> Entity>(
    all: &mut HashMap<Entity, T>,
    values: HashMap<K, T>,
    entity: F,
) -> Result<(), AllocError>
where
    F: Drop,
    requires { F.IsAlwaysCallable entity }
    ensures unique { IsUnique K.eq values }
    ensures ok { OnOk result ((of : K → Entity) →
        ((k : K) (e : Entity) → F.post entity k e → e ≡ of k) →
        HasAtEach entity_eq all.new (update_all entity_eq (map_get entity_eq all.old)
        (map (λ e. (of e.0, e.1)) values.entries))) }
{
    for (key, value) in values {
        write(all, entity(key), value)?;
    }
    Ok(())
}

// The cells that have a value.
fn keys_of_cells<T>(
    alloc: Global,
    cells: &HashMap<Position, T>,
) -> Result<Vec<Position>, AllocError>
    ensures keys { IfOk result (λ v. v.items ≡ keys cells.now) }
    ensures once { IsUnique position_eq cells.now }
{
    cells.keys().copied().collect(alloc)
}

// The cells of a column in the rows that have a value.
fn crossings_of_column<T>(
    alloc: Global,
    rows: &HashMap<usize, T>,
    col: usize,
) -> Result<Vec<Position>, AllocError>
    ensures { IfOk result (λ cells.
        cells.items ≡ map (λ row. record { row = row; col = col }) (keys rows.now)) }
{
    rows.keys()
        .map(|row| Position { row: *row, col })
        .collect(alloc)
}

// The cells of a row in the columns that have a value.
fn crossings_of_row<T>(
    alloc: Global,
    columns: &HashMap<usize, T>,
    row: usize,
) -> Result<Vec<Position>, AllocError>
    ensures { IfOk result (λ cells.
        cells.items ≡ map (λ col. record { row = row; col = col }) (keys columns.now)) }
{
    columns
        .keys()
        .map(|col| Position { row, col: *col })
        .collect(alloc)
}

// Writes a value for a line, and a copy of it at each of its crossings, or changes nothing.
fn write_line<T: Clone>(
    alloc: Global,
    lines: &mut HashMap<usize, T>,
    cells: &mut HashMap<Position, T>,
    crossings: Vec<Position>,
    index: usize,
    value: T,
) -> Result<(), AllocError>
    requires equal_clones { (clone : T) → T.is_clone value clone → clone ≡ value }
    ensures ok { OnOk result (
        HasAtEach nat_eq lines.new (λ q.
        if nat_eq index q then Some value else map_get nat_eq lines.old q)
        × HasAtEach position_eq cells.new (λ q.
        if is_member position_eq crossings.items q then Some value
        else map_get position_eq cells.old q)) }
    ensures err { OnErr result (
        HasAtEach nat_eq lines.new (map_get nat_eq lines.old)
        × HasAtEach position_eq cells.new (map_get position_eq cells.old)) }
{
    lines.reserve(1)?;
    write_copies(alloc, cells, crossings.as_slice(), &value)?;
    put(lines, index, value);
    Ok(())
}

// Writes a copy of the value at each of the positions, or changes nothing.
fn write_copies<T: Clone>(
    alloc: Global,
    cells: &mut HashMap<Position, T>,
    positions: &[Position],
    value: &T,
) -> Result<(), AllocError>
    requires equal_clones { (clone : T) → T.is_clone value.now clone → clone ≡ value.now }
    ensures ok { OnOk result (HasAtEach position_eq cells.new (λ q.
        if is_member position_eq positions.now q then Some value.now
        else map_get position_eq cells.old q)) }
    ensures err { OnErr result (HasAtEach position_eq cells.new (map_get position_eq cells.old)) }
{
    let mut copies = vec![in alloc; value.clone()?; positions.len()]?;
    cells.reserve(positions.len())?;
    for position in positions {
        let copy = copies.pop().unwrap();
        put(cells, *position, copy);
    }
    Ok(())
}

fn drop_column<T: Drop>(cells: &mut HashMap<Position, T>, col: usize)
    ensures { cells.new.entries ≡ filter (λ e. not (e.0.col == col)) cells.old.entries }
{
    cells.retain(|position, _| position.col != col);
}

fn drop_row<T: Drop>(cells: &mut HashMap<Position, T>, row: usize)
    ensures { cells.new.entries ≡ filter (λ e. not (e.0.row == row)) cells.old.entries }
{
    cells.retain(|position, _| position.row != row);
}

// Whether `f` is true of a value of the map.
fn any_value<K: Eq + Hash, T, F: Fn(&T) -> bool>(map: &HashMap<K, T>, f: &F) -> bool
    requires { IsUnique K.eq map.now → (lent : _) →
        Any (λ v. v ≡ lent.now) (values map.now) → F.pre f.now lent }
    ensures yes { OnTrue result (Any (λ v. FnReturnsAt F.Fn f.now v true) (values map.now)) }
    ensures no { OnFalse result (All (λ v. FnReturnsAt F.Fn f.now v false) (values map.now)) }
    ensures unique { IsUnique K.eq map.now }
{
    for value in map.values() {
        if f(value) {
            return true;
        }
    }
    false
}
