//! Clones as a caller knows them: equal to their originals.

ghost use Rattle.std.specs.Prelude.{◌≡◌, ◌∷◌, [], IfOk, OnOk};
ghost use Rattle.papergrid_values.specs.declared.entity.Entity.{Entity};
ghost use Rattle.papergrid_maps.specs.StoredMap.{AppendsCalls};
ghost use Rattle.papergrid_maps.specs.declared.entity_map.MapCall.{MapCall};

use crate::tests::refused::color;
use crate::tests::refused::colors::{frame, horizontal_line, sides};
use papergrid_maps::EntityMap;
use papergrid_values::{ANSIBuf, Border, Entity, Indent, Position, Sides, VerticalLine, laws};
use std::alloc::{AllocError, Global};

// A call whose condition is that a clone equals its original.
fn needs_equal_clones<T: Clone>(value: &T) -> Result<T, AllocError>
    requires { (x y : T) → T.is_clone x y → y ≡ x }
    ensures { IfOk result (λ copy. copy ≡ value.now) }
{
    value.clone()
}

// Whether what that call gives is equal. It has the same condition.
fn is_equal_clone<T: Clone + PartialEq + Drop>(value: T) -> bool
    requires { (x y : T) → T.is_clone x y → y ≡ x }
{
    match needs_equal_clones(&value) {
        Ok(copy) => copy == value,
        Err(_) => false,
    }
}

// The same of a value that is made for it.
fn is_equal_clone_of<T: Clone + PartialEq + Drop>(made: Result<T, AllocError>) -> bool
    requires { (x y : T) → T.is_clone x y → y ≡ x }
{
    match made {
        Ok(value) => is_equal_clone(value),
        Err(_) => false,
    }
}

// Sets a value for a cell. Nothing has to be known of its clones, since it is not copied.
fn set_cell<T: Clone>(
    map: &mut EntityMap<T>,
    position: Position,
    value: T,
) -> Result<(), AllocError>
    ensures { OnOk result (AppendsCalls map.old map.new
        (MapCall.Insert (Entity.Cell position.row position.col) value ∷ [])) }
{
    map.insert(Entity::Cell(position.row, position.col), value)
}

// Whether a value of a cell stands there, and none beside it.
fn is_set_alone(alloc: Global) -> bool {
    let mut map = EntityMap::new(alloc, 'g');
    match set_cell(&mut map, Position::new(1, 2), 'c') {
        Ok(()) => *map.get(Position::new(1, 2)) == 'c' && *map.get(Position::new(1, 3)) == 'g',
        Err(_) => false,
    }
}

fn topped(alloc: Global) -> Result<Border<ANSIBuf>, AllocError> {
    let top = Some(color(alloc)?);
    Ok(Border {
        top,
        ..Border::empty()
    })
}

#[test]
fn clones_equal_their_originals(rt: HostRuntime) {
    laws::equal_clones::<ANSIBuf>();
    let alloc = rt.alloc();
    assert!(rt;
        is_equal_clone_of(color(alloc))
            && is_equal_clone_of(sides(alloc))
            && is_equal_clone(Sides::filled(Indent::zero()))
            && is_equal_clone_of(topped(alloc))
            && is_equal_clone_of(frame(alloc))
            && is_equal_clone_of(horizontal_line(alloc))
            && is_equal_clone(VerticalLine::filled('x'))
            && is_set_alone(alloc)
    );
}
