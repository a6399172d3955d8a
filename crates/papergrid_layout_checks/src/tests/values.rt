//! Operators, conversions, closures and defaults of the values.

ghost use Rattle.std.specs.Prelude.{◌≡◌, IfOk};
ghost use Rattle.papergrid_values.specs.Entities.{positions};

use papergrid_values::{
    Border, Borders, Entity, Formatting, HorizontalLine, Indent, Position, Sides, VerticalLine,
};
use std::alloc::{AllocError, Global};

fn at(row: usize, col: usize) -> Position
    ensures { result ≡ record { row = row; col = col } }
{
    Position::new(row, col)
}

// A caller's `collect` knows the list.
fn walked(
    alloc: Global,
    entity: Entity,
    rows: usize,
    cols: usize,
) -> Result<Vec<Position>, AllocError>
    ensures { IfOk result (λ walk. walk.items ≡ positions entity rows cols) }
{
    entity.iter(rows, cols).collect(alloc)
}

fn is_walked(alloc: Global) -> bool {
    match walked(alloc, Entity::Global, 10, 10) {
        Ok(walk) => walk.len() == 100,
        Err(_) => false,
    }
}

fn are_sums() -> bool {
    let place = at(1, 2) + at(3, 4);
    place == at(4, 6)
        && place - at(4, 1) == at(0, 5)
        && place - (4, 1) == at(0, 5)
        && place + (1, 0) == at(5, 6)
}

fn is_moved() -> bool {
    let mut place = at(4, 6);
    place += at(1, 1);
    place += (0, 2);
    let is_added = place == at(5, 9);
    place -= at(5, 0);
    place -= (0, 8);
    is_added && place == at(0, 1)
}

fn are_converted(place: Position) -> bool {
    <(usize, usize)>::from(place) == (0, 1)
        && Entity::from(place) == Entity::Cell(0, 1)
        && Entity::from((0, 1)) == Entity::Cell(0, 1)
}

fn are_in_order(sides: Sides<u8>) -> bool {
    sides.fold(0u64, |a, x| a * 10 + u64::from(x)) == 1234
        && (sides.left, sides.right, sides.top, sides.bottom) == (1, 2, 3, 4)
}

fn are_mapped(sides: Sides<u8>) -> bool {
    sides.convert_into::<u32>() == Sides::new(1u32, 2, 3, 4)
        && sides.map(|n| n % 2 == 0) == Sides::new(false, true, false, true)
}

#[test]
fn four_sides(rt: HostRuntime) {
    let sides = Sides::new(1u8, 2, 3, 4);
    assert!(rt; are_in_order(sides) && are_mapped(sides));
}

fn is_of_parts(border: Border<u8>) -> bool {
    let [top, bottom, left, right] = [Some(1), Some(2), Some(3), Some(4)];
    border == Border::new(top, bottom, left, right, Some(5), Some(7), Some(6), Some(8))
}

#[test]
fn cell_borders(rt: HostRuntime) {
    let border = Border::full(1u8, 2, 3, 4, 5, 6, 7, 8);
    assert!(rt; is_of_parts(border));
    assert!(rt; border.map(|n| n / 2) == Border::full(0, 1, 1, 2, 2, 3, 3, 4));
    assert!(rt; border.convert::<u16>() == Border::full(1u16, 2, 3, 4, 5, 6, 7, 8));
}

#[test]
fn lent_borders(rt: HostRuntime) {
    let lent = Border {
        left: Some(&7u8),
        ..Border::empty()
    };
    let left = Border {
        left: Some(7),
        ..Border::empty()
    };
    assert!(rt;
        Border::<u8>::default() == Border::empty()
            && lent.copied() == left
            && lent.cloned() == Ok(left)
    );
}

#[test]
fn frames(rt: HostRuntime) {
    let cross = Borders {
        intersection: Some(1u8),
        ..Borders::empty()
    };
    assert!(rt;
        Borders::<u8>::default().is_empty()
            && cross.convert_into::<u16>().intersection == Some(1)
            && cross.map(|n| n == 1).intersection == Some(true)
            && Borders::filled(1).right_intersection == Some(1)
    );
}

#[test]
fn lines_across(rt: HostRuntime) {
    let across = HorizontalLine::new(Some(1u8), Some(2), Some(3), Some(4));
    assert!(rt; across == HorizontalLine::full(1, 2, 3, 4) && !across.is_empty());
    let filled = HorizontalLine::filled(1u8);
    assert!(rt; filled == HorizontalLine::full(1, 1, 1, 1) && !filled.is_empty());
    let empty = HorizontalLine::<u8>::default();
    assert!(rt; empty == HorizontalLine::empty() && empty.is_empty());
}

#[test]
fn lines_down(rt: HostRuntime) {
    let down = VerticalLine::new(Some(1u8), Some(2), Some(3), Some(4));
    assert!(rt; down == VerticalLine::full(1, 2, 3, 4) && !down.is_empty());
    let filled = VerticalLine::filled(1u8);
    assert!(rt; filled == VerticalLine::full(1, 1, 1, 1) && !filled.is_empty());
    let empty = VerticalLine::<u8>::default();
    assert!(rt; empty == VerticalLine::empty() && empty.is_empty());
}

#[test]
fn calls_of_values(rt: HostRuntime) {
    assert!(rt; is_walked(rt.alloc()));
    assert!(rt; are_sums() && is_moved() && are_converted(at(0, 1)));
    assert!(rt;
        Sides::<Option<u8>>::new(None, None, None, None).is_empty()
            && !Sides::new(None, None, None, Some(1u8)).is_empty()
            && !Indent::new(2, 'x').is_empty()
            && Indent::spaced(0).is_empty()
    );
    assert!(rt;
        Sides::default() == Sides::filled(Indent::zero())
            && Position::default() == at(0, 0)
            && Formatting::default() == Formatting::new(false, false, false)
    );
}
