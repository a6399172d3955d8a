//! The orders of the values, field by field, and their hashes.

use papergrid_values::{
    ANSIBuf, ANSIStr, AlignmentHorizontal, AlignmentVertical, Border, Borders, Entity, Formatting,
    HorizontalLine, Indent, Offset, Position, Sides, VerticalLine,
};
use std::alloc::{AllocError, Global};
use std::cmp::Ordering;
use std::fmt;
use std::hash::{DefaultHasher, Hash, Hasher};

fn hash_of<T: Hash>(value: &T) -> u64 {
    let mut state = DefaultHasher::new();
    value.hash(&mut state);
    state.finish()
}

// Whether `low` stands before `high`, and equals its clone in every way. Its type is one that can be shown.
fn is_before<T: Clone + Ord + Hash + fmt::Debug>(low: T, high: T) -> bool {
    let is_alike = match low.clone() {
        Ok(copy) => copy == low && hash_of(&copy) == hash_of(&low),
        Err(_) => false,
    };
    is_alike && low < high && low.cmp(&high) == Ordering::Less
}

// In each pair the first field tells, against all that follow: so in the three below.
#[test]
fn orders_by_fields(rt: HostRuntime) {
    let (low, high) = (
        Formatting::new(false, true, true),
        Formatting::new(true, false, false),
    );
    assert!(rt;
        is_before(Position::new(0, 9), Position::new(1, 0))
            && is_before(Offset::Start(9), Offset::End(0))
            && is_before(Sides::new(9, 9, 0, 9), Sides::new(0, 0, 1, 0))
            && is_before(Indent::new(9, 'a'), Indent::new(0, 'b'))
            && is_before(low, high)
    );
}

#[test]
fn orders_by_variants(rt: HostRuntime) {
    assert!(rt;
        is_before(Entity::Global, Entity::Column(0))
            && is_before(Entity::Column(9), Entity::Row(0))
            && is_before(Entity::Row(9), Entity::Cell(0, 0))
    );
    let (left, right) = (AlignmentHorizontal::Left, AlignmentHorizontal::Right);
    let (top, bottom) = (AlignmentVertical::Top, AlignmentVertical::Bottom);
    assert!(rt;
        is_before(left, AlignmentHorizontal::Center)
            && is_before(AlignmentHorizontal::Center, right)
            && is_before(top, AlignmentVertical::Center)
            && is_before(AlignmentVertical::Center, bottom)
    );
}

#[test]
fn orders_of_borders(rt: HostRuntime) {
    let border = Border {
        top: None,
        ..Border::filled(9)
    };
    let frame = Borders {
        top: None,
        ..Borders::filled(9)
    };
    let (across, down) = (
        HorizontalLine::full(0, 9, 9, 9),
        VerticalLine::full(0, 9, 9, 9),
    );
    assert!(rt;
        is_before(border, Border::filled(0))
            && is_before(frame, Borders::filled(0))
            && is_before(across, HorizontalLine::filled(1))
            && is_before(down, VerticalLine::filled(1))
    );
}

fn are_colours_before(alloc: Global) -> Result<bool, AllocError> {
    Ok(is_before(
        ANSIBuf::new(alloc, "a", "z")?,
        ANSIBuf::new(alloc, "b", "")?,
    ))
}

#[test]
fn orders_of_colours(rt: HostRuntime) {
    assert!(rt; is_before(ANSIStr::new("a", "z"), ANSIStr::new("b", "")));
    assert!(rt; are_colours_before(rt.alloc()) == Ok(true));
}
