//! Colours as texts, and colours by position, each kind through its bound.

ghost use Rattle.std.specs.Prelude.{◌≡◌, None, Some};
ghost use Rattle.std.specs.Bool.{OnTrue};
ghost use Rattle.std.specs.Option.{option_copied};

use crate::tests::refused::with_clone;
use papergrid_maps::EntityMap;
use papergrid_values::{ANSIBuf, ANSIFmt, ANSIStr, Colors, Entity, NoColor, NoColors, Position};
use std::alloc::{AllocError, Global};
use std::collections::{BTreeMap, HashMap};
use std::fmt;
use std::fmt::Write;

// Whether it is empty, and its colour at a position. A caller learns from the bound alone that
// there is none where it is empty.
fn seen<C: Colors>(colors: &C, position: Position) -> (bool, Option<&C::Color>)
    ensures { OnTrue result.0 (option_copied result.1 ≡ None) }
{
    (colors.is_empty(), colors.get_color(position))
}

// Whether that is seen of colours at a row and a column.
fn is_seen<C: Colors>(colors: &C, at: (usize, usize), expected: (bool, Option<&C::Color>)) -> bool
where
    C::Color: PartialEq,
{
    seen(colors, Position::from(at)) == expected
}

// What a colour writes before a text and after it.
fn written<C: ANSIFmt>(alloc: Global, color: &C) -> Result<String, fmt::Error> {
    let mut text = String::new(alloc);
    color.fmt_ansi_prefix(&mut text)?;
    text.write_str("|")?;
    color.fmt_ansi_suffix(&mut text)?;
    Ok(text)
}

fn is_written<C: ANSIFmt>(alloc: Global, color: &C, expected: &str) -> bool {
    match written(alloc, color) {
        Ok(text) => text.as_str() == expected,
        Err(_) => false,
    }
}

// Whether that is written of a colour, and through a reference to it.
fn is_written_through<C: ANSIFmt>(alloc: Global, color: &C, expected: &str) -> bool {
    is_written(alloc, color, expected) && is_written(alloc, &color, expected)
}

// A colour with no suffix of its own.
#[derive(Drop)]
struct Plain;

impl ANSIFmt for Plain {
    fn fmt_ansi_prefix<W: fmt::Write>(&self, f: &mut W) -> fmt::Result {
        f.write_str("P")
    }
}

// One colour for all cells.
#[derive(Drop)]
struct Everywhere {
    color: ANSIStr<'static>,
}

impl Colors for Everywhere {
    type Color = ANSIStr<'static>;

    ghost color_at = { λ colors _. Some colors.color };

    ghost is_blank = { λ _. ⊥ };

    ghost blank_has_none = { λ colors position blank. absurd blank };

    fn get_color(&self, _position: Position) -> Option<&ANSIStr<'static>> {
        Some(&self.color)
    }

    fn is_empty(&self) -> bool {
        false
    }
}

fn is_copied(alloc: Global, lent: ANSIStr<'_>, color: &ANSIBuf) -> bool {
    match ANSIBuf::copy_of(alloc, lent) {
        Ok(copy) => copy == *color,
        Err(_) => false,
    }
}

fn is_as_lent(alloc: Global, color: &ANSIBuf) -> bool {
    let lent = ANSIStr::new("<", ">");
    (color.get_prefix(), color.get_suffix()) == ("<", ">")
        && color.as_ref() == lent
        && is_copied(alloc, lent, color)
        && !color.is_empty()
}

fn is_owned(alloc: Global) -> Result<bool, AllocError> {
    let color = ANSIBuf::new(alloc, "<", ">")?;
    Ok(is_as_lent(alloc, &color) && is_written_through(alloc, &color, "<|>"))
}

fn is_empty_copied(alloc: Global) -> bool {
    match ANSIBuf::copy_of(alloc, ANSIStr::empty()) {
        Ok(copy) => copy.is_empty(),
        Err(_) => false,
    }
}

#[test]
fn lent_and_owned_colours(rt: HostRuntime) {
    let (lent, empty) = (ANSIStr::new("<", ">"), ANSIStr::empty());
    assert!(rt;
        (lent.get_prefix(), lent.get_suffix()) == ("<", ">")
            && !lent.is_empty()
            && empty.is_empty()
            && ANSIStr::default() == empty
    );
    assert!(rt; is_owned(rt.alloc()) == Ok(true));
    assert!(rt; is_empty_copied(rt.alloc()));
}

// One of two colours that are alike is kept, and the other one is looked for.
fn is_owned_by_entity(alloc: Global) -> Result<bool, AllocError> {
    let (red, copy) = with_clone(ANSIBuf::new(alloc, "<", ">"))?;
    let mut colors = EntityMap::new(alloc, None);
    let is_new = is_seen(&colors, (0, 0), (true, None));
    colors.insert(Entity::Cell(0, 0), Some(copy))?;
    Ok(is_new && is_seen(&colors, (0, 0), (false, Some(&red))))
}

fn are_seen_by_entity(alloc: Global) -> bool {
    let (red, blue) = (ANSIStr::new("r", "R"), ANSIStr::new("b", "B"));
    let mut colors = EntityMap::new(alloc, Some(red));
    is_seen(&colors, (0, 0), (false, Some(&red)))
        && colors.insert(Entity::Column(1), None).is_ok()
        && colors.insert(Entity::Row(2), Some(blue)).is_ok()
        && is_seen(&&colors, (0, 1), (false, None))
        && is_seen(&&colors, (2, 1), (false, Some(&blue)))
        && colors.insert(Entity::Global, None).is_ok()
        && is_seen(&&colors, (2, 1), (true, None))
        && colors.insert(Entity::Column(1), None).is_ok()
        && is_seen(&colors, (2, 1), (false, None))
}

fn red() -> ANSIStr<'static> {
    ANSIStr::new("r", "R")
}

// Whether colours have none at this position, nor any at all.
fn has_none<C: Colors>(colors: &C) -> bool {
    let (is_empty, color) = seen(colors, Position::new(0, 1));
    is_empty && color.is_none()
}

// Whether red is seen at this position, and none at another one.
fn is_red_alone<C: Colors<Color = ANSIStr<'static>>>(colors: &C) -> bool {
    is_seen(colors, (0, 1), (false, Some(&red()))) && is_seen(colors, (1, 0), (false, None))
}

fn is_red_hashed(alloc: Global) -> bool {
    let mut colors = HashMap::new(alloc);
    has_none(&colors) && colors.insert(Position::new(0, 1), red()).is_ok() && is_red_alone(&colors)
}

fn is_red_ordered(alloc: Global) -> bool {
    let mut colors = BTreeMap::new(alloc);
    has_none(&colors) && colors.insert(Position::new(0, 1), red()).is_ok() && is_red_alone(&&colors)
}

fn is_red_everywhere() -> bool {
    let everywhere = Everywhere { color: red() };
    is_seen(&&everywhere, (7, 8), (false, Some(&red())))
}

#[test]
fn colours_by_position(rt: HostRuntime) {
    assert!(rt; is_red_hashed(rt.alloc()));
    assert!(rt; is_red_ordered(rt.alloc()));
    assert!(rt; is_red_everywhere());
}

#[test]
fn colours(rt: HostRuntime) {
    let alloc = rt.alloc();
    assert!(rt;
        is_written_through(alloc, &Plain, "P|\u{1b}[0m")
            && is_written_through(alloc, &ANSIStr::new("<", ">"), "<|>")
            && is_written_through(alloc, &NoColor, "|")
    );
    assert!(rt; is_owned_by_entity(alloc) == Ok(true));
    assert!(rt; are_seen_by_entity(alloc) && is_seen(&&NoColors, (0, 0), (true, None)));
    assert!(rt; NoColors == NoColors::default() && NoColors <= NoColors);
    assert!(rt; NoColor == NoColor::default() && NoColor <= NoColor);
}
