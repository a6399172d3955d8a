//! Values by parts that have names: sides, frames, borders and lines.

ghost use Rattle.std.specs.Option.{option_zip};
ghost use Rattle.std.specs.Prelude.{◌≡◌, map};
ghost use Rattle.serde_json.specs.View.{members_view};
ghost use Rattle.papergrid_json.specs.ForProofs.Reading.{IsReading, IsTest, found};
ghost use Rattle.papergrid_json.specs.Values.{are_named, are_named_at, border_at, filled_sides, four, frame_at, frame_by_parts, horizontal_parts_at, is_named, named_part, sides_at, vertical_parts_at, within_at};

use crate::error::Fault;
use crate::spot::Spot;
use crate::values::{Told, optional};
use papergrid_values::{Border, Borders, HorizontalLine, Sides, VerticalLine};
use serde_json::{Map, Value};
use std::alloc::Global;

/// Two parts, each of which may be missing.
type Two<T> = (Option<T>, Option<T>);

/// The four sides that an object tells. One that is missing, or is `null`, is none.
#[tactic(auto, unfolding(crate::specs::Values::sides_at))]
pub fn sides<'v, T: Told>(alloc: Global, spot: &Spot<'v>) -> Result<Sides<Option<T>>, Fault<'v>>
    ensures { IsReading (sides_at T.Told.told_at (found spot.now)) result }
{
    let wanted = "an object of top, bottom, left, right";
    expect_members(spot, &["top", "bottom", "left", "right"], wanted)?;
    let ((top, bottom), (left, right)) = four(alloc, spot, "top", "bottom", "left", "right")?;
    Ok(Sides {
        top,
        bottom,
        left,
        right,
    })
}

/// The sides, where one that is missing is as this one.
pub fn filled<T: Copy + Drop>(sides: Sides<Option<T>>, missing: T) -> Sides<T>
    ensures { result ≡ filled_sides missing sides }
{
    Sides {
        top: sides.top.unwrap_or(missing),
        bottom: sides.bottom.unwrap_or(missing),
        left: sides.left.unwrap_or(missing),
        right: sides.right.unwrap_or(missing),
    }
}

/// The frame that an object tells, with what stands within it.
#[tactic(auto, unfolding(crate::specs::Values::frame_at))]
pub fn frame<'v, T: Told>(alloc: Global, spot: &Spot<'v>) -> Result<Borders<T>, Fault<'v>>
    ensures { IsReading (frame_at T.Told.told_at (found spot.now)) result }
{
    expect_members(spot, &FRAME, FRAME_WANTED)?;
    frame_by_parts(alloc, spot)
}

/// The parts of a frame.
#[tactic(auto, unfolding(crate::specs::Values::frame_by_parts))]
fn frame_by_parts<'v, T: Told>(alloc: Global, spot: &Spot<'v>) -> Result<Borders<T>, Fault<'v>>
    ensures { IsReading (frame_by_parts T.Told.told_at (found spot.now)) result }
{
    let at_top = four(
        alloc,
        spot,
        "top",
        "top_left",
        "top_right",
        "top_intersection",
    )?;
    let at_bottom = four(
        alloc,
        spot,
        "bottom",
        "bottom_left",
        "bottom_right",
        "bottom_intersection",
    )?;
    let at_sides = four(
        alloc,
        spot,
        "left",
        "left_intersection",
        "right",
        "right_intersection",
    )?;
    let within = within(alloc, spot)?;
    let ((top, top_left), (top_right, top_intersection)) = at_top;
    let ((bottom, bottom_left), (bottom_right, bottom_intersection)) = at_bottom;
    let ((left, left_intersection), (right, right_intersection)) = at_sides;
    let ((horizontal, vertical), intersection) = within;
    Ok(Borders {
        top,
        top_left,
        top_right,
        top_intersection,
        bottom,
        bottom_left,
        bottom_right,
        bottom_intersection,
        horizontal,
        vertical,
        intersection,
        left,
        left_intersection,
        right,
        right_intersection,
    })
}

const FRAME: [&str; 15] = [
    "top",
    "top_left",
    "top_right",
    "top_intersection",
    "bottom",
    "bottom_left",
    "bottom_right",
    "bottom_intersection",
    "left",
    "left_intersection",
    "right",
    "right_intersection",
    "horizontal",
    "vertical",
    "intersection",
];

const FRAME_WANTED: &str =
    "an object of top, top_left, top_right, top_intersection, bottom, bottom_left, \
    bottom_right, bottom_intersection, horizontal, vertical, intersection, left, left_intersection, right, \
    right_intersection";

/// The lines within a frame, and their crossing.
#[tactic(auto, unfolding(crate::specs::Values::within_at))]
fn within<'v, T: Told>(alloc: Global, spot: &Spot<'v>) -> Result<(Two<T>, Option<T>), Fault<'v>>
    ensures { IsReading (within_at T.Told.told_at (found spot.now)) result }
{
    Ok((
        two(alloc, spot, "horizontal", "vertical")?,
        part(alloc, spot, "intersection")?,
    ))
}

/// The border of a cell that an object tells.
#[tactic(auto, unfolding(crate::specs::Values::border_at))]
pub fn border<'v, T: Told>(alloc: Global, spot: &Spot<'v>) -> Result<Border<T>, Fault<'v>>
    ensures { IsReading (border_at T.Told.told_at (found spot.now)) result }
{
    expect_members(spot, &BORDER, BORDER_WANTED)?;
    let sides = four(alloc, spot, "top", "bottom", "left", "right")?;
    let corners = four(
        alloc,
        spot,
        "left_top_corner",
        "left_bottom_corner",
        "right_top_corner",
        "right_bottom_corner",
    )?;
    let ((top, bottom), (left, right)) = sides;
    let ((left_top_corner, left_bottom_corner), (right_top_corner, right_bottom_corner)) = corners;
    Ok(Border {
        top,
        bottom,
        left,
        right,
        left_top_corner,
        left_bottom_corner,
        right_top_corner,
        right_bottom_corner,
    })
}

const BORDER: [&str; 8] = [
    "top",
    "bottom",
    "left",
    "right",
    "left_top_corner",
    "left_bottom_corner",
    "right_top_corner",
    "right_bottom_corner",
];

const BORDER_WANTED: &str = "an object of top, bottom, left, right, left_top_corner, \
    left_bottom_corner, right_top_corner, right_bottom_corner";

/// The horizontal line that an object tells.
#[tactic(auto, unfolding(crate::specs::Values::horizontal_parts_at))]
pub fn horizontal_line<'v, T: Told>(
    alloc: Global,
    spot: &Spot<'v>,
) -> Result<HorizontalLine<T>, Fault<'v>>
    ensures { IsReading (horizontal_parts_at T.Told.told_at (found spot.now)) result }
{
    let wanted = "an object of main, intersection, left, right";
    expect_members(spot, &["main", "intersection", "left", "right"], wanted)?;
    let ((main, intersection), (left, right)) = four(
        alloc,
        spot,
        "main",
        "intersection",
        "left",
        "right",
    )?;
    Ok(HorizontalLine {
        main,
        intersection,
        left,
        right,
    })
}

/// The vertical line that an object tells.
#[tactic(auto, unfolding(crate::specs::Values::vertical_parts_at))]
pub fn vertical_line<'v, T: Told>(
    alloc: Global,
    spot: &Spot<'v>,
) -> Result<VerticalLine<T>, Fault<'v>>
    ensures { IsReading (vertical_parts_at T.Told.told_at (found spot.now)) result }
{
    let wanted = "an object of main, intersection, top, bottom";
    expect_members(spot, &["main", "intersection", "top", "bottom"], wanted)?;
    let ((main, intersection), (top, bottom)) = four(
        alloc,
        spot,
        "main",
        "intersection",
        "top",
        "bottom",
    )?;
    Ok(VerticalLine {
        main,
        intersection,
        top,
        bottom,
    })
}

/// The parts of these four names.
#[tactic(auto, unfolding(crate::specs::Values::four))]
fn four<'v, T: Told>(
    alloc: Global,
    spot: &Spot<'v>,
    first: &'static str,
    second: &'static str,
    third: &'static str,
    fourth: &'static str,
) -> Result<(Two<T>, Two<T>), Fault<'v>>
    ensures { IsReading (four T.Told.told_at (found spot.now)
        first.now second.now third.now fourth.now) result }
{
    Ok((
        two(alloc, spot, first, second)?,
        two(alloc, spot, third, fourth)?,
    ))
}

/// The parts of these two names.
fn two<'v, T: Told>(
    alloc: Global,
    spot: &Spot<'v>,
    first: &'static str,
    second: &'static str,
) -> Result<Two<T>, Fault<'v>>
    ensures { IsReading (option_zip (named_part T.Told.told_at (found spot.now) first.now)
        (named_part T.Told.told_at (found spot.now) second.now)) result }
{
    Ok((part(alloc, spot, first)?, part(alloc, spot, second)?))
}

/// The part of this name, none where it is missing.
fn part<'v, T: Told>(
    alloc: Global,
    spot: &Spot<'v>,
    name: &'static str,
) -> Result<Option<T>, Fault<'v>>
    ensures { IsReading (named_part T.Told.told_at (found spot.now) name.now) result }
{
    optional(alloc, &spot.field(name))
}

/// That an object stands at a path whose members have these names, but for those that are `null`.
#[tactic(auto, unfolding(crate::specs::Values::are_named_at))]
fn expect_members<'v>(
    spot: &Spot<'v>,
    names: &[&'static str],
    wanted: &'static str,
) -> Result<(), Fault<'v>>
    ensures { IsTest (are_named_at (map (λ name. name.now) names.now) (found spot.now)) result }
{
    match spot.members() {
        Some(members) if all_are_named(members, names) => Ok(()),
        _ => Err(spot.unexpected(wanted)),
    }
}

/// Whether each member has one of these names, but for those that are `null`.
fn all_are_named(members: &Map<String, Value>, names: &[&'static str]) -> bool
    ensures { result ≡ are_named (map (λ name. name.now) names.now)
        (members_view members.now.entries) }
{
    for (name, value) in members.iter() {
        if !value.is_null() && !is_named(name.as_str(), names) {
            return false;
        }
    }
    true
}

/// Whether the name is one of these.
fn is_named(name: &str, names: &[&'static str]) -> bool
    ensures { result ≡ is_named name.now (map (λ name. name.now) names.now) }
{
    for other in names {
        if name == *other {
            return true;
        }
    }
    false
}
