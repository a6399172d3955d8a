//! The values that settings are made of.

ghost use Rattle.std.specs.Option.{option_zip};
ghost use Rattle.std.specs.Prelude.{Option, option_map};
ghost use Rattle.serde_json.specs.Data.{Data};
ghost use Rattle.papergrid_json.specs.ForProofs.Reading.{IsReading, found};
ghost use Rattle.papergrid_json.specs.Spots.{character_at, number_at, optional};
ghost use Rattle.papergrid_json.specs.Values.{color_at, entity_at, horizontal_at, indent_at, offset_at, position_at, vertical_at};

use crate::error::Fault;
use crate::spot::Spot;
use papergrid_values::{
    ANSIBuf, AlignmentHorizontal, AlignmentVertical, Entity, Indent, Offset, Position,
};
use std::alloc::Global;

/// A value that a document describes.
pub trait Told: Drop {
    /// The value that what stands at a path tells.
    ghost told_at: { Option Data → Option Self };

    /// The value that stands at a path.
    fn told<'v>(alloc: Global, spot: &Spot<'v>) -> Result<Self, Fault<'v>>
        ensures { IsReading (told_at (found spot.now)) result };
}

impl Told for usize {
    ghost told_at = { number_at };

    fn told<'v>(_alloc: Global, spot: &Spot<'v>) -> Result<usize, Fault<'v>> {
        spot.number()
    }
}

impl Told for char {
    ghost told_at = { character_at };

    fn told<'v>(_alloc: Global, spot: &Spot<'v>) -> Result<char, Fault<'v>> {
        spot.character()
    }
}

impl Told for Indent {
    ghost told_at = { indent_at };

    #[tactic(auto, unfolding(crate::specs::Values::indent_at))]
    fn told<'v>(_alloc: Global, spot: &Spot<'v>) -> Result<Indent, Fault<'v>> {
        spot.expect_items(2, "a size and a character, as [1, \" \"]")?;
        Ok(Indent::new(spot.at(0).number()?, spot.at(1).character()?))
    }
}

impl Told for Offset {
    ghost told_at = { offset_at };

    #[tactic(auto, unfolding(crate::specs::Values::offset_at))]
    fn told<'v>(_alloc: Global, spot: &Spot<'v>) -> Result<Offset, Fault<'v>> {
        match spot.word() {
            Some(("Start", 1)) => Ok(Offset::Start(spot.at(1).number()?)),
            Some(("End", 1)) => Ok(Offset::End(spot.at(1).number()?)),
            _ => Err(spot.unexpected("[\"Start\", number] or [\"End\", number]")),
        }
    }
}

impl Told for ANSIBuf {
    ghost told_at = { color_at };

    #[tactic(auto, unfolding(crate::specs::Values::color_at))]
    fn told<'v>(alloc: Global, spot: &Spot<'v>) -> Result<ANSIBuf, Fault<'v>> {
        let wanted = "the text before what is coloured and the one after it";
        spot.expect_items(2, wanted)?;
        color_of(alloc, spot, spot.at(0).text(), spot.at(1).text(), wanted)
    }
}

/// The colour by the text before what is coloured and the one after it.
pub fn color_of<'v>(
    alloc: Global,
    spot: &Spot<'v>,
    prefix: Option<&str>,
    suffix: Option<&str>,
    wanted: &'static str,
) -> Result<ANSIBuf, Fault<'v>>
    ensures { IsReading (option_zip (option_map (λ text. text.now) prefix.entry)
        (option_map (λ text. text.now) suffix.entry)) result }
{
    match (prefix, suffix) {
        (Some(prefix), Some(suffix)) => Ok(ANSIBuf::new(alloc, prefix, suffix)?),
        _ => Err(spot.unexpected(wanted)),
    }
}

/// The value that stands at a path, none where nothing does.
#[tactic(auto, unfolding(crate::specs::Spots::optional))]
pub fn optional<'v, T: Told>(alloc: Global, spot: &Spot<'v>) -> Result<Option<T>, Fault<'v>>
    ensures { IsReading (optional T.Told.told_at (found spot.now)) result }
{
    if spot.is_empty() {
        return Ok(None);
    }
    Ok(Some(<T as Told>::told(alloc, spot)?))
}

/// The entity that stands at a path.
#[tactic(auto, unfolding(crate::specs::Values::entity_at))]
pub fn entity<'v>(spot: &Spot<'v>) -> Result<Entity, Fault<'v>>
    ensures { IsReading (entity_at (found spot.now)) result }
{
    match spot.word() {
        Some(("Global", 0)) => Ok(Entity::Global),
        Some(("Column", 1)) => Ok(Entity::Column(spot.at(1).number()?)),
        Some(("Row", 1)) => Ok(Entity::Row(spot.at(1).number()?)),
        Some(("Cell", 2)) => Ok(Entity::Cell(spot.at(1).number()?, spot.at(2).number()?)),
        _ => Err(spot.unexpected(
            "\"Global\", [\"Column\", number], [\"Row\", number] or [\"Cell\", row, column]",
        )),
    }
}

/// The position that stands at a path.
#[tactic(auto, unfolding(crate::specs::Values::position_at))]
pub fn position<'v>(spot: &Spot<'v>) -> Result<Position, Fault<'v>>
    ensures { IsReading (position_at (found spot.now)) result }
{
    let (row, column) = spot.two_numbers("[row, column]")?;
    Ok(Position::new(row, column))
}

/// The horizontal alignment that stands at a path.
#[tactic(auto, unfolding(crate::specs::Values::horizontal_at))]
pub fn horizontal<'v>(spot: &Spot<'v>) -> Result<AlignmentHorizontal, Fault<'v>>
    ensures { IsReading (horizontal_at (found spot.now)) result }
{
    match spot.text() {
        Some("Left") => Ok(AlignmentHorizontal::Left),
        Some("Center") => Ok(AlignmentHorizontal::Center),
        Some("Right") => Ok(AlignmentHorizontal::Right),
        _ => Err(spot.unexpected("\"Left\", \"Center\" or \"Right\"")),
    }
}

/// The vertical alignment that stands at a path.
#[tactic(auto, unfolding(crate::specs::Values::vertical_at))]
pub fn vertical<'v>(spot: &Spot<'v>) -> Result<AlignmentVertical, Fault<'v>>
    ensures { IsReading (vertical_at (found spot.now)) result }
{
    match spot.text() {
        Some("Top") => Ok(AlignmentVertical::Top),
        Some("Center") => Ok(AlignmentVertical::Center),
        Some("Bottom") => Ok(AlignmentVertical::Bottom),
        _ => Err(spot.unexpected("\"Top\", \"Center\" or \"Bottom\"")),
    }
}
