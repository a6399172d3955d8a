//! The settings of a document.

ghost use Rattle.std.specs.Option.{option_zip};
ghost use Rattle.std.specs.Prelude.{◌≡◌};
ghost use Rattle.papergrid_json.specs.ForProofs.Reading.{IsReadingOr, IsReadingOrNone, IsUnlike, found};
ghost use Rattle.papergrid_json.specs.Documents.{IsUnknownAt};
ghost use Rattle.papergrid_json.specs.Spots.{item_at};
ghost use Rattle.papergrid_json.specs.Values.{offset_at, position_at};
ghost use Rattle.papergrid_json.specs.Settings.{bare_setting, cell_setting, character_setting, entity_setting, line_setting, setting_at, setting_by_word, table_setting};

use crate::error::Fault;
use crate::forms::form_named;
use crate::parts::{border, filled, frame, horizontal_line, sides, vertical_line};
use crate::spot::Spot;
use crate::values::{Told, entity, horizontal, optional, position, vertical};
use papergrid_config::Setting;
use papergrid_values::{ANSIBuf, Indent, Offset, Position};
use std::alloc::Global;

/// The setting that stands at a path, with this number among them.
#[tactic(auto, unfolding(crate::specs::Settings::setting_at))]
pub fn setting<'v>(alloc: Global, index: usize, spot: &Spot<'v>) -> Result<Setting, Fault<'v>>
    ensures { let here = found spot.now in
        IsReadingOr (IsUnknownAt index here) (setting_at here) result }
{
    let Some((name, count)) = spot.word() else {
        return Err(spot.unexpected("a list of the name of a setting and its values"));
    };
    match by_name(alloc, name, count, spot)? {
        Some(setting) => Ok(setting),
        None => Err(unlike_all(index, name, spot)),
    }
}

/// That no setting has this name, or that the one which has it has other values.
fn unlike_all<'v>(index: usize, name: &'v str, spot: &Spot<'v>) -> Fault<'v>
    ensures { IsUnlike index name.now result }
{
    match form_named(name) {
        Some((_, spelled)) => spot.unexpected(*spelled),
        None => Fault::UnknownSetting(index, name),
    }
}

/// The setting of a name with so many values, if there is one.
fn by_name<'v>(
    alloc: Global,
    name: &str,
    count: usize,
    spot: &Spot<'v>,
) -> Result<Option<Setting>, Fault<'v>>
    ensures { IsReadingOrNone (setting_by_word (found spot.now) (name.now, count)) result }
{
    match count {
        0 => Ok(bare(name)),
        1 => of_table(alloc, name, &spot.at(1)),
        2 => of_line(alloc, name, &spot.at(1), &spot.at(2)),
        3 => of_character(alloc, name, spot),
        _ => Ok(None),
    }
}

/// One that removes all of a kind.
#[tactic(auto, unfolding(crate::specs::Settings::bare_setting))]
fn bare(name: &str) -> Option<Setting>
    ensures { result ≡ bare_setting name.now }
{
    Some(match name {
        "RemoveBorders" => Setting::RemoveBorders,
        "RemoveBordersColors" => Setting::RemoveBordersColors,
        "RemoveColorLineHorizontal" => Setting::RemoveColorLineHorizontal,
        "RemoveColorLineVertical" => Setting::RemoveColorLineVertical,
        "RemoveHorizontalChars" => Setting::RemoveHorizontalChars,
        "RemoveVerticalChars" => Setting::RemoveVerticalChars,
        "RemoveColumnSpans" => Setting::RemoveColumnSpans,
        "RemoveRowSpans" => Setting::RemoveRowSpans,
        _ => return None,
    })
}

/// One of the margins or of the frame, or one that removes the characters of a cell's lines, by its value.
#[tactic(auto, unfolding(crate::specs::Settings::table_setting))]
fn of_table<'v>(alloc: Global, name: &str, value: &Spot<'v>) -> Result<Option<Setting>, Fault<'v>>
    ensures { IsReadingOrNone (table_setting name.now (found value.now)) result }
{
    Ok(Some(match name {
        "SetMargin" => Setting::SetMargin(filled(sides(alloc, value)?, Indent::zero())),
        "SetMarginColor" => Setting::SetMarginColor(sides(alloc, value)?),
        "SetMarginOffset" => {
            Setting::SetMarginOffset(filled(sides(alloc, value)?, Offset::Start(0)))
        }
        "SetBorders" => Setting::SetBorders(frame(alloc, value)?),
        "SetBorderDefault" => Setting::SetBorderDefault(value.character()?),
        "SetBordersColor" => Setting::SetBordersColor(frame(alloc, value)?),
        "SetBorderColorDefault" => Setting::SetBorderColorDefault(ANSIBuf::told(alloc, value)?),
        "SetBordersMissing" => Setting::SetBordersMissing(value.character()?),
        "RemoveOverriddenHorizontal" => Setting::RemoveOverriddenHorizontal(position(value)?),
        "RemoveOverriddenVertical" => Setting::RemoveOverriddenVertical(position(value)?),
        _ => return Ok(None),
    }))
}

/// One of the line with a number, or else one of an entity or of a position, by its value.
#[tactic(auto, unfolding(crate::specs::Settings::line_setting))]
fn of_line<'v>(
    alloc: Global,
    name: &str,
    first: &Spot<'v>,
    second: &Spot<'v>,
) -> Result<Option<Setting>, Fault<'v>>
    ensures { IsReadingOrNone (line_setting name.now (found first.now) (found second.now)) result }
{
    Ok(Some(match name {
        "InsertHorizontalLine" => {
            Setting::InsertHorizontalLine(first.number()?, horizontal_line(alloc, second)?)
        }
        "RemoveHorizontalLine" => {
            Setting::RemoveHorizontalLine(first.number()?, second.number()?)
        }
        "InsertVerticalLine" => {
            Setting::InsertVerticalLine(first.number()?, vertical_line(alloc, second)?)
        }
        "RemoveVerticalLine" => Setting::RemoveVerticalLine(first.number()?, second.number()?),
        _ => return of_entity(alloc, name, first, second),
    }))
}

/// One of an entity, or else one of a position, by its value.
#[tactic(auto, unfolding(crate::specs::Settings::entity_setting))]
fn of_entity<'v>(
    alloc: Global,
    name: &str,
    first: &Spot<'v>,
    second: &Spot<'v>,
) -> Result<Option<Setting>, Fault<'v>>
    ensures { IsReadingOrNone
        (entity_setting name.now (found first.now) (found second.now)) result }
{
    Ok(Some(match name {
        "SetPadding" => {
            Setting::SetPadding(
                entity(first)?,
                filled(sides(alloc, second)?, Indent::zero()),
            )
        }
        "SetPaddingColor" => Setting::SetPaddingColor(entity(first)?, sides(alloc, second)?),
        "SetTrimHorizontal" => Setting::SetTrimHorizontal(entity(first)?, second.flag()?),
        "SetTrimVertical" => Setting::SetTrimVertical(entity(first)?, second.flag()?),
        "SetLineAlignment" => Setting::SetLineAlignment(entity(first)?, second.flag()?),
        "SetAlignmentHorizontal" => {
            Setting::SetAlignmentHorizontal(entity(first)?, horizontal(second)?)
        }
        "SetAlignmentVertical" => {
            Setting::SetAlignmentVertical(entity(first)?, vertical(second)?)
        }
        "SetJustification" => Setting::SetJustification(entity(first)?, second.character()?),
        "SetJustificationColor" => {
            Setting::SetJustificationColor(entity(first)?, optional(alloc, second)?)
        }
        _ => return of_cell(alloc, name, first, second),
    }))
}

/// One of the border or the spans at a position, by its value.
#[tactic(auto, unfolding(crate::specs::Settings::cell_setting))]
fn of_cell<'v>(
    alloc: Global,
    name: &str,
    first: &Spot<'v>,
    second: &Spot<'v>,
) -> Result<Option<Setting>, Fault<'v>>
    ensures { IsReadingOrNone (cell_setting name.now (found first.now) (found second.now)) result }
{
    let shape = "the numbers of rows and columns";
    Ok(Some(match name {
        "SetBorder" => Setting::SetBorder(position(first)?, border(alloc, second)?),
        "SetBorderColor" => Setting::SetBorderColor(position(first)?, border(alloc, second)?),
        "RemoveBorder" => Setting::RemoveBorder(position(first)?, second.two_numbers(shape)?),
        "RemoveBorderColor" => {
            Setting::RemoveBorderColor(position(first)?, second.two_numbers(shape)?)
        }
        "SetColumnSpan" => Setting::SetColumnSpan(position(first)?, second.number()?),
        "SetRowSpan" => Setting::SetRowSpan(position(first)?, second.number()?),
        _ => return Ok(None),
    }))
}

/// One of a character of a cell's line, at a position and an offset.
#[tactic(auto, unfolding(crate::specs::Settings::character_setting))]
fn of_character<'v>(
    alloc: Global,
    name: &str,
    spot: &Spot<'v>,
) -> Result<Option<Setting>, Fault<'v>>
    ensures { IsReadingOrNone (character_setting name.now
        (option_zip (position_at (item_at 1 (found spot.now)))
        (offset_at (item_at 2 (found spot.now)))) (item_at 3 (found spot.now))) result }
{
    let (at, along, value) = (spot.at(1), spot.at(2), spot.at(3));
    Ok(Some(match name {
        "SetHorizontalChar" => {
            Setting::SetHorizontalChar(
                position(&at)?,
                Offset::told(alloc, &along)?,
                value.character()?,
            )
        }
        "SetVerticalChar" => {
            Setting::SetVerticalChar(
                position(&at)?,
                Offset::told(alloc, &along)?,
                value.character()?,
            )
        }
        "SetHorizontalCharColor" => {
            Setting::SetHorizontalCharColor(
                position(&at)?,
                Offset::told(alloc, &along)?,
                ANSIBuf::told(alloc, &value)?,
            )
        }
        "SetVerticalCharColor" => {
            Setting::SetVerticalCharColor(
                position(&at)?,
                Offset::told(alloc, &along)?,
                ANSIBuf::told(alloc, &value)?,
            )
        }
        _ => return Ok(None),
    }))
}
