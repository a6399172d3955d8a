//! The lines of a script that set something of its table.

ghost use Rattle.std.specs.Prelude.{◌≡◌, option_map};
ghost use Rattle.papergrid_script.specs.Settings.{setting_told, spaced_sides};
ghost use Rattle.papergrid_script.specs.Grammar.{entity_said, padding_of, number_and_character, position_and_count, position_said, keyword_setting, sides_of};

use crate::cut::split_at_byte;
use crate::number::number;
use crate::script_setting::ScriptSetting;
use papergrid_text::string::single_character;
use papergrid_values::{Entity, Position, Sides};

/// The setting of a keyword, and of what stands after it and a space.
#[tactic(auto, unfolding(crate::specs::Grammar::keyword_setting))]
pub fn line_setting(keyword: &str, rest: &str) -> Option<ScriptSetting>
    ensures { option_map setting_told result ≡ keyword_setting keyword.now rest.now }
{
    match keyword {
        "pad" => padding(rest),
        "colspan" => position_and_count(rest).map(|(position, span)| ScriptSetting::ColumnSpan(
            position, span,
        )),
        "rowspan" => position_and_count(rest).map(|(position, span)| ScriptSetting::RowSpan(
            position, span,
        )),
        "border" => single_character(rest).map(ScriptSetting::Border),
        "vline" => number_and_character(rest).map(|(col, c)| ScriptSetting::VerticalLine(col, c)),
        "hline" => number_and_character(rest).map(|(row, c)| ScriptSetting::HorizontalLine(row, c)),
        "novline" => number(rest).map(ScriptSetting::NoVerticalLine),
        "nohline" => number(rest).map(ScriptSetting::NoHorizontalLine),
        _ => None,
    }
}

/// A number, and one character after it and a space.
#[tactic(auto, unfolding(crate::specs::Grammar::number_and_character))]
fn number_and_character(spelled: &str) -> Option<(usize, char)>
    ensures { result ≡ number_and_character spelled.now }
{
    let (digits, rest) = split_at_byte(spelled, b' ')?;
    Some((number(digits)?, single_character(rest)?))
}

/// An entity, and four numbers of spaces after it.
#[tactic(auto, unfolding(crate::specs::Grammar::padding_of))]
fn padding(spelled: &str) -> Option<ScriptSetting>
    ensures { option_map setting_told result ≡ padding_of spelled.now }
{
    let (first, rest) = split_at_byte(spelled, b' ')?;
    Some(ScriptSetting::Padding(entity(first)?, sides(rest)?))
}

/// So many spaces for left, right, top and bottom.
#[tactic(auto, unfolding(crate::specs::Grammar::sides_of))]
fn sides(spelled: &str) -> Option<Sides<usize>>
    ensures { option_map spaced_sides result ≡ sides_of spelled.now }
{
    let (left, rest) = split_at_byte(spelled, b' ')?;
    let (right, rest) = split_at_byte(rest, b' ')?;
    let (top, bottom) = split_at_byte(rest, b' ')?;
    Some(Sides::new(number(left)?, number(right)?, number(top)?, number(bottom)?))
}

/// The entity that the text spells: `*`, `c` or `r` with a number, or a row and a column with a comma.
#[tactic(auto, unfolding(crate::specs::Grammar::entity_said))]
fn entity(spelled: &str) -> Option<Entity>
    ensures { result ≡ entity_said spelled.now }
{
    if spelled == "*" {
        return Some(Entity::Global);
    }
    if let Some(digits) = spelled.strip_prefix("c") {
        return number(digits).map(Entity::Column);
    }
    if let Some(digits) = spelled.strip_prefix("r") {
        return number(digits).map(Entity::Row);
    }
    let position = position(spelled)?;
    Some(Entity::Cell(position.row, position.col))
}

/// The position at a row and a column with a comma between them.
#[tactic(auto, unfolding(crate::specs::Grammar::position_said))]
pub fn position(spelled: &str) -> Option<Position>
    ensures { result ≡ position_said spelled.now }
{
    let (row, col) = split_at_byte(spelled, b',')?;
    Some(Position::new(number(row)?, number(col)?))
}

/// A position, and a number after it and a space.
#[tactic(auto, unfolding(crate::specs::Grammar::position_and_count))]
fn position_and_count(spelled: &str) -> Option<(Position, usize)>
    ensures { result ≡ position_and_count spelled.now }
{
    let (cell, count) = split_at_byte(spelled, b' ')?;
    Some((position(cell)?, number(count)?))
}
