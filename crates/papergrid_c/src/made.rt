//! The settings that C's values make.

ghost use Rattle.std.specs.Prelude.{◌≡◌, ◌<◌, length};
ghost use lib.Utf8.{scalar};
ghost use Rattle.std.specs.List.{list_all};
ghost use Rattle.papergrid_c.specs.Settings.{alignment_setting, are_parts, border_setting, borders_setting, entity_of, horizontal_line_setting, horizontal_of, padding_setting, part_at, vertical_line_setting, vertical_of, vertical_setting};

use crate::structs::PapergridEntity;
use papergrid_config::Setting;
use papergrid_values::{
    AlignmentHorizontal, AlignmentVertical, Border, Borders, Entity, HorizontalLine, Indent,
    Position, Sides, VerticalLine,
};

fn entity_of(entity: PapergridEntity) -> Option<Entity>
    ensures { result ≡ entity_of entity }
{
    match entity.kind {
        0 => Some(Entity::Global),
        1 => Some(Entity::Column(entity.column)),
        2 => Some(Entity::Row(entity.row)),
        3 => Some(Entity::Cell(entity.row, entity.column)),
        _ => None,
    }
}

pub fn padding_setting(
    entity: PapergridEntity,
    left: usize,
    right: usize,
    top: usize,
    bottom: usize,
) -> Option<Setting>
    ensures { result ≡ padding_setting entity left right top bottom }
{
    let padding = Sides::new(
        Indent::spaced(left),
        Indent::spaced(right),
        Indent::spaced(top),
        Indent::spaced(bottom),
    );
    Some(Setting::SetPadding(entity_of(entity)?, padding))
}

fn horizontal_of(alignment: u32) -> Option<AlignmentHorizontal>
    ensures { result ≡ horizontal_of alignment }
{
    match alignment {
        0 => Some(AlignmentHorizontal::Left),
        1 => Some(AlignmentHorizontal::Center),
        2 => Some(AlignmentHorizontal::Right),
        _ => None,
    }
}

pub fn alignment_setting(entity: PapergridEntity, alignment: u32) -> Option<Setting>
    ensures { result ≡ alignment_setting entity alignment }
{
    Some(Setting::SetAlignmentHorizontal(entity_of(entity)?, horizontal_of(alignment)?))
}

fn vertical_of(alignment: u32) -> Option<AlignmentVertical>
    ensures { result ≡ vertical_of alignment }
{
    match alignment {
        0 => Some(AlignmentVertical::Top),
        1 => Some(AlignmentVertical::Center),
        2 => Some(AlignmentVertical::Bottom),
        _ => None,
    }
}

pub fn vertical_setting(entity: PapergridEntity, alignment: u32) -> Option<Setting>
    ensures { result ≡ vertical_setting entity alignment }
{
    Some(Setting::SetAlignmentVertical(entity_of(entity)?, vertical_of(alignment)?))
}

fn is_scalar(code: u32) -> bool
    ensures { result ≡ scalar code }
{
    char::from_u32(code).is_some()
}

/// Whether they are so many numbers of characters.
fn are_parts(characters: &[u32], count: usize) -> bool
    ensures { result ≡ are_parts count characters.now }
{
    characters.len() == count && are_characters(characters)
}

fn are_characters(codes: &[u32]) -> bool
    ensures { result ≡ list_all scalar codes.now }
{
    codes.iter().all(|code| is_scalar(*code))
}

/// The character with the number at an index; 0 is none.
fn part_at(characters: &[u32], index: usize) -> Option<char>
    requires { index < length characters.now }
    ensures { result ≡ part_at characters.now index }
{
    match characters[index] {
        0 => None,
        code => char::from_u32(code),
    }
}

pub fn borders_setting(characters: &[u32]) -> Option<Setting>
    ensures { result ≡ borders_setting characters.now }
{
    if !are_parts(characters, 15) {
        return None;
    }
    Some(Setting::SetBorders(Borders {
        top: part_at(characters, 0),
        top_left: part_at(characters, 1),
        top_right: part_at(characters, 2),
        top_intersection: part_at(characters, 3),
        bottom: part_at(characters, 4),
        bottom_left: part_at(characters, 5),
        bottom_right: part_at(characters, 6),
        bottom_intersection: part_at(characters, 7),
        horizontal: part_at(characters, 8),
        vertical: part_at(characters, 9),
        intersection: part_at(characters, 10),
        left: part_at(characters, 11),
        left_intersection: part_at(characters, 12),
        right: part_at(characters, 13),
        right_intersection: part_at(characters, 14),
    }))
}

pub fn border_setting(row: usize, column: usize, characters: &[u32]) -> Option<Setting>
    ensures { result ≡ border_setting row column characters.now }
{
    if !are_parts(characters, 8) {
        return None;
    }
    let border = Border {
        top: part_at(characters, 0),
        bottom: part_at(characters, 1),
        left: part_at(characters, 2),
        right: part_at(characters, 3),
        left_top_corner: part_at(characters, 4),
        left_bottom_corner: part_at(characters, 5),
        right_top_corner: part_at(characters, 6),
        right_bottom_corner: part_at(characters, 7),
    };
    Some(Setting::SetBorder(Position::new(row, column), border))
}

pub fn horizontal_line_setting(row: usize, characters: &[u32]) -> Option<Setting>
    ensures { result ≡ horizontal_line_setting row characters.now }
{
    if !are_parts(characters, 4) {
        return None;
    }
    let line = HorizontalLine {
        main: part_at(characters, 0),
        intersection: part_at(characters, 1),
        left: part_at(characters, 2),
        right: part_at(characters, 3),
    };
    Some(Setting::InsertHorizontalLine(row, line))
}

pub fn vertical_line_setting(column: usize, characters: &[u32]) -> Option<Setting>
    ensures { result ≡ vertical_line_setting column characters.now }
{
    if !are_parts(characters, 4) {
        return None;
    }
    let line = VerticalLine {
        main: part_at(characters, 0),
        intersection: part_at(characters, 1),
        top: part_at(characters, 2),
        bottom: part_at(characters, 3),
    };
    Some(Setting::InsertVerticalLine(column, line))
}
