//! Settings by C's values. Each call adds one more setting.

ghost use Rattle.papergrid_c.specs.Calls.{ChangesTable, Sets};
ghost use Rattle.papergrid_c.specs.Settings.{alignment_setting, border_setting, borders_setting, column_span_setting, horizontal_line_setting, padding_setting, row_span_setting, vertical_line_setting, vertical_setting};

use crate::handle::Handle;
use crate::made::{
    alignment_setting, border_setting, borders_setting, horizontal_line_setting, padding_setting,
    vertical_line_setting, vertical_setting,
};
use crate::structs::PapergridEntity;
use crate::told::set;
use papergrid_config::Setting;
use papergrid_values::Position;
use std::alloc::Global;

/// So many blanks at the left, at the right, above and below.
#[unsafe(no_mangle)]
pub extern "C" fn papergrid_set_padding(
    alloc: Global,
    handle: &mut Handle,
    entity: PapergridEntity,
    left: usize,
    right: usize,
    top: usize,
    bottom: usize,
) -> i32
    ensures { ChangesTable (Sets (padding_setting entity left right top bottom))
        handle.old.held handle.new.held result }
{
    set(
        alloc,
        handle,
        padding_setting(entity, left, right, top, bottom),
    )
}

/// Texts stand at the left (0), in the middle (1) or at the right (2).
#[unsafe(no_mangle)]
pub extern "C" fn papergrid_set_alignment(
    alloc: Global,
    handle: &mut Handle,
    entity: PapergridEntity,
    alignment: u32,
) -> i32
    ensures { ChangesTable (Sets (alignment_setting entity alignment))
        handle.old.held handle.new.held result }
{
    set(alloc, handle, alignment_setting(entity, alignment))
}

/// Texts stand at the top (0), in the middle (1) or at the bottom (2).
#[unsafe(no_mangle)]
pub extern "C" fn papergrid_set_vertical_alignment(
    alloc: Global,
    handle: &mut Handle,
    entity: PapergridEntity,
    alignment: u32,
) -> i32
    ensures { ChangesTable (Sets (vertical_setting entity alignment))
        handle.old.held handle.new.held result }
{
    set(alloc, handle, vertical_setting(entity, alignment))
}

/// The frame and the lines inside of 15 characters, in the order of the fields of `Borders`; 0 is none.
#[unsafe(no_mangle)]
pub extern "C" fn papergrid_set_borders(
    alloc: Global,
    handle: &mut Handle,
    characters: &[u32],
) -> i32
    ensures { ChangesTable (Sets (borders_setting characters.now))
        handle.old.held handle.new.held result }
{
    set(alloc, handle, borders_setting(characters))
}

/// The border of a cell of 8 characters, in the order of the fields of `Border`; 0 is none.
#[unsafe(no_mangle)]
pub extern "C" fn papergrid_set_border(
    alloc: Global,
    handle: &mut Handle,
    row: usize,
    column: usize,
    characters: &[u32],
) -> i32
    ensures { ChangesTable (Sets (border_setting row column characters.now))
        handle.old.held handle.new.held result }
{
    set(alloc, handle, border_setting(row, column, characters))
}

/// A line before a row of 4 characters: itself, its crossings, its left end, its right end; 0 is none.
#[unsafe(no_mangle)]
pub extern "C" fn papergrid_insert_horizontal_line(
    alloc: Global,
    handle: &mut Handle,
    row: usize,
    characters: &[u32],
) -> i32
    ensures { ChangesTable (Sets (horizontal_line_setting row characters.now))
        handle.old.held handle.new.held result }
{
    set(alloc, handle, horizontal_line_setting(row, characters))
}

/// A line before a column of 4 characters: itself, its crossings, its upper end, its lower end; 0 is none.
#[unsafe(no_mangle)]
pub extern "C" fn papergrid_insert_vertical_line(
    alloc: Global,
    handle: &mut Handle,
    column: usize,
    characters: &[u32],
) -> i32
    ensures { ChangesTable (Sets (vertical_line_setting column characters.now))
        handle.old.held handle.new.held result }
{
    set(alloc, handle, vertical_line_setting(column, characters))
}

/// The cell goes over so many columns; over one or none it spans nothing.
#[unsafe(no_mangle)]
pub extern "C" fn papergrid_set_column_span(
    alloc: Global,
    handle: &mut Handle,
    row: usize,
    column: usize,
    columns: usize,
) -> i32
    ensures { ChangesTable (Sets (column_span_setting row column columns))
        handle.old.held handle.new.held result }
{
    let setting = Setting::SetColumnSpan(Position::new(row, column), columns);
    set(alloc, handle, Some(setting))
}

/// The cell goes over so many rows; over one or none it spans nothing.
#[unsafe(no_mangle)]
pub extern "C" fn papergrid_set_row_span(
    alloc: Global,
    handle: &mut Handle,
    row: usize,
    column: usize,
    rows: usize,
) -> i32
    ensures { ChangesTable (Sets (row_span_setting row column rows))
        handle.old.held handle.new.held result }
{
    let setting = Setting::SetRowSpan(Position::new(row, column), rows);
    set(alloc, handle, Some(setting))
}
