//! The sizes of a table, and where its cells stand.

ghost use Rattle.std.specs.Prelude.{◌≡◌};
ghost use Rattle.papergrid_c.specs.Asked.{AsksTable, Estimates, TellsCell, TellsOfTable, TellsPlace, sizing_of};

use crate::handle::Handle;
use crate::numbers::{DONE, NO_CELL, NO_TABLE, number_of};
use crate::structs::{PapergridPlace, PapergridPosition};
use papergrid_builder::Builder;
use papergrid_layout::Sizing;
use papergrid_values::Position;
use std::alloc::Global;

/// Sizes by shares (0), or the least.
pub fn sizing_of(least: u32) -> Sizing
    ensures { result ≡ sizing_of least }
{
    match least {
        0 => Sizing::ByShares,
        _ => Sizing::Least,
    }
}

/// Finds the sizes of the table and keeps them until something more is added. Tells the total width in columns of a terminal and the
/// total height in lines, with all lines and without margins.
#[unsafe(no_mangle)]
pub extern "C" fn papergrid_estimate(
    alloc: Global,
    handle: &mut Handle,
    least: u32,
    width: &mut usize,
    height: &mut usize,
) -> i32
    ensures { TellsOfTable (Estimates (sizing_of least)) handle.old.held (width.old, height.old)
        handle.new.held (width.new, height.new) result }
{
    match handle.take(alloc) {
        None => NO_TABLE,
        Some(mut builder) => {
            let answer = estimate(alloc, &mut builder, sizing_of(least), width, height);
            *handle = Handle::of(builder);
            answer
        }
    }
}

fn estimate(
    alloc: Global,
    builder: &mut Builder,
    sizing: Sizing,
    width: &mut usize,
    height: &mut usize,
) -> i32
    ensures { Estimates sizing builder.old (width.old, height.old)
        builder.new (width.new, height.new) result }
{
    match builder.estimate(alloc, sizing) {
        Ok((across, down)) => {
            *width = across;
            *height = down;
            DONE
        }
        Err(error) => number_of(error),
    }
}

/// Tells where the cell at a position stands, by the sizes that were found.
#[unsafe(no_mangle)]
pub extern "C" fn papergrid_place(
    alloc: Global,
    handle: &mut Handle,
    row: usize,
    column: usize,
    place: &mut PapergridPlace,
) -> i32
    ensures { AsksTable (TellsPlace (record { row = row; col = column }))
        handle.old.held place.old handle.new.held place.new result }
{
    match handle.take(alloc) {
        None => NO_TABLE,
        Some(builder) => {
            let answer = tell_place(alloc, &builder, Position::new(row, column), place);
            *handle = Handle::of(builder);
            answer
        }
    }
}

fn tell_place(
    alloc: Global,
    builder: &Builder,
    position: Position,
    place: &mut PapergridPlace,
) -> i32
    ensures { TellsPlace position builder.now place.old place.new result }
{
    match builder.place(alloc, position) {
        Ok(found) => {
            *place = PapergridPlace::of(found);
            DONE
        }
        Err(error) => number_of(error),
    }
}

/// Tells the cell at a column of the terminal in a line, both counted from the left edge and the top of the table, by the sizes that were
/// found.
#[unsafe(no_mangle)]
pub extern "C" fn papergrid_cell_at(
    alloc: Global,
    handle: &mut Handle,
    column: usize,
    line: usize,
    cell: &mut PapergridPosition,
) -> i32
    ensures { AsksTable (TellsCell column line)
        handle.old.held cell.old handle.new.held cell.new result }
{
    match handle.take(alloc) {
        None => NO_TABLE,
        Some(builder) => {
            let answer = tell_cell(alloc, &builder, column, line, cell);
            *handle = Handle::of(builder);
            answer
        }
    }
}

fn tell_cell(
    alloc: Global,
    builder: &Builder,
    column: usize,
    line: usize,
    cell: &mut PapergridPosition,
) -> i32
    ensures { TellsCell column line builder.now cell.old cell.new result }
{
    match builder.cell_at(alloc, column, line) {
        Ok(Some(found)) => {
            *cell = PapergridPosition::of(found);
            DONE
        }
        Ok(None) => NO_CELL,
        Err(error) => number_of(error),
    }
}
