//! The sizes that were found of a table, and the cells that certify them.

ghost use Rattle.std.specs.Prelude.{map};
ghost use Rattle.papergrid_values.specs.declared.direction.Direction.TheVariants.{Columns, Rows};
ghost use Rattle.papergrid_c.specs.Asked.{AsksTable, TellsCertificate, TellsCounted, TellsSizes, position_for_c};

use crate::handle::Handle;
use crate::numbers::{DONE, NO_CERTIFICATE, NO_ROOM, NO_TABLE, number_of};
use crate::structs::PapergridPosition;
use papergrid_builder::{Builder, BuilderError};
use papergrid_values::{Direction, Position};
use std::alloc::Global;

/// Tells how many columns there are, and copies their widths, in columns of a terminal, to the front of `widths`, where they fit.
#[unsafe(no_mangle)]
pub extern "C" fn papergrid_widths(
    alloc: Global,
    handle: &mut Handle,
    widths: &mut [usize],
    count: &mut usize,
) -> i32
    ensures { AsksTable (TellsSizes Columns) handle.old.held (widths.old, count.old)
        handle.new.held (widths.new, count.new) result }
{
    match handle.take(alloc) {
        None => NO_TABLE,
        Some(builder) => {
            let answer = tell_sizes(&builder, Direction::Columns, widths, count);
            *handle = Handle::of(builder);
            answer
        }
    }
}

/// Tells how many rows there are, and copies their heights, in lines, to the front of `heights`, where they fit.
#[unsafe(no_mangle)]
pub extern "C" fn papergrid_heights(
    alloc: Global,
    handle: &mut Handle,
    heights: &mut [usize],
    count: &mut usize,
) -> i32
    ensures { AsksTable (TellsSizes Rows) handle.old.held (heights.old, count.old)
        handle.new.held (heights.new, count.new) result }
{
    match handle.take(alloc) {
        None => NO_TABLE,
        Some(builder) => {
            let answer = tell_sizes(&builder, Direction::Rows, heights, count);
            *handle = Handle::of(builder);
            answer
        }
    }
}

fn tell_sizes(
    builder: &Builder,
    direction: Direction,
    sizes: &mut [usize],
    count: &mut usize,
) -> i32
    ensures { TellsSizes direction builder.now (sizes.old, count.old)
        (sizes.new, count.new) result }
{
    let Some(found) = builder.sizes(direction) else {
        return number_of(BuilderError::NotEstimated);
    };
    let length = found.len();
    *count = length;
    if sizes.len() < length {
        return NO_ROOM;
    }
    sizes[..length].copy_from_slice(found);
    DONE
}

/// Tells how many cells certify the widths, and copies their positions to the front of `cells`, where they fit.
#[unsafe(no_mangle)]
pub extern "C" fn papergrid_width_certificate(
    alloc: Global,
    handle: &mut Handle,
    cells: &mut [PapergridPosition],
    count: &mut usize,
) -> i32
    ensures { AsksTable (TellsCertificate Columns) handle.old.held (cells.old, count.old)
        handle.new.held (cells.new, count.new) result }
{
    match handle.take(alloc) {
        None => NO_TABLE,
        Some(builder) => {
            let answer = tell_certificate(&builder, Direction::Columns, cells, count);
            *handle = Handle::of(builder);
            answer
        }
    }
}

/// Tells how many cells certify the heights, and copies their positions to the front of `cells`, where they fit.
#[unsafe(no_mangle)]
pub extern "C" fn papergrid_height_certificate(
    alloc: Global,
    handle: &mut Handle,
    cells: &mut [PapergridPosition],
    count: &mut usize,
) -> i32
    ensures { AsksTable (TellsCertificate Rows) handle.old.held (cells.old, count.old)
        handle.new.held (cells.new, count.new) result }
{
    match handle.take(alloc) {
        None => NO_TABLE,
        Some(builder) => {
            let answer = tell_certificate(&builder, Direction::Rows, cells, count);
            *handle = Handle::of(builder);
            answer
        }
    }
}

fn tell_certificate(
    builder: &Builder,
    direction: Direction,
    cells: &mut [PapergridPosition],
    count: &mut usize,
) -> i32
    ensures { TellsCertificate direction builder.now (cells.old, count.old)
        (cells.new, count.new) result }
{
    if builder.sizes(direction).is_none() {
        return number_of(BuilderError::NotEstimated);
    }
    match builder.certificate(direction) {
        None => NO_CERTIFICATE,
        Some(positions) => tell_positions(positions, cells, count),
    }
}

fn tell_positions(positions: &[Position], cells: &mut [PapergridPosition], count: &mut usize) -> i32
    ensures { TellsCounted (map position_for_c positions.now) (cells.old, count.old)
        (cells.new, count.new) result }
{
    let length = positions.len();
    *count = length;
    if cells.len() < length {
        return NO_ROOM;
    }
    for i in 0..length {
        cells[i] = PapergridPosition::of(positions[i]);
    }
    DONE
}
