//! The picture of a table.

ghost use Rattle.std.specs.Prelude.{◌≡◌};
ghost use Rattle.papergrid_c.specs.Asked.{AsksTable, DrawsPicture, TellsOfTable, TellsPicture, cell_of_error, sizing_of};

use crate::handle::Handle;
use crate::numbers::{DONE, NO_ROOM, NO_TABLE, number_of};
use crate::sizes::sizing_of;
use crate::structs::PapergridPosition;
use papergrid_builder::{Builder, BuilderError};
use papergrid_layout::Sizing;
use std::alloc::Global;

/// Draws the table: its picture, each line with a line feed, is kept, and its length in bytes told. Where it is refused for a cell, tells
/// that cell.
#[unsafe(no_mangle)]
pub extern "C" fn papergrid_draw(
    alloc: Global,
    handle: &mut Handle,
    least: u32,
    length: &mut usize,
    at: &mut PapergridPosition,
) -> i32
    ensures { TellsOfTable (DrawsPicture (sizing_of least)) handle.old.held (length.old, at.old)
        handle.new.held (length.new, at.new) result }
{
    match handle.take(alloc) {
        None => NO_TABLE,
        Some(mut builder) => {
            let answer = draw(alloc, &mut builder, sizing_of(least), length, at);
            *handle = Handle::of(builder);
            answer
        }
    }
}

fn draw(
    alloc: Global,
    builder: &mut Builder,
    sizing: Sizing,
    length: &mut usize,
    at: &mut PapergridPosition,
) -> i32
    ensures { DrawsPicture sizing builder.old (length.old, at.old) builder.new
        (length.new, at.new) result }
{
    match builder.draw(alloc, sizing) {
        Ok(()) => {
            *length = builder.picture().len();
            DONE
        }
        Err(error) => {
            *at = cell_of(error, *at);
            number_of(error)
        }
    }
}

/// The cell of which an error speaks, or else the other.
fn cell_of(error: BuilderError, other: PapergridPosition) -> PapergridPosition
    ensures { result ≡ cell_of_error error other }
{
    match error {
        BuilderError::OutOfTable(position) | BuilderError::NotTiled(position) => {
            PapergridPosition::of(position)
        }
        _ => other,
    }
}

/// Copies the picture that was drawn last to the front of `bytes`.
#[unsafe(no_mangle)]
pub extern "C" fn papergrid_picture(alloc: Global, handle: &mut Handle, bytes: &mut [u8]) -> i32
    ensures { AsksTable TellsPicture handle.old.held bytes.old handle.new.held bytes.new result }
{
    match handle.take(alloc) {
        None => NO_TABLE,
        Some(builder) => {
            let answer = tell_picture(&builder, bytes);
            *handle = Handle::of(builder);
            answer
        }
    }
}

fn tell_picture(builder: &Builder, bytes: &mut [u8]) -> i32
    ensures { TellsPicture builder.now bytes.old bytes.new result }
{
    let picture = builder.picture();
    let count = picture.len();
    if bytes.len() < count {
        return NO_ROOM;
    }
    bytes[..count].copy_from_slice(picture);
    DONE
}
