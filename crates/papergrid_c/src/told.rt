//! A table that C builds call by call.

ghost use Rattle.std.specs.Prelude.{◌≡◌, None};
ghost use Rattle.papergrid_c.specs.Calls.{ChangesTable, EndsRow, Makes, PushesCell, PushesRows, ReadsSetting, Sets};
ghost use Rattle.papergrid_c.specs.Numbers.{number_of};

use crate::handle::Handle;
use crate::numbers::{BAD_VALUE, DONE, NO_TABLE, number, number_of};
use papergrid_builder::{Builder, BuilderError};
use papergrid_config::Setting;
use std::alloc::Global;

/// Puts a table without settings and texts into the handle. A table that it had is dropped. Where memory is refused it has none.
#[unsafe(no_mangle)]
pub extern "C" fn papergrid_new(alloc: Global, handle: &mut Handle) -> i32
    ensures { Makes handle.new.held result }
{
    match Box::new(alloc, Builder::new(alloc)) {
        Ok(builder) => {
            *handle = Handle::of(builder);
            DONE
        }
        Err(_) => {
            *handle = Handle::empty(alloc);
            number_of(BuilderError::Memory)
        }
    }
}

/// Drops the table of the handle, if it has one. It has none from then on.
#[unsafe(no_mangle)]
pub extern "C" fn papergrid_free(alloc: Global, handle: &mut Handle)
    ensures { handle.new.held ≡ None }
{
    drop(handle.take(alloc));
}

/// Tells the text of one more cell of the last row, in UTF-8. The first cell of all begins the first row.
#[unsafe(no_mangle)]
pub extern "C" fn papergrid_push_cell(alloc: Global, handle: &mut Handle, text: &[u8]) -> i32
    ensures { ChangesTable (PushesCell text.now) handle.old.held handle.new.held result }
{
    match handle.take(alloc) {
        None => NO_TABLE,
        Some(mut builder) => {
            let answer = builder.push_cell(text);
            *handle = Handle::of(builder);
            number(answer)
        }
    }
}

/// Ends the last row: the next cell begins a new one. Where it would anyway, there is one more row, without cells.
#[unsafe(no_mangle)]
pub extern "C" fn papergrid_end_row(alloc: Global, handle: &mut Handle) -> i32
    ensures { ChangesTable EndsRow handle.old.held handle.new.held result }
{
    match handle.take(alloc) {
        None => NO_TABLE,
        Some(mut builder) => {
            let answer = builder.end_row();
            *handle = Handle::of(builder);
            number(answer)
        }
    }
}

/// Tells the rows that a text is cut into: each byte `row_end` ends a row, and each byte `cell_end` stands between two cells. A row that
/// goes on is ended before.
#[unsafe(no_mangle)]
pub extern "C" fn papergrid_push_rows(
    alloc: Global,
    handle: &mut Handle,
    text: &[u8],
    cell_end: u8,
    row_end: u8,
) -> i32
    ensures { ChangesTable (PushesRows cell_end row_end text.now)
        handle.old.held handle.new.held result }
{
    match handle.take(alloc) {
        None => NO_TABLE,
        Some(mut builder) => {
            let answer = builder.push_rows(text, cell_end, row_end);
            *handle = Handle::of(builder);
            number(answer)
        }
    }
}

/// Tells one more setting, by a JSON list of its name and its values.
#[unsafe(no_mangle)]
pub extern "C" fn papergrid_set(alloc: Global, handle: &mut Handle, json: &[u8]) -> i32
    ensures { ChangesTable (ReadsSetting json.now) handle.old.held handle.new.held result }
{
    match handle.take(alloc) {
        None => NO_TABLE,
        Some(mut builder) => {
            let answer = builder.read_setting(alloc, json);
            *handle = Handle::of(builder);
            number(answer)
        }
    }
}

/// Tells one more setting, unless the values made none.
pub fn set(alloc: Global, handle: &mut Handle, setting: Option<Setting>) -> i32
    ensures { ChangesTable (Sets setting) handle.old.held handle.new.held result }
{
    match handle.take(alloc) {
        None => {
            drop(setting);
            NO_TABLE
        }
        Some(mut builder) => {
            let answer = set_in(&mut builder, setting);
            *handle = Handle::of(builder);
            answer
        }
    }
}

fn set_in(builder: &mut Builder, setting: Option<Setting>) -> i32
    ensures { Sets setting builder.old builder.new result }
{
    match setting {
        None => BAD_VALUE,
        Some(setting) => number(builder.push_setting(setting)),
    }
}
