//! The picture of a table, written line by line.

ghost use Rattle.std.specs.Prelude.{◌≡◌, ◌⊎◌, ◌-◌, ◌^◌, ◌<◌, ◌≢◌, ⊤, IfErr, IfOk, OnOk, length, string_bytes};
ghost use Rattle.std.specs.Fmt.{WritesInCalls};
ghost use Rattle.std.specs.List.{join_with_byte};
ghost use Rattle.std.specs.Option.{SomeIff};
ghost use Rattle.papergrid_draw.specs.Deliveries.{Draws, IsLeftOff, IsNotBegun, IsStringOf};
ghost use Rattle.papergrid_draw.specs.Drawings.{drawn_of};
ghost use Rattle.papergrid_draw.specs.Drawn.{drawn_lines};
ghost use Rattle.papergrid_draw.specs.Faults.{AllHaveRoom, IsDrawFault, IsDrawable, whole_height};
ghost use Rattle.papergrid_draw.specs.Margins.{printed, printed_lines, whole_width};
ghost use Rattle.papergrid_text.specs.Transfer.{IsTaken};
ghost use Rattle.papergrid_draw.specs.Sinks.{IsCutOff};
ghost use Rattle.papergrid_draw.specs.ForProofs.FilledFrames.{filled, filled_table};
ghost use Rattle.papergrid_draw.specs.ForProofs.Pages.{Texts, drawing_of};
ghost use Rattle.papergrid_draw.specs.ForProofs.Sheets.{Writes, WritesLines, margined};
ghost use Rattle.papergrid_draw.specs.declared.error.DrawError.TheVariants.{Memory, Write};

use crate::delivery::{Delivery, ToSink, ToText};
use crate::error::DrawError;
use crate::filled_frame::FilledFrame;
use crate::page::Frame;
use crate::plain::is_plain;
use crate::room::Room;
use crate::rows::draw_margin;
use crate::sheet::Sheet;
use crate::source::Cells;
use crate::tiles::check_tiles;
use papergrid_config::SpannedConfig;
use papergrid_layout::Table;
use papergrid_text::transfer::Sink;
use std::alloc::{AllocError, Global};
use std::fmt;

/// Writes the picture of a table, one line at a time: nothing of a table without rows or columns. It takes
/// some numbers for each column, and a line. With `Room::Unknown` it reads each cell once before, to know that all have
/// room.
///
/// Condition: with `Room::Known` each visible cell has room, as it has in sizes that an estimate found for these cells.
///
/// # Errors
///
/// `OutOfTable`, `NotTiled`, `NoRoom` and `TooLarge` before anything is written; `Memory` and `Write` after a
/// beginning of the picture.
pub fn draw_cells<'a, S: Cells, W: Sink>(
    alloc: Global,
    table: &'a Table<'a>,
    cells: &'a S,
    room: Room,
    sink: &mut W,
) -> Result<(), DrawError>
where
    S::Cell: Drop,
    requires { room ≡ Room.Known → AllHaveRoom (drawn_of S.lines S.color table.now cells.now) }
    ensures drawable { IsDrawable (drawn_of S.lines S.color table.now cells.now)
        ⊎ IsNotBegun sink.old sink.new result }
    ensures picture { OnOk result (IsTaken W.contents W.has_failed W.has_stalled sink.old
        (printed (drawn_of S.lines S.color table.now cells.now)) sink.new) }
    ensures fault { IfErr result (IsDrawFault (drawn_of S.lines S.color table.now cells.now)) }
    ensures left { IfErr result (IsCutOff W.contents W.has_failed W.has_stalled sink.old
        (printed (drawn_of S.lines S.color table.now cells.now)) sink.new) }
{
    draw_by::<S, ToSink, W>(alloc, table, cells, room, sink)
}

/// Writes the picture of a table as text, one line at a time: nothing of a table without rows or columns. It takes
/// some numbers for each column, and a line. A writer of text says nothing of a text that it did not take.
///
/// # Errors
///
/// `OutOfTable`, `NotTiled`, `NoRoom` and `TooLarge` before anything is written; `Memory` and `Write` after a
/// beginning of the picture.
pub fn draw_text<'a, S: Cells, F: fmt::Write>(
    alloc: Global,
    table: &'a Table<'a>,
    cells: &'a S,
    writer: &mut F,
) -> Result<(), DrawError>
where
    S::Cell: Drop,
    ensures drawable { IsDrawable (drawn_of S.lines S.color table.now cells.now)
        ⊎ IsNotBegun writer.old writer.new result }
    ensures picture { OnOk result (WritesInCalls F.write_str_gives writer.old
        (printed (drawn_of S.lines S.color table.now cells.now)) writer.new) }
    ensures fault { IfErr result (IsDrawFault (drawn_of S.lines S.color table.now cells.now)) }
    ensures left { IfErr result (IsLeftOff F.write_str_gives (λ _ _ _. ⊤) writer.old
        (printed (drawn_of S.lines S.color table.now cells.now)) writer.new) }
{
    draw_by::<S, ToText, F>(alloc, table, cells, Room::Unknown, writer)
}

/// The picture of a table: empty for a table without rows or columns. Beside the picture it takes some numbers for
/// each column, and a line.
///
/// # Errors
///
/// `OutOfTable`, `NotTiled`, `NoRoom`, `TooLarge` and `Memory`.
pub fn drawn_string<'a, S: Cells>(
    alloc: Global,
    table: &'a Table<'a>,
    cells: &'a S,
) -> Result<String, DrawError>
where
    S::Cell: Drop,
    ensures drawable { OnOk result (IsDrawable (drawn_of S.lines S.color table.now cells.now)) }
    ensures picture { IfOk result (λ text. string_bytes text
        ≡ printed (drawn_of S.lines S.color table.now cells.now)) }
    ensures fault { IfErr result (IsDrawFault (drawn_of S.lines S.color table.now cells.now)) }
    ensures works { IfErr result (λ e. e ≢ Write) }
{
    let mut text = String::new(alloc);
    let drawn = draw_text(alloc, table, cells, &mut text);
    string_of(text, drawn)
}

/// A string that was drawn to, where all was drawn.
///
/// # Errors
///
/// As that of the drawing, but `Memory` for `Write`: a string takes each text that it has memory for.
pub fn string_of(text: String, drawn: Result<(), DrawError>) -> Result<String, DrawError>
    ensures { IsStringOf text drawn result }
{
    match drawn {
        Ok(()) => Ok(text),
        Err(DrawError::Write) => Err(DrawError::Memory(AllocError)),
        Err(error) => Err(error),
    }
}

/// Writes the picture of a table, by a way to deliver its lines: nothing of a table without rows or columns.
///
/// Condition and errors: as those of `draw_cells`.
pub fn draw_by<'a, S: Cells, D: Delivery<W>, W>(
    alloc: Global,
    table: &'a Table<'a>,
    cells: &'a S,
    room: Room,
    writer: &mut W,
) -> Result<(), DrawError>
where
    S::Cell: Drop,
    requires { room ≡ Room.Known → AllHaveRoom (drawn_of S.lines S.color table.now cells.now) }
    ensures { let d = drawn_of S.lines S.color table.now cells.now in
        Draws D.takes D.breaks d writer.old writer.new (printed d) result }
{
    let (rows, columns) = table.shape();
    if rows == 0 || columns == 0 {
        return Ok(());
    }
    draw_table::<S, D, W>(alloc, table, cells, room, writer)
}

/// Writes the picture of a table with rows and columns.
fn draw_table<'a, S: Cells, D: Delivery<W>, W>(
    alloc: Global,
    table: &'a Table<'a>,
    cells: &'a S,
    room: Room,
    writer: &mut W,
) -> Result<(), DrawError>
where
    S::Cell: Drop,
    requires some { (length table.now.heights ≢ 0) × (length table.now.widths ≢ 0) }
    requires room { room ≡ Room.Known → AllHaveRoom (drawn_of S.lines S.color table.now cells.now) }
    ensures { let d = drawn_of S.lines S.color table.now cells.now in
        Draws D.takes D.breaks d writer.old writer.new
        (join_with_byte 10 (printed_lines d)) result }
{
    check_tiles(alloc, table.config(), table.shape())?;
    let frame = Frame::new(alloc, table)?;
    let filled = FilledFrame {
        alloc,
        frame: &frame,
        cells,
    };
    filled.draw_tiled::<D, W>(room, writer)
}

impl<'a, S: Cells> FilledFrame<'a, S>
where
    S::Cell: Drop,
{
    /// Writes the picture of a tiled table, if its cells have room and it is not too large.
    fn draw_tiled<D: Delivery<W>, W>(&self, room: Room, writer: &mut W) -> Result<(), DrawError>
        requires some { (length (filled_table self.now).heights ≢ 0)
            × (length (filled_table self.now).widths ≢ 0) }
        requires room { room ≡ Room.Known → AllHaveRoom (filled S.lines S.color self.now) }
        ensures { let d = filled S.lines S.color self.now in
            Draws D.takes D.breaks d writer.old writer.new
            (join_with_byte 10 (printed_lines d)) result }
    {
        self.find_room(room)?;
        let width = whole_width(self.frame.table, self.frame.config).ok_or(DrawError::TooLarge)?;
        self.draw_all::<D, W>(width, writer)
    }

    /// Writes the margins above and below, and between them the lines of the table.
    fn draw_all<D: Delivery<W>, W>(&self, width: usize, writer: &mut W) -> Result<(), DrawError>
        requires { width ≡ whole_width (filled S.lines S.color self.now) }
        ensures { Writes D.takes D.breaks writer.old writer.new
            (join_with_byte 10 (printed_lines (filled S.lines S.color self.now))) result }
    {
        let config = self.frame.config;
        let margin = config.get_margin();
        let color = config.get_margin_color();
        let offset = config.get_margin_offset();
        let mut sheet = Sheet::new(self.alloc);
        draw_margin::<D, W>(
            &mut sheet,
            &margin.top,
            color.top,
            &offset.top,
            width,
            writer,
        )?;
        self.draw_rows::<D, W>(&mut sheet, writer)?;
        draw_margin::<D, W>(
            &mut sheet,
            &margin.bottom,
            color.bottom,
            &offset.bottom,
            width,
            writer,
        )
    }

    /// Writes the lines of a tiled table.
    fn draw_rows<D: Delivery<W>, W>(
        &self,
        sheet: &mut Sheet,
        writer: &mut W,
    ) -> Result<(), DrawError>
        requires { sheet.old.written ≡ 0 }
        ensures { let d = filled S.lines S.color self.now in
            WritesLines D.takes D.breaks writer.old writer.new
            sheet.old.begun sheet.new.begun (margined d 0 (drawn_lines d)) result }
    {
        if is_plain(self.frame.config) {
            return self.draw_plain_rows::<D, W>(sheet, writer);
        }
        self.draw_spanned_rows::<D, W>(sheet, writer)
    }
}

/// The columns of each line with both margins, where they and the lines with both margins fit `usize`.
fn whole_width(table: &Table<'_>, config: &SpannedConfig) -> Option<usize>
    requires { config.now ≡ table.now.config }
    ensures { (texts : Texts) → let d = drawing_of table.now texts in SomeIff result
        ((whole_width d < 2 ^ 64) × (whole_height d < 2 ^ 64)) (whole_width d) }
{
    let margin = config.get_margin();
    let beside = margin.left.size.checked_add(margin.right.size)?;
    let above = margin.top.size.checked_add(margin.bottom.size)?;
    table.height().checked_add(above)?;
    table.width().checked_add(beside)
}
