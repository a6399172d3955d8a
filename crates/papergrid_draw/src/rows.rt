//! The lines of a table as they are written: margins, horizontal lines, and the text lines of a row.

ghost use Rattle.std.specs.Prelude.{◌≡◌, ◌+◌, ◌-◌, ◌^◌, ◌<◌, ◌∷◌, ◌++◌, [], OnOk, option_copied, replicate, slice_index, string_bytes, true};
ghost use Rattle.papergrid_draw.specs.Drawn.{TextLine, rule_lines, text_line};
ghost use Rattle.papergrid_draw.specs.Margins.{margin_line};
ghost use Rattle.papergrid_draw.specs.ForProofs.Pages.{Texts, drawing_of};
ghost use Rattle.papergrid_draw.specs.ForProofs.Sheets.{AtRule, AtText, Writes, WritesLines, left_margin_at, margined, right_margin_at, separator, first_text_lines};

use crate::delivery::Delivery;
use crate::error::DrawError;
use crate::margins::{push_beside, push_margin_line};
use crate::page::{Frame, Slot};
use crate::sheet::Sheet;
use papergrid_layout::Dimension;
use papergrid_text::Cell;
use papergrid_values::{ANSIBuf, Indent, Offset};
use std::alloc::AllocError;

/// Writes the lines of a margin above or below.
pub fn draw_margin<D: Delivery<W>, W>(
    sheet: &mut Sheet,
    indent: &Indent,
    color: Option<&ANSIBuf>,
    offset: &Offset,
    width: usize,
    writer: &mut W,
) -> Result<(), DrawError>
    ensures lines { WritesLines D.takes D.breaks writer.old writer.new
        sheet.old.begun sheet.new.begun (replicate indent.now.size
        (margin_line indent.now (option_copied color.entry) offset.now width)) result }
    ensures written { OnOk result (sheet.new.written ≡ sheet.old.written) }
{
    for k in 0..indent.size {
        draw_margin_line::<D, W>(sheet, indent, color, offset, width, writer)?;
    }
    Ok(())
}

/// Writes a line of a margin above or below.
fn draw_margin_line<D: Delivery<W>, W>(
    sheet: &mut Sheet,
    indent: &Indent,
    color: Option<&ANSIBuf>,
    offset: &Offset,
    width: usize,
    writer: &mut W,
) -> Result<(), DrawError>
    ensures lines { WritesLines D.takes D.breaks writer.old writer.new
        sheet.old.begun sheet.new.begun
        (margin_line indent.now (option_copied color.entry) offset.now width ∷ []) result }
    ensures written { OnOk result (sheet.new.written ≡ sheet.old.written) }
{
    sheet.begin()?;
    push_margin_line(&mut sheet.line, indent, color, offset, width)?;
    sheet.end::<D, W>(writer)
}

/// Writes the horizontal line before a row, or after the last, if there is one.
pub fn draw_rule<'a, T: Cell, D: Delivery<W>, W>(
    frame: &Frame<'a>,
    slots: &mut [Slot<'a, T>],
    row: usize,
    sheet: &mut Sheet,
    writer: &mut W,
) -> Result<(), DrawError>
    requires { (texts : Texts)
        × AtRule (drawing_of frame.now.table.now texts) row sheet.old slots.old }
    ensures lines { (texts : Texts) → let d = drawing_of frame.now.table.now texts in
        AtRule d row sheet.old slots.old →
        WritesLines D.takes D.breaks writer.old writer.new sheet.old.begun sheet.new.begun
        (margined d sheet.old.written (rule_lines d row)) result }
    ensures kept { OnOk result ((texts : Texts) → let d = drawing_of frame.now.table.now texts in
        AtRule d row sheet.old slots.old → row < d.shape.0 → AtText d row 0 sheet.new slots.new) }
{
    if frame.table.horizontal_at(row).is_none() {
        return Ok(());
    }
    begin_beside(frame, sheet)?;
    frame.push_rule_line(slots, row, &mut sheet.line)?;
    end_beside::<D, W>(frame, sheet, writer)
}

/// Writes the text lines of a row.
pub fn draw_text_lines<'a, T: Cell, D: Delivery<W>, W>(
    frame: &Frame<'a>,
    slots: &mut [Slot<'a, T>],
    row: usize,
    sheet: &mut Sheet,
    writer: &mut W,
) -> Result<(), DrawError>
    requires { (texts : Texts)
        × AtText (drawing_of frame.now.table.now texts) row 0 sheet.old slots.old }
    ensures lines { (texts : Texts) → let d = drawing_of frame.now.table.now texts in
        AtText d row 0 sheet.old slots.old →
        WritesLines D.takes D.breaks writer.old writer.new sheet.old.begun sheet.new.begun
        (margined d sheet.old.written (first_text_lines d row (d.heights row))) result }
    ensures kept { OnOk result ((texts : Texts) → let d = drawing_of frame.now.table.now texts in
        AtText d row 0 sheet.old slots.old → AtText d row (d.heights row) sheet.new slots.new) }
{
    for k in 0..frame.table.get_height(row) {
        draw_text_line::<T, D, W>(frame, slots, row, k, sheet, writer)?;
    }
    Ok(())
}

/// Writes line k of a row.
fn draw_text_line<'a, T: Cell, D: Delivery<W>, W>(
    frame: &Frame<'a>,
    slots: &mut [Slot<'a, T>],
    row: usize,
    k: usize,
    sheet: &mut Sheet,
    writer: &mut W,
) -> Result<(), DrawError>
    requires { (texts : Texts) × (k < slice_index frame.now.table.now.heights row)
        × AtText (drawing_of frame.now.table.now texts) row k sheet.old slots.old }
    ensures lines { (texts : Texts) → let d = drawing_of frame.now.table.now texts in
        AtText d row k sheet.old slots.old →
        WritesLines D.takes D.breaks writer.old writer.new sheet.old.begun sheet.new.begun
        (margined d sheet.old.written (TextLine (text_line d row k) ∷ [])) result }
    ensures kept { OnOk result ((texts : Texts) → let d = drawing_of frame.now.table.now texts in
        AtText d row k sheet.old slots.old → AtText d row (k + 1) sheet.new slots.new) }
{
    begin_beside(frame, sheet)?;
    frame.push_text_line(slots, row, k, &mut sheet.line)?;
    end_beside::<D, W>(frame, sheet, writer)
}

/// Begins a line of the table, with the left margin.
pub fn begin_beside(frame: &Frame<'_>, sheet: &mut Sheet) -> Result<(), AllocError>
    ensures line { OnOk result ((texts : Texts) →
        string_bytes sheet.new.line ≡ separator sheet.old.begun
        ++ left_margin_at (drawing_of frame.now.table.now texts) sheet.old.written) }
    ensures written { sheet.new.written ≡ sheet.old.written }
    ensures begun { sheet.new.begun ≡ sheet.old.begun }
{
    sheet.begin()?;
    let margin = frame.config.get_margin();
    let color = frame.config.get_margin_color();
    let offset = frame.config.get_margin_offset();
    let y = sheet.written;
    push_beside(
        &mut sheet.line,
        &margin.left,
        color.left,
        &offset.left,
        frame.height,
        y,
    )
}

/// Ends a line of the table, with the right margin, and writes it.
pub fn end_beside<D: Delivery<W>, W>(
    frame: &Frame<'_>,
    sheet: &mut Sheet,
    writer: &mut W,
) -> Result<(), DrawError>
    requires { sheet.old.written < 2 ^ 64 - 1 }
    ensures bytes { (texts : Texts) → let d = drawing_of frame.now.table.now texts in
        Writes D.takes D.breaks writer.old writer.new
        (string_bytes sheet.old.line ++ right_margin_at d sheet.old.written) result }
    ensures written { OnOk result (sheet.new.written ≡ sheet.old.written + 1) }
    ensures begun { OnOk result (sheet.new.begun ≡ true) }
{
    let margin = frame.config.get_margin();
    let color = frame.config.get_margin_color();
    let offset = frame.config.get_margin_offset();
    let y = sheet.written;
    push_beside(
        &mut sheet.line,
        &margin.right,
        color.right,
        &offset.right,
        frame.height,
        y,
    )?;
    sheet.written += 1;
    sheet.end::<D, W>(writer)
}
