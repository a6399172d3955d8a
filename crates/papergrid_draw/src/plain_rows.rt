//! The rows of a plain table.

ghost use Rattle.std.specs.Prelude.{◌≡◌, ◌+◌, ◌<◌, ◌≤◌, ◌∷◌, [], OnOk, length, slice_index};
ghost use Rattle.papergrid_draw.specs.Drawn.{TextLine, drawn_lines, row_lines, rule_lines, text_line};
ghost use Rattle.papergrid_draw.specs.ForProofs.FilledFrames.{filled, filled_table};
ghost use Rattle.papergrid_draw.specs.ForProofs.Pages.{Texts, drawing_of, row_start, text_start};
ghost use Rattle.papergrid_draw.specs.ForProofs.Plain.{HasCommonRule, IsPlain};
ghost use Rattle.papergrid_draw.specs.ForProofs.Sheets.{WritesLines, margined, first_text_lines};

use crate::delivery::Delivery;
use crate::error::DrawError;
use crate::filled_frame::FilledFrame;
use crate::page::Frame;
use crate::plain::push_plain_rule_line;
use crate::rows::{begin_beside, draw_text_lines, end_beside};
use crate::sheet::Sheet;
use crate::source::Cells;
use papergrid_layout::Dimension;
use std::alloc::Global;

impl<'a, S: Cells> FilledFrame<'a, S>
where
    S::Cell: Drop,
{
    /// Writes the lines of a plain table.
    pub fn draw_plain_rows<D: Delivery<W>, W>(
        &self,
        sheet: &mut Sheet,
        writer: &mut W,
    ) -> Result<(), DrawError>
        requires plain { IsPlain (filled_table self.now).config }
        requires start { sheet.old.written ≡ 0 }
        ensures { let d = filled S.lines S.color self.now in
            WritesLines D.takes D.breaks writer.old writer.new
            sheet.old.begun sheet.new.begun (margined d 0 (drawn_lines d)) result }
    {
        let rows = self.frame.shape.0;
        let mut common = None;
        for row in 0..rows {
            self.draw_plain_row::<D, W>(&mut common, row, sheet, writer)?;
        }
        draw_plain_rule::<D, W>(self.alloc, self.frame, &mut common, rows, sheet, writer)
    }

    /// Writes a row: the horizontal line before it, if there is one, and its text lines.
    fn draw_plain_row<D: Delivery<W>, W>(
        &self,
        common: &mut Option<String>,
        row: usize,
        sheet: &mut Sheet,
        writer: &mut W,
    ) -> Result<(), DrawError>
        requires plain { IsPlain (filled_table self.now).config }
        requires common { HasCommonRule (filled_table self.now) common.old }
        requires row_in { row < length (filled_table self.now).heights }
        requires start { sheet.old.written ≡ row_start (filled S.lines S.color self.now) row }
        ensures lines { let d = filled S.lines S.color self.now in
            WritesLines D.takes D.breaks writer.old writer.new sheet.old.begun sheet.new.begun
            (margined d (row_start d row) (row_lines d row)) result }
        ensures common { OnOk result (HasCommonRule (filled_table self.now) common.new) }
        ensures written { OnOk result
            (sheet.new.written ≡ row_start (filled S.lines S.color self.now) (row + 1)) }
    {
        draw_plain_rule::<D, W>(self.alloc, self.frame, common, row, sheet, writer)?;
        if self.frame.table.get_height(row) == 1 {
            return self.draw_low_row::<D, W>(row, sheet, writer);
        }
        self.draw_high_row::<D, W>(row, sheet, writer)
    }

    /// Writes the text line of a row that is one line high.
    fn draw_low_row<D: Delivery<W>, W>(
        &self,
        row: usize,
        sheet: &mut Sheet,
        writer: &mut W,
    ) -> Result<(), DrawError>
        requires plain { IsPlain (filled_table self.now).config }
        requires row_in { row < length (filled_table self.now).heights }
        requires low { slice_index (filled_table self.now).heights row ≡ 1 }
        requires start { sheet.old.written ≡ text_start (filled S.lines S.color self.now) row }
        ensures lines { let d = filled S.lines S.color self.now in
            WritesLines D.takes D.breaks writer.old writer.new sheet.old.begun sheet.new.begun
            (margined d (text_start d row) (TextLine (text_line d row 0) ∷ [])) result }
        ensures written { OnOk result
            (sheet.new.written ≡ text_start (filled S.lines S.color self.now) row + 1) }
    {
        begin_beside(self.frame, sheet)?;
        self.push_plain_text_line(row, &mut sheet.line)?;
        end_beside::<D, W>(self.frame, sheet, writer)
    }

    /// Writes the text lines of a row.
    fn draw_high_row<D: Delivery<W>, W>(
        &self,
        row: usize,
        sheet: &mut Sheet,
        writer: &mut W,
    ) -> Result<(), DrawError>
        requires plain { IsPlain (filled_table self.now).config }
        requires row_in { row < length (filled_table self.now).heights }
        requires start { sheet.old.written ≡ text_start (filled S.lines S.color self.now) row }
        ensures lines { let d = filled S.lines S.color self.now in
            WritesLines D.takes D.breaks writer.old writer.new sheet.old.begun sheet.new.begun
            (margined d (text_start d row) (first_text_lines d row (d.heights row))) result }
        ensures written { let d = filled S.lines S.color self.now in
            OnOk result (sheet.new.written ≡ text_start d row + d.heights row) }
    {
        let mut slots = self.plain_slots(row)?;
        draw_text_lines::<S::Cell, D, W>(self.frame, slots.as_mut_slice(), row, sheet, writer)
    }
}

/// Writes the horizontal line before a row, or after the last, if there is one.
fn draw_plain_rule<D: Delivery<W>, W>(
    alloc: Global,
    frame: &Frame<'_>,
    common: &mut Option<String>,
    row: usize,
    sheet: &mut Sheet,
    writer: &mut W,
) -> Result<(), DrawError>
    requires plain { IsPlain frame.now.table.now.config }
    requires common { HasCommonRule frame.now.table.now common.old }
    requires row_in { row ≤ length frame.now.table.now.heights }
    requires start { (texts : Texts) →
        sheet.old.written ≡ row_start (drawing_of frame.now.table.now texts) row }
    ensures lines { (texts : Texts) → let d = drawing_of frame.now.table.now texts in
        WritesLines D.takes D.breaks writer.old writer.new
        sheet.old.begun sheet.new.begun (margined d (row_start d row) (rule_lines d row)) result }
    ensures common { OnOk result (HasCommonRule frame.now.table.now common.new) }
    ensures written { OnOk result ((texts : Texts) → row < length frame.now.table.now.heights →
        sheet.new.written ≡ text_start (drawing_of frame.now.table.now texts) row) }
{
    if frame.table.horizontal_at(row).is_none() {
        return Ok(());
    }
    begin_beside(frame, sheet)?;
    push_plain_rule_line(alloc, frame, common, row, &mut sheet.line)?;
    end_beside::<D, W>(frame, sheet, writer)
}
