//! The rows of a table whose cells may span others.

ghost use Rattle.std.specs.Prelude.{◌≡◌, ◌+◌, ◌-◌, ◌<◌, IfOk, OnOk, length};
ghost use Rattle.papergrid_draw.specs.Drawn.{drawn_lines, row_lines};
ghost use Rattle.papergrid_draw.specs.ForProofs.FilledFrames.{filled, filled_table};
ghost use Rattle.papergrid_draw.specs.ForProofs.Pages.{AreSlotsSet};
ghost use Rattle.papergrid_draw.specs.ForProofs.Sheets.{AtRow, WritesLines, margined};

use crate::delivery::Delivery;
use crate::error::DrawError;
use crate::filled_frame::FilledFrame;
use crate::page::Slot;
use crate::rows::{draw_rule, draw_text_lines};
use crate::sheet::Sheet;
use crate::source::Cells;
use papergrid_text::Cell;
use papergrid_values::Position;
use std::alloc::{AllocError, Global};

impl<'a, S: Cells> FilledFrame<'a, S>
where
    S::Cell: Drop,
{
    /// Writes the lines of a tiled table.
    pub fn draw_spanned_rows<D: Delivery<W>, W>(
        &self,
        sheet: &mut Sheet,
        writer: &mut W,
    ) -> Result<(), DrawError>
        requires { sheet.old.written ≡ 0 }
        ensures { let d = filled S.lines S.color self.now in
            WritesLines D.takes D.breaks writer.old writer.new
            sheet.old.begun sheet.new.begun (margined d 0 (drawn_lines d)) result }
    {
        let (rows, columns) = self.frame.shape;
        let mut slots = first_slots(self.alloc, columns)?;
        for row in 0..rows {
            self.draw_row::<D, W>(slots.as_mut_slice(), row, sheet, writer)?;
        }
        draw_rule::<S::Cell, D, W>(self.frame, slots.as_mut_slice(), rows, sheet, writer)
    }

    /// Writes a row: the horizontal line before it, if there is one, and its text lines.
    fn draw_row<D: Delivery<W>, W>(
        &self,
        slots: &mut [Slot<'a, S::Cell>],
        row: usize,
        sheet: &mut Sheet,
        writer: &mut W,
    ) -> Result<(), DrawError>
        requires row_in { row < length (filled_table self.now).heights }
        requires comes { AtRow (filled S.lines S.color self.now) row sheet.old slots.old }
        ensures lines { let d = filled S.lines S.color self.now in
            WritesLines D.takes D.breaks writer.old writer.new sheet.old.begun sheet.new.begun
            (margined d sheet.old.written (row_lines d row)) result }
        ensures kept { OnOk result
            (AtRow (filled S.lines S.color self.now) (row + 1) sheet.new slots.new) }
    {
        self.set_row(slots, row)?;
        draw_rule::<S::Cell, D, W>(self.frame, slots, row, sheet, writer)?;
        draw_text_lines::<S::Cell, D, W>(self.frame, slots, row, sheet, writer)
    }

    /// Takes the cells of a row.
    fn set_row(&self, slots: &mut [Slot<'a, S::Cell>], row: usize) -> Result<(), AllocError>
        requires row_in { row < length (filled_table self.now).heights }
        requires comes { AreSlotsSet (filled S.lines S.color self.now) row 0 slots.old }
        ensures { OnOk result (AreSlotsSet (filled S.lines S.color self.now)
            row (length (filled_table self.now).widths) slots.new) }
    {
        let (frame, cells) = (self.frame, self.cells);
        for col in 0..frame.shape.1 {
            let position = Position { row, col };
            let cell = cells.cell(position)?;
            frame.set(slots, position, cell, cells.color(position));
        }
        Ok(())
    }
}

/// A slot for each column, before the first row is taken.
fn first_slots<'a, T: Cell + Drop>(
    alloc: Global,
    columns: usize,
) -> Result<Vec<Slot<'a, T>>, AllocError>
    ensures { IfOk result (λ slots. length slots.items ≡ columns) }
{
    let mut slots = Vec::new(alloc);
    for col in 0..columns {
        slots.push(Slot {
            owner: Position { row: 0, col },
            block: None,
            drawn: 0,
        })?;
    }
    Ok(slots)
}
