//! Whether each visible cell of a table has room for its text.

ghost use Rattle.std.specs.Prelude.{◌≡◌, ◌+◌, ◌-◌, ◌^◌, ◌<◌, IfErr, OnOk, length};
ghost use Rattle.papergrid_config.specs.Grids.{spanned_grid};
ghost use Rattle.papergrid_walk.specs.ForProofs.Shown.{Shows};
ghost use Rattle.papergrid_draw.specs.Faults.{AllHaveRoom};
ghost use Rattle.papergrid_draw.specs.ForProofs.FilledFrames.{filled, filled_table};
ghost use Rattle.papergrid_draw.specs.ForProofs.Sheets.{HaveRoomBefore, IsRoomFault};

use crate::error::DrawError;
use crate::filled_frame::FilledFrame;
use crate::source::Cells;
use papergrid_values::Position;
use papergrid_walk::Sweep;
use papergrid_walk::shown::{sweep_of, visible_anchor};

/// Whether the sizes of a table are known to have room for its cells.
#[derive(Clone, Copy, Debug)]
pub enum Room {
    /// They are, as those are that an estimate found for the same cells.
    Known,
    /// They may be any. It is found before anything is written.
    Unknown,
}

impl<'a, S: Cells> FilledFrame<'a, S>
where
    S::Cell: Drop,
{
    /// Tells whether each visible cell of a tiled table has room, where this is not known.
    ///
    /// # Errors
    ///
    /// `NoRoom` with the first that has none; `Memory` in place of any answer.
    pub fn find_room(&self, room: Room) -> Result<(), DrawError>
        requires { room ≡ Room.Known → AllHaveRoom (filled S.lines S.color self.now) }
        ensures ok { OnOk result (AllHaveRoom (filled S.lines S.color self.now)) }
        ensures err { IfErr result (IsRoomFault (filled S.lines S.color self.now)) }
    {
        match room {
            Room::Known => Ok(()),
            Room::Unknown => self.check_room(),
        }
    }

    /// The same, where this is not known.
    fn check_room(&self) -> Result<(), DrawError>
        ensures ok { OnOk result (AllHaveRoom (filled S.lines S.color self.now)) }
        ensures err { IfErr result (IsRoomFault (filled S.lines S.color self.now)) }
    {
        let mut sweep = sweep_of(self.alloc, self.frame.config)?;
        for row in 0..self.frame.shape.0 {
            self.check_row(&mut sweep, row)?;
        }
        Ok(())
    }

    /// Tells whether each visible cell of a row has room, where those above it have.
    fn check_row(&self, sweep: &mut Sweep, row: usize) -> Result<(), DrawError>
        requires row_in { row < length (filled_table self.now).heights }
        requires row_fits { row < 2 ^ 64 - 1 }
        requires shows { Shows (spanned_grid (filled_table self.now).config) sweep.old row 0 }
        requires before { HaveRoomBefore (filled S.lines S.color self.now) row 0 }
        ensures shows { OnOk result
            (Shows (spanned_grid (filled_table self.now).config) sweep.new (row + 1) 0) }
        ensures ok { OnOk result
            (HaveRoomBefore (filled S.lines S.color self.now) (row + 1) 0) }
        ensures err { IfErr result (IsRoomFault (filled S.lines S.color self.now)) }
    {
        for col in 0..self.frame.shape.1 {
            self.check_cell(sweep, Position { row, col })?;
        }
        Ok(())
    }

    /// Tells whether the cell at a position has room, if that is visible, where those before it have.
    fn check_cell(&self, sweep: &mut Sweep, position: Position) -> Result<(), DrawError>
        requires row_in { position.row < length (filled_table self.now).heights }
        requires col_in { position.col < length (filled_table self.now).widths }
        requires row_fits { position.row < 2 ^ 64 - 1 }
        requires col_fits { position.col < 2 ^ 64 - 1 }
        requires shows { Shows (spanned_grid (filled_table self.now).config) sweep.old
            position.row position.col }
        requires before { HaveRoomBefore (filled S.lines S.color self.now)
            position.row position.col }
        ensures shows { OnOk result (Shows (spanned_grid (filled_table self.now).config) sweep.new
            position.row (position.col + 1)) }
        ensures ok { OnOk result (HaveRoomBefore (filled S.lines S.color self.now)
            position.row (position.col + 1)) }
        ensures err { IfErr result (IsRoomFault (filled S.lines S.color self.now)) }
    {
        if visible_anchor(sweep, self.alloc, position)?.is_none() {
            return Ok(());
        }
        let cell = self.cells.cell(position)?;
        let Some(block) = self.frame.block(position, cell, self.cells.color(position)) else {
            return Ok(());
        };
        if !block.has_room() {
            return Err(DrawError::NoRoom(position));
        }
        Ok(())
    }
}
