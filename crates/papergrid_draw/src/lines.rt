//! The picture as a text of lines.

ghost use Rattle.std.specs.Prelude.{◌≡◌, ◌≢◌, ◌⊎◌, ◌+◌, ◌↔◌, IfErr, IsTrue, OnOk};
ghost use Rattle.papergrid_draw.specs.Deliveries.{IsNotBegun};
ghost use Rattle.papergrid_draw.specs.Drawings.{Drawing, drawn_of, layout_of};
ghost use Rattle.papergrid_draw.specs.Faults.{AllHaveRoom, IsDrawFault, IsDrawable, whole_height};
ghost use Rattle.papergrid_text.specs.Transfer.{IsTaken};
ghost use Rattle.papergrid_draw.specs.Sinks.{IsCutOff};
ghost use Rattle.papergrid_layout.specs.Tables.{view_of};
ghost use Rattle.papergrid_draw.specs.Lined.{lined};

use crate::error::DrawError;
use crate::printer::draw_cells;
use crate::room::Room;
use crate::source::Cells;
use papergrid_layout::Table;
use papergrid_text::transfer::{Sink, write_all};
use std::alloc::Global;

/// Whether there is a line: there are rows and columns, and they or the margins have any height.
fn is_any(rows: usize, columns: usize, height: usize, beside: (usize, usize)) -> bool
    ensures { IsTrue result ↔ ((rows ≢ 0) × (columns ≢ 0)
        × (height + (beside.0 + beside.1) ≢ 0)) }
{
    rows != 0 && columns != 0 && (height != 0 || beside.0 != 0 || beside.1 != 0)
}

/// Whether the picture of a table has a line.
fn has_lines(table: &Table<'_>) -> bool
    ensures { (d : Drawing) → layout_of d ≡ view_of table.now → d.config ≡ table.now.config →
        IsTrue result ↔ ((d.shape.0 ≢ 0) × (d.shape.1 ≢ 0) × (whole_height d ≢ 0)) }
{
    let (rows, columns) = table.shape();
    let margin = table.config().get_margin();
    is_any(
        rows,
        columns,
        table.height(),
        (margin.top.size, margin.bottom.size),
    )
}

/// Writes the picture of a table as `draw_cells` does, with a line feed after each line, the last one too.
///
/// Condition: as that of `draw_cells`.
///
/// # Errors
///
/// As `draw_cells`.
pub fn draw_lines<'a, S: Cells, W: Sink>(
    alloc: Global,
    table: &'a Table<'a>,
    cells: &'a S,
    room: Room,
    sink: &mut W,
) -> Result<(), DrawError>
where
    S::Cell: Drop,
    requires { room ≡ Room.Known → AllHaveRoom (drawn_of S.lines S.color table.now cells.now) }
    ensures drawable { IsDrawable (drawn_of S.lines S.color table.now cells.now)
        ⊎ IsNotBegun sink.old sink.new result }
    ensures picture { OnOk result (IsTaken W.contents W.has_failed W.has_stalled sink.old
        (lined (drawn_of S.lines S.color table.now cells.now)) sink.new) }
    ensures fault { IfErr result (IsDrawFault (drawn_of S.lines S.color table.now cells.now)) }
    ensures left { IfErr result (IsCutOff W.contents W.has_failed W.has_stalled sink.old
        (lined (drawn_of S.lines S.color table.now cells.now)) sink.new) }
{
    draw_cells(alloc, table, cells, room, sink)?;
    if !has_lines(table) {
        return Ok(());
    }
    match write_all(sink, b"\n") {
        Ok(()) => Ok(()),
        Err(_) => Err(DrawError::Write),
    }
}
