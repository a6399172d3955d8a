//! The printer of a table whose sizes a dimension has.

ghost use Rattle.std.specs.Prelude.{◌≡◌};
ghost use Rattle.papergrid_draw.specs.Drawings.{drawn_of};
ghost use Rattle.papergrid_layout.specs.Tables.{HasSizes};
ghost use Rattle.papergrid.specs.Printed.{Prints};
ghost use Rattle.papergrid.specs.Sized.{parts_of};

use crate::sized::sized_table;
use papergrid_config::SpannedConfig;
use papergrid_draw::delivery::Delivery;
use papergrid_draw::printer::draw_by;
use papergrid_draw::source::Cells;
use papergrid_draw::{DrawError, Room};
use papergrid_layout::Dimension;
use std::alloc::Global;

/// Writes the picture of so many rows and columns, by a way to deliver its lines.
pub fn print_sized<S: Cells, D: Dimension, V: Delivery<W>, W>(
    alloc: Global,
    config: &SpannedConfig,
    dimension: &D,
    shape: (usize, usize),
    cells: &S,
    writer: &mut W,
) -> Result<(), DrawError>
where
    S::Cell: Drop,
    requires rows { HasSizes (D.has_row dimension.now) shape.0 }
    requires columns { HasSizes (D.has_column dimension.now) shape.1 }
    ensures { let parts = parts_of config.now (D.width_of dimension.now)
        (D.height_of dimension.now) shape in
        Prints (λ d. d ≡ drawn_of S.lines S.color parts cells.now) V.takes V.breaks
        writer.old writer.new result }
{
    let table = sized_table(alloc, config, dimension, shape)?;
    draw_by::<S, V, W>(alloc, &table, cells, Room::Unknown, writer)
}
