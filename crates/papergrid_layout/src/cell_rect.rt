//! The screen rectangle of one cell.

ghost use Rattle.std.specs.Prelude.{IfOk};
ghost use Rattle.papergrid_layout.specs.Places.{EndsWithin, IsPlaced, table_by};
ghost use Rattle.papergrid_layout.specs.Tables.{HasSizes};

use crate::dimension::Dimension;
use crate::rect::{Place, PlaceError};
use crate::ruler::Ruler;
use papergrid_config::SpannedConfig;
use papergrid_maps::ConfigView;
use papergrid_values::{Direction, Position};

/// The screen rectangle of the cell at a position, in a table of the shape (rows, columns). It does
/// not allocate, and takes time that grows with the rows and columns.
///
/// Condition: the dimension has a width for each of the columns and a height for each of the rows.
///
/// # Errors
///
/// `Hidden` where the position is hidden, else `OutOfTable` where its range ends past the last column
/// or the last row, else `TooLarge` where along a direction the sizes with all lines come to more
/// than the greatest `usize`.
pub fn place<D: Dimension>(
    dimension: &D,
    config: &SpannedConfig,
    shape: (usize, usize),
    position: Position,
) -> Result<Place, PlaceError>
    requires columns { HasSizes (D.has_column dimension.now) shape.1 }
    requires rows { HasSizes (D.has_row dimension.now) shape.0 }
    ensures exact { let table = table_by config.now (D.width_of dimension.now)
        (D.height_of dimension.now) shape in
        IsPlaced table position result }
    ensures within { let table = table_by config.now (D.width_of dimension.now)
        (D.height_of dimension.now) shape in
        IfOk result (EndsWithin table) }
{
    let (rows, columns) = shape;
    let across = Ruler {
        dimension,
        settings: config,
        direction: Direction::Columns,
        count: columns,
    };
    let down = Ruler {
        dimension,
        settings: config,
        direction: Direction::Rows,
        count: rows,
    };
    if !config.is_visible(position) {
        return Err(PlaceError::Hidden);
    }
    if across.overflows(position) || down.overflows(position) {
        return Err(PlaceError::OutOfTable);
    }
    match (across.part(position), down.part(position)) {
        (Some((left, width)), Some((top, height))) => Ok(Place {
            left,
            top,
            width,
            height,
        }),
        _ => Err(PlaceError::TooLarge),
    }
}
