//! Where the cells and the lines of a table stand.

ghost use Rattle.std.specs.Prelude.{◌≡◌, IfOk, IfSome};
ghost use Rattle.papergrid_values.specs.declared.direction.Direction.TheVariants.{Columns};
ghost use Rattle.papergrid_layout.specs.Answers.{UnlessMemory};
ghost use Rattle.papergrid_layout.specs.Places.{Covers, HasPlace, HaveAllPlaces, IsPlaced, table_by};
ghost use Rattle.papergrid_layout.specs.Tables.{HasSizes, IsTableOf, line_position, view_of};
ghost use Rattle.papergrid_tracks.specs.declared.sizing.Sizing.TheVariants.{Least};
ghost use Rattle.papergrid_checks.specs.Rows.{cells_of, lent_measure};

use papergrid::config::Position;
use papergrid::config::spanned::SpannedConfig;
use papergrid::dimension::{Dimension, LayoutError, Place, PlaceError, place};
use papergrid::records::IterRecords;
use papergrid::{Sizing, Table};
use std::alloc::Global;

/// The table of rows of texts, of three columns, whose totals are least.
pub fn least_table<'a>(
    alloc: Global,
    config: &'a SpannedConfig,
    rows: &[Vec<&str>],
) -> Result<Table<'a>, LayoutError>
    ensures { UnlessMemory result
        (IsTableOf config.now lent_measure 3 (cells_of rows.now) Least result) }
{
    Table::new(
        alloc,
        config,
        IterRecords::new(rows, 3, None),
        Sizing::Least,
    )
}

/// Where each visible cell of a table stands.
pub fn all_places(alloc: Global, table: &Table<'_>) -> Result<Vec<(Position, Place)>, LayoutError>
    ensures { IfOk result (λ list. HaveAllPlaces (view_of table.now) list.items) }
{
    table.places(alloc)
}

/// The cell that was clicked, at a column of the terminal in a line, and where it stands.
pub fn clicked(table: &Table<'_>, column: usize, line: usize) -> Option<(Position, Place)>
    ensures { IfSome result (λ found. HasPlace (view_of table.now) found.0 found.1
        × Covers found.1 column line) }
{
    let position = table.cell_at(column, line)?;
    let place = table.place(position).ok()?;
    Some((position, place))
}

/// The column of the terminal that has the line after the first column of a table.
pub fn first_separator(table: &Table<'_>) -> Option<usize>
    ensures { result ≡ line_position (view_of table.now) Columns 1 }
{
    table.vertical_at(1)
}

/// The place of a cell by any sizes, in a table of this shape (rows, columns).
pub fn place_of<D: Dimension>(
    sizes: &D,
    config: &SpannedConfig,
    shape: (usize, usize),
    position: Position,
) -> Result<Place, PlaceError>
    requires columns { HasSizes (D.has_column sizes.now) shape.1 }
    requires rows { HasSizes (D.has_row sizes.now) shape.0 }
    ensures { let table = table_by config.now (D.width_of sizes.now)
        (D.height_of sizes.now) shape in
        IsPlaced table position result }
{
    place(sizes, config, shape, position)
}
