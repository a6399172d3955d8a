//! The table of sizes that a dimension has.

ghost use Rattle.std.specs.Prelude.{◌≡◌, IfOk, map};
ghost use Rattle.std.specs.List.{range_with_len};
ghost use Rattle.papergrid_layout.specs.Places.{size_along};
ghost use Rattle.papergrid_layout.specs.Tables.{HasSizes, IsTable, has_along};
ghost use Rattle.papergrid.specs.Sized.{parts_of};

use papergrid_config::SpannedConfig;
use papergrid_layout::{Dimension, LayoutError, Table};
use papergrid_values::Direction;
use std::alloc::{AllocError, Global};

/// The widths of so many columns, or the heights of so many rows.
fn track_sizes<D: Dimension>(
    alloc: Global,
    dimension: &D,
    direction: Direction,
    count: usize,
) -> Result<Vec<usize>, AllocError>
    requires { let there = has_along (D.has_column dimension.now) (D.has_row dimension.now) in
        HasSizes (there direction) count }
    ensures { let size = size_along (D.width_of dimension.now) (D.height_of dimension.now) in
        IfOk result (λ sizes. sizes.items ≡ map (size direction) (range_with_len 0 count)) }
{
    let mut sizes = Vec::new(alloc);
    for track in 0..count {
        let size = match direction {
            Direction::Columns => dimension.get_width(track),
            Direction::Rows => dimension.get_height(track),
        };
        sizes.push(size)?;
    }
    Ok(sizes)
}

/// The table of so many rows and columns with the sizes of a dimension.
pub fn sized_table<'a, D: Dimension>(
    alloc: Global,
    config: &'a SpannedConfig,
    dimension: &D,
    shape: (usize, usize),
) -> Result<Table<'a>, LayoutError>
    requires rows { HasSizes (D.has_row dimension.now) shape.0 }
    requires columns { HasSizes (D.has_column dimension.now) shape.1 }
    ensures { IsTable (parts_of config.now (D.width_of dimension.now) (D.height_of dimension.now)
        shape) result }
{
    let widths = track_sizes(alloc, dimension, Direction::Columns, shape.1)?;
    let heights = track_sizes(alloc, dimension, Direction::Rows, shape.0)?;
    Table::from_sizes(alloc, config, widths, heights)
}
