//! Places in a table whose sizes are all alike.

use crate::places::{all_places, clicked, first_separator, place_of};
use crate::refusals::{is_hidden, out_of_table};
use crate::settings::one_by_one;
use papergrid::Table;
use papergrid::config::Position;
use papergrid::config::spanned::SpannedConfig;
use papergrid::dimension::{Dimension, LayoutError, Place, cell_at, places};
use std::alloc::{AllocError, Global};

/// Columns that are all as wide, and rows that are all as high.
struct Even {
    width: usize,
    height: usize,
}

impl Dimension for Even {
    ghost use Rattle.std.specs.Prelude.{⊤};

    ghost has_column = { λ _ _. ⊤ };

    ghost has_row = { λ _ _. ⊤ };

    ghost width_of = { λ even _. even.width };

    ghost height_of = { λ even _. even.height };

    fn get_width(&self, _column: usize) -> usize {
        self.width
    }

    fn get_height(&self, _row: usize) -> usize {
        self.height
    }
}

/// Each column is three columns of a terminal wide, and each row one line high.
const SIZES: Even = Even {
    width: 3,
    height: 1,
};

/// The same sizes of three columns and two rows.
fn even_sizes(alloc: Global) -> Result<(Vec<usize>, Vec<usize>), AllocError> {
    Ok(([3, 3, 3].to_vec(alloc)?, [1, 1].to_vec(alloc)?))
}

/// The table of these.
fn even_table<'a>(alloc: Global, config: &'a SpannedConfig) -> Result<Table<'a>, LayoutError> {
    let (widths, heights) = even_sizes(alloc)?;
    Table::from_sizes(alloc, config, widths, heights)
}

/// Whether this cell is at a column of a terminal in a line, by any sizes and by a table.
fn is_clicked(
    config: &SpannedConfig,
    table: &Table<'_>,
    (column, line): (usize, usize),
    cell: Option<Position>,
) -> bool {
    let found = clicked(table, column, line).map(|(position, _place)| position);
    cell_at(&SIZES, config, (2, 3), column, line) == cell && found == cell
}

/// The first cell spans two columns.
fn are_clicked(config: &SpannedConfig, table: &Table<'_>) -> bool {
    let first = Some(Position::new(0, 0));
    is_clicked(config, table, (1, 1), first)
        && is_clicked(config, table, (4, 1), first)
        && is_clicked(config, table, (7, 1), first)
        && is_clicked(config, table, (8, 1), None)
        && is_clicked(config, table, (9, 1), Some(Position::new(0, 2)))
        && is_clicked(config, table, (4, 3), None)
        && is_clicked(config, table, (5, 3), Some(Position::new(1, 1)))
        && is_clicked(config, table, (13, 3), None)
}

/// The first cell goes over two columns and the line between them, and hides the second one.
fn are_placed(config: &SpannedConfig) -> bool {
    let first = Place {
        left: 1,
        top: 1,
        width: 7,
        height: 1,
    };
    place_of(&SIZES, config, (2, 3), Position::new(0, 0)) == Ok(first)
        && is_hidden(place_of(&SIZES, config, (2, 3), Position::new(0, 1)))
}

/// Five cells of six are visible; in a table of one column the first one overflows the table.
fn are_all_placed(alloc: Global, config: &SpannedConfig, table: &Table<'_>) -> bool {
    let refused = places(alloc, &SIZES, config, (2, 1)).err();
    all_places(alloc, table).is_ok_and(|list| list.len() == 5)
        && refused.and_then(out_of_table) == Some(Position::new(0, 0))
}

fn are_as_told(alloc: Global) -> bool {
    let Ok(config) = one_by_one(alloc) else {
        return false;
    };
    let are = even_table(alloc, &config).is_ok_and(|table| are_told(alloc, &config, &table));
    drop(config);
    are
}

fn are_told(alloc: Global, config: &SpannedConfig, table: &Table<'_>) -> bool {
    are_clicked(config, table)
        && are_placed(config)
        && are_all_placed(alloc, config, table)
        && first_separator(table) == Some(4)
}

#[test]
fn even_columns(rt: HostRuntime) {
    assert!(rt; are_as_told(rt.alloc()));
}
