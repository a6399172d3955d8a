//! The table of the README's picture.

ghost use Rattle.std.specs.Prelude.{◌+◌, ◌≤◌, IfOk};

use anyhow::Result;
use papergrid::config::spanned::SpannedConfig;
use papergrid::config::{Borders, Entity, Indent, Position, Sides};
use papergrid::dimension::Place;
use papergrid::records::IterRecords;
use papergrid::{Sizing, Table};
use std::alloc::Global;

/// How wide a table of four columns is, and where its second row's second cell stands in it.
pub fn second_cell(alloc: Global, rows: &[Vec<&str>]) -> Result<(usize, Place)>
    ensures { IfOk result (λ found. found.1.left + found.1.width ≤ found.0) }
{
    let mut config = SpannedConfig::new(alloc);
    config.set_borders(Borders {
        top: Some('-'),
        horizontal: Some('-'),
        bottom: Some('-'),
        left: Some('|'),
        vertical: Some('|'),
        right: Some('|'),
        ..Borders::filled('+')
    });
    config.set_row_span(Position::new(0, 0), 2)?;
    config.set_column_span(Position::new(1, 1), 3)?;
    let (four, one) = (Indent::spaced(4), Indent::spaced(1));
    config.set_padding(Entity::Cell(0, 0), Sides::new(four, four, one, one))?;

    let table = Table::new(
        alloc,
        &config,
        IterRecords::new(rows, 4, None),
        Sizing::ByShares,
    )?;
    let place = table.place(Position::new(1, 1))?;
    Ok((table.width(), place))
}
