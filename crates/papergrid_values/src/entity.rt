//! A part of a table. Source: `config/entity.rs`.

ghost use Rattle.std.specs.Prelude.{◌≡◌};
ghost use Rattle.papergrid_values.specs.Entities.{positions, positions_left};
ghost use Rattle.papergrid_values.specs.declared.entity.Entity.TheVariants as entities;

use crate::entity_iterator::EntityIterator;
use crate::position::Position;

/// What a setting is set for: the whole table, a column, a row, or the cell at a row and a column.
#[derive(Clone, Copy, Debug, PartialEq, Eq, PartialOrd, Ord, Hash)]
pub enum Entity {
    /// All cells.
    Global,
    /// All cells of a column.
    Column(usize),
    /// All cells of a row.
    Row(usize),
    /// The cell at a row and a column.
    Cell(usize, usize),
}

impl Entity {
    /// Walks over its positions, row by row, where there are so many rows and columns: none where
    /// a count is 0, else all of them, those of the column, those of the row, or the one of the
    /// cell. Its own numbers are not compared with the counts.
    pub fn iter(&self, count_rows: usize, count_cols: usize) -> EntityIterator
        ensures { positions_left result ≡ positions self.now count_rows count_cols }
    {
        EntityIterator::new(*self, count_rows, count_cols)
    }
}

impl From<Position> for Entity {
    ghost from_gives = { λ position entity. entity ≡ entities.Cell position.row position.col };

    fn from(position: Position) -> Entity {
        Entity::Cell(position.row, position.col)
    }
}

impl From<(usize, usize)> for Entity {
    ghost from_gives = { λ pair entity. entity ≡ entities.Cell pair.0 pair.1 };

    fn from((row, col): (usize, usize)) -> Entity {
        Entity::Cell(row, col)
    }
}
