//! A walk over the positions of an entity. Source: `config/entity.rs`.

ghost use Rattle.std.specs.Prelude.{◌≡◌};
ghost use Rattle.std.specs.Iterator.{YieldsFirst, item_count};
ghost use Rattle.papergrid_values.specs.Entities.{positions, positions_left, position_at_step};

use crate::entity::Entity;
use crate::position::Position;

/// The positions of an entity, row by row. Once it has ended it stays so.
#[derive(Clone, Copy, Debug)]
pub struct EntityIterator {
    entity: Entity,
    // How many steps there are down and to the right, and the next one.
    rows: usize,
    cols: usize,
    row: usize,
    col: usize,
}

impl EntityIterator {
    /// The walk over an entity where there are so many rows and columns.
    pub(crate) fn new(entity: Entity, count_rows: usize, count_cols: usize) -> EntityIterator
        ensures { positions_left result ≡ positions entity count_rows count_cols }
    {
        let (rows, cols) = if count_rows == 0 || count_cols == 0 {
            (0, 0)
        } else {
            match entity {
                Entity::Global => (count_rows, count_cols),
                Entity::Column(_) => (count_rows, 1),
                Entity::Row(_) => (1, count_cols),
                Entity::Cell(_, _) => (1, 1),
            }
        };
        EntityIterator {
            entity,
            rows,
            cols,
            row: 0,
            col: 0,
        }
    }
}

impl Iterator for EntityIterator {
    type Item = Position;

    ghost next_gives = { YieldsFirst positions_left };

    ghost remaining = { item_count positions_left };

    fn next(&mut self) -> Option<Position> {
        if self.row >= self.rows || self.col >= self.cols {
            return None;
        }
        let position = position_at(self.entity, self.row, self.col);
        self.col += 1;
        if self.col == self.cols {
            self.col = 0;
            self.row += 1;
        }
        Some(position)
    }
}

// The position of an entity at a step down and to the right.
fn position_at(entity: Entity, row: usize, col: usize) -> Position
    ensures { result ≡ position_at_step entity row col }
{
    match entity {
        Entity::Global => Position::new(row, col),
        Entity::Column(col) => Position::new(row, col),
        Entity::Row(row) => Position::new(row, col),
        Entity::Cell(row, col) => Position::new(row, col),
    }
}
