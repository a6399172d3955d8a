//! The two directions of a table.

ghost use Rattle.std.specs.Prelude.{◌≡◌};
ghost use Rattle.papergrid_values.specs.Positions.{along};

use crate::position::Position;

/// Along the columns, which have widths in columns of a terminal, or along the rows, which have
/// heights in lines.
#[derive(Clone, Copy, Debug, PartialEq, Eq)]
pub enum Direction {
    Columns,
    Rows,
}

impl Direction {
    /// The number of a position along the direction: that of its column, or of its row.
    pub fn number_of(self, position: Position) -> usize
        ensures { result ≡ along self position }
    {
        match self {
            Direction::Columns => position.col,
            Direction::Rows => position.row,
        }
    }
}
