//! Whether a rectangle hides one of many positions.

ghost use Rattle.std.specs.Prelude.{◌≡◌, AllPairs, nat_lt};
ghost use Rattle.std.specs.List.{list_any};
ghost use Rattle.papergrid_values.specs.Positions.{AreRising, along};
ghost use Rattle.papergrid_maps.specs.ForProofs.SpanIndex.{covers};

use papergrid_values::{Direction, Position};

// Whether a position lies in the rectangle of another, of so many columns and rows.
fn is_covered(anchor: Position, columns: usize, rows: usize, position: Position) -> bool
    ensures { result ≡ covers anchor columns rows position }
{
    if anchor == position {
        return false;
    }
    anchor.row <= position.row
        && position.row - anchor.row < rows
        && anchor.col <= position.col
        && position.col - anchor.col < columns
}

// Whether one of the positions lies in a rectangle. Those before it are passed over by binary
// search, and none after it is looked at.
pub(crate) fn covers_one(
    direction: Direction,
    anchor: Position,
    columns: usize,
    rows: usize,
    positions: &[Position],
) -> bool
    requires { AllPairs (AreRising direction) positions.now }
    ensures { result ≡ list_any (covers anchor columns rows) positions.now }
{
    let start = direction.number_of(anchor);
    let span = direction.number_of(Position::new(rows, columns));
    let first = positions.partition_point(
        |position: &Position| -> bool
            ensures { result ≡ nat_lt (along direction position.now) start }
        { direction.number_of(*position) < start },
    );
    for i in first..positions.len() {
        if direction.number_of(positions[i]) - start >= span {
            return false;
        }
        if is_covered(anchor, columns, rows, positions[i]) {
            return true;
        }
    }
    false
}
