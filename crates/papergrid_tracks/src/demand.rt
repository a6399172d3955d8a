//! What cells ask for.

ghost use Rattle.std.specs.Prelude.{◌≡◌};

use papergrid_values::Position;

/// What the visible cell at (`row`, `col`) asks for along a direction: its range are the `span`
/// tracks from track `start` on, and it needs `minimum` columns of a terminal (lines) over them and
/// the lines between them.
#[derive(Clone, Copy, Debug, PartialEq, Eq)]
pub struct Demand {
    pub row: usize,
    pub col: usize,
    pub start: usize,
    pub span: usize,
    pub minimum: usize,
}

impl Demand {
    ghost use Rattle.papergrid_tracks.specs.Ranges.{position_of};

    /// Where the cell stands.
    pub fn position(self) -> Position
        ensures { result ≡ position_of self }
    {
        Position::new(self.row, self.col)
    }
}
