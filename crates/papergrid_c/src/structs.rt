//! What C and the calls hand to one another by value.

ghost use Rattle.std.specs.Prelude.{◌≡◌};
ghost use Rattle.papergrid_c.specs.Asked.{place_for_c, position_for_c};

use papergrid_layout::Place;
use papergrid_values::Position;

/// What a setting is for: the whole table (0), a column (1), a row (2), or a cell (3).
#[repr(C)]
#[derive(Clone, Copy)]
pub struct PapergridEntity {
    pub kind: u32,
    pub row: usize,
    pub column: usize,
}

/// A row and a column, counted from 0.
#[repr(C)]
#[derive(Clone, Copy)]
pub struct PapergridPosition {
    pub row: usize,
    pub column: usize,
}

impl PapergridPosition {
    pub fn of(position: Position) -> PapergridPosition
        ensures { result ≡ position_for_c position }
    {
        PapergridPosition {
            row: position.row,
            column: position.col,
        }
    }
}

/// Where a cell stands: its first column of the terminal and its first line, counted from 0, and over how many of them it goes.
#[repr(C)]
#[derive(Clone, Copy)]
pub struct PapergridPlace {
    pub left: usize,
    pub top: usize,
    pub width: usize,
    pub height: usize,
}

impl PapergridPlace {
    pub fn of(place: Place) -> PapergridPlace
        ensures { result ≡ place_for_c place }
    {
        PapergridPlace {
            left: place.left,
            top: place.top,
            width: place.width,
            height: place.height,
        }
    }
}
