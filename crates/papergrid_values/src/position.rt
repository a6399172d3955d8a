//! A row and a column of a table. Source: `config/position.rs`.

ghost use Rattle.std.specs.Prelude.{◌≡◌, ◌<◌, ◌≤◌, ◌↔◌, ◌⊎◌, IsTrue};
ghost use Rattle.papergrid_values.specs.Positions.{position_of, sum_of, difference_of, CanAdd, CanSubtract};

use std::ops::{Add, AddAssign, Sub, SubAssign};

/// A row and a column, both counted from 0. Positions are ordered by row, then by column.
///
/// A sum or a difference is taken of the rows and of the columns. Its condition is that both
/// exist in `usize`.
#[derive(Clone, Copy, Debug, Default, PartialEq, Eq, PartialOrd, Ord, Hash)]
pub struct Position {
    /// The row, counted from the top.
    pub row: usize,
    /// The column, counted from the left.
    pub col: usize,
}

impl Position {
    /// The position at this row and column.
    pub fn new(row: usize, col: usize) -> Position
        ensures { result ≡ record { row = row; col = col } }
    {
        Position { row, col }
    }

    /// Whether its row is not above the other's, or its column is not left of the other's.
    pub fn has_intersection(&self, point: Position) -> bool
        ensures { IsTrue result ↔ ((point.row ≤ self.now.row) ⊎ (point.col ≤ self.now.col)) }
    {
        self.row >= point.row || self.col >= point.col
    }

    /// Whether it stands below and to the right of the other.
    pub fn has_coverage(&self, point: Position) -> bool
        ensures { IsTrue result ↔ ((point.row < self.now.row) × (point.col < self.now.col)) }
    {
        self.row > point.row && self.col > point.col
    }
}

impl Add<Position> for Position {
    type Output = Position;

    ghost can_add = { CanAdd };

    ghost add_gives = { λ p q sum. sum ≡ sum_of p q };

    fn add(self, other: Position) -> Position {
        Position::new(self.row + other.row, self.col + other.col)
    }
}

impl Add<(usize, usize)> for Position {
    type Output = Position;

    ghost can_add = { λ p pair. CanAdd p (position_of pair) };

    ghost add_gives = { λ p pair sum. sum ≡ sum_of p (position_of pair) };

    fn add(self, other: (usize, usize)) -> Position {
        self + Position::from(other)
    }
}

impl Sub<Position> for Position {
    type Output = Position;

    ghost can_sub = { CanSubtract };

    ghost sub_gives = { λ p q difference. difference ≡ difference_of p q };

    fn sub(self, other: Position) -> Position {
        Position::new(self.row - other.row, self.col - other.col)
    }
}

impl Sub<(usize, usize)> for Position {
    type Output = Position;

    ghost can_sub = { λ p pair. CanSubtract p (position_of pair) };

    ghost sub_gives = { λ p pair difference. difference ≡ difference_of p (position_of pair) };

    fn sub(self, other: (usize, usize)) -> Position {
        self - Position::from(other)
    }
}

impl AddAssign<Position> for Position {
    ghost can_add_assign = { CanAdd };

    ghost add_assign_gives = { λ p q sum. sum ≡ sum_of p q };

    fn add_assign(&mut self, other: Position) {
        self.row += other.row;
        self.col += other.col;
    }
}

impl AddAssign<(usize, usize)> for Position {
    ghost can_add_assign = { λ p pair. CanAdd p (position_of pair) };

    ghost add_assign_gives = { λ p pair sum. sum ≡ sum_of p (position_of pair) };

    fn add_assign(&mut self, other: (usize, usize)) {
        *self += Position::from(other);
    }
}

impl SubAssign<Position> for Position {
    ghost can_sub_assign = { CanSubtract };

    ghost sub_assign_gives = { λ p q difference. difference ≡ difference_of p q };

    fn sub_assign(&mut self, other: Position) {
        self.row -= other.row;
        self.col -= other.col;
    }
}

impl SubAssign<(usize, usize)> for Position {
    ghost can_sub_assign = { λ p pair. CanSubtract p (position_of pair) };

    ghost sub_assign_gives = { λ p pair difference. difference ≡ difference_of p (position_of pair) };

    fn sub_assign(&mut self, other: (usize, usize)) {
        *self -= Position::from(other);
    }
}

impl From<(usize, usize)> for Position {
    ghost from_gives = { λ pair position. position ≡ position_of pair };

    fn from((row, col): (usize, usize)) -> Position {
        Position::new(row, col)
    }
}

impl From<Position> for (usize, usize) {
    ghost from_gives = { λ position pair. pair ≡ (position.row, position.col) };

    fn from(position: Position) -> (usize, usize) {
        (position.row, position.col)
    }
}
