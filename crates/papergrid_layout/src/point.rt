//! The cell at a point of a table as it is printed.

ghost use Rattle.std.specs.Prelude.{◌≡◌, ◌+◌, ◌<◌, ◌≤◌, ◌↔◌, ◌⊎◌, ◌^◌, IsTrue, MatchOption};
ghost use Rattle.papergrid_values.specs.declared.position.Position.{Position};
ghost use Rattle.papergrid_layout.specs.Places.{IsFirstOver, StandsOver, offset, size_along, table_by, total};
ghost use Rattle.papergrid_layout.specs.Tables.{HasSizes, has_along};

use crate::cell_rect::place;
use crate::dimension::Dimension;
use crate::ruler::Ruler;
use papergrid_config::SpannedConfig;
use papergrid_maps::ConfigView;
use papergrid_values::{Direction, Position};

/// A table of the shape (rows, columns), a column of the terminal in a line of it, and a position that lies in
/// the rectangle of each cell that stands over these.
#[derive(Drop)]
struct Point<'a, D> {
    dimension: &'a D,
    config: &'a SpannedConfig,
    shape: (usize, usize),
    column: usize,
    line: usize,
    within: Position,
}

impl<'a, D: Dimension> Point<'a, D> {
    ghost use Rattle.papergrid_layout.specs.ForProofs.Points.{IsAround, point_table};

    /// Whether the cell at a position, none below or right of the one within, stands over the point. Most do
    /// not by their spans alone.
    fn is_under(&self, position: Position) -> bool
        requires columns { HasSizes (D.has_column self.now.dimension.now) self.now.shape.1 }
        requires rows { HasSizes (D.has_row self.now.dimension.now) self.now.shape.0 }
        requires before { (position.row ≤ self.now.within.row)
            × (position.col ≤ self.now.within.col) }
        requires reach { IsAround D.width_of D.height_of self.now }
        ensures { let table = point_table D.width_of D.height_of self.now in
            IsTrue result ↔ StandsOver table self.now.column self.now.line position }
    {
        if self.within.col - position.col >= self.config.span(Direction::Columns, position) {
            return false;
        }
        if self.within.row - position.row >= self.config.span(Direction::Rows, position) {
            return false;
        }
        match place(self.dimension, self.config, self.shape, position) {
            Ok(place) => place.covers(self.column, self.line),
            Err(_) => false,
        }
    }

    /// The first position of a row whose cell stands over the point.
    fn first_in_row(&self, row: usize) -> Option<Position>
        requires columns { HasSizes (D.has_column self.now.dimension.now) self.now.shape.1 }
        requires rows { HasSizes (D.has_row self.now.dimension.now) self.now.shape.0 }
        requires before { row ≤ self.now.within.row }
        requires reach { IsAround D.width_of D.height_of self.now }
        ensures { let table = point_table D.width_of D.height_of self.now in
            let IsUnder = StandsOver table self.now.column self.now.line in
            MatchOption result ((q : Position) → q.row ≡ row → IsUnder q → ⊥)
            (λ p. (p.row ≡ row) × IsUnder p × ((q : Position) → q.row ≡ row → q.col < p.col →
            IsUnder q → ⊥)) }
    {
        for col in 0..=self.within.col {
            let position = Position { row, col };
            if self.is_under(position) {
                return Some(position);
            }
        }
        None
    }

    /// The first position, by row and then by column, whose cell stands over the point.
    fn first(&self) -> Option<Position>
        requires columns { HasSizes (D.has_column self.now.dimension.now) self.now.shape.1 }
        requires rows { HasSizes (D.has_row self.now.dimension.now) self.now.shape.0 }
        requires reach { IsAround D.width_of D.height_of self.now }
        ensures { let table = point_table D.width_of D.height_of self.now in
            IsFirstOver table self.now.column self.now.line result }
    {
        for row in 0..=self.within.row {
            let found = self.first_in_row(row);
            if found.is_some() {
                return found;
            }
        }
        None
    }
}

/// The track along a direction, of so many, from whose begin to that of the next one a point lies,
/// if the total fits.
fn track_around<D: Dimension, S: ConfigView>(
    dimension: &D,
    settings: &S,
    direction: Direction,
    count: usize,
    point: usize,
) -> Option<usize>
    requires { HasSizes (has_along (D.has_column dimension.now) (D.has_row dimension.now)
        direction) count }
    ensures { let size = size_along (D.width_of dimension.now)
        (D.height_of dimension.now) direction in
        let line = (S.grid settings.now).draws direction count in
        MatchOption result (total size line count < 2 ^ 64 →
        (point < offset size line 0) ⊎ (offset size line count ≤ point))
        (λ i. (total size line count < 2 ^ 64) × ((i < count) × (offset size line i ≤ point)
        × (point < offset size line (i + 1)))) }
{
    let ruler = Ruler {
        dimension,
        settings,
        direction,
        count,
    };
    let _total = ruler.total()?;
    ruler.number_at(point)
}

/// The position of the cell at a column of the terminal in a line of a table of the shape (rows,
/// columns), both counted from the left edge and the top of the table: that of the first cell, by
/// row and then by column, whose screen rectangle covers the point. None on a line of the table
/// over which no such screen rectangle goes, outside of the table, and where no cell has a screen
/// rectangle since a total is more than the greatest `usize`. It does not allocate, and takes time
/// that grows with the rows and columns, at a hidden position with the cells.
///
/// Condition: the dimension has a width for each of the columns and a height for each of the rows.
pub fn cell_at<D: Dimension>(
    dimension: &D,
    config: &SpannedConfig,
    shape: (usize, usize),
    column: usize,
    line: usize,
) -> Option<Position>
    requires columns { HasSizes (D.has_column dimension.now) shape.1 }
    requires rows { HasSizes (D.has_row dimension.now) shape.0 }
    ensures { let table = table_by config.now (D.width_of dimension.now)
        (D.height_of dimension.now) shape in
        IsFirstOver table column line result }
{
    let (rows, columns) = shape;
    let within = Position {
        row: track_around(dimension, config, Direction::Rows, rows, line)?,
        col: track_around(dimension, config, Direction::Columns, columns, column)?,
    };
    let point = Point {
        dimension,
        config,
        shape,
        column,
        line,
        within,
    };
    if config.is_visible(within) {
        return point.is_under(within).then_some(within);
    }
    point.first()
}
