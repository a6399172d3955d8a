//! What stands on the lines, and which lines there are. Source: `config/spanned/mod.rs`.

ghost use Rattle.std.specs.Prelude.{◌≡◌, ◌↔◌, ◌-◌, ◌<◌, ◌^◌, IsTrue, option_copied};
ghost use Rattle.papergrid_tables.specs.StoredBorders.{parts_of_borders};
ghost use Rattle.papergrid_tables.specs.LineTests.{line_along};
ghost use Rattle.papergrid_tables.specs.BorderParts.{found_horizontal, found_intersection, found_vertical, HasLine};
ghost use Rattle.papergrid_config.specs.Lines.{shown_horizontal, shown_intersection, shown_vertical};
ghost use Rattle.papergrid_values.specs.Lines.{all_lines};
ghost use Rattle.papergrid_values.specs.declared.direction.Direction.TheVariants.{Columns, Rows};

use crate::spanned::SpannedConfig;
use papergrid_tables::BorderTable;
use papergrid_values::{ANSIBuf, Direction, Position};

// A table of n columns has its vertical lines at 0 to n, and one of n rows its horizontal lines.
impl SpannedConfig {
    /// The character of the vertical line at a row and a column, where there are so many columns:
    /// the one found in the table of characters, or else the missing one where the line is there.
    pub fn get_vertical(&self, position: Position, count: usize) -> Option<char>
        ensures { result ≡ shown_vertical self.now.characters self.now.missing position count }
    {
        match self.characters.get_vertical(position, count) {
            Some(character) => Some(*character),
            None if self.has_vertical(position.col, count) => Some(self.missing),
            None => None,
        }
    }

    /// The character of the horizontal line at a row and a column, where there are so many rows,
    /// likewise.
    pub fn get_horizontal(&self, position: Position, count: usize) -> Option<char>
        ensures { result ≡ shown_horizontal self.now.characters self.now.missing position count }
    {
        match self.characters.get_horizontal(position, count) {
            Some(character) => Some(*character),
            None if self.has_horizontal(position.row, count) => Some(self.missing),
            None => None,
        }
    }

    /// The character where two lines cross, in a table of so many rows and columns: the one found
    /// in the table of characters, or else the missing one where both lines are there.
    pub fn get_intersection(&self, position: Position, shape: (usize, usize)) -> Option<char>
        ensures { result ≡ shown_intersection self.now.characters self.now.missing position shape }
    {
        match self.characters.get_intersection(position, shape) {
            Some(character) => Some(*character),
            None
                if self.has_horizontal(position.row, shape.0)
                    && self.has_vertical(position.col, shape.1) => { Some(self.missing) }
            None => None,
        }
    }

    /// The colour of the vertical line at a row and a column, where there are so many columns.
    pub fn get_vertical_color(&self, position: Position, count: usize) -> Option<&ANSIBuf>
        ensures { option_copied result
            ≡ found_vertical (parts_of_borders self.now.colors) position count }
    {
        self.colors.get_vertical(position, count)
    }

    /// The colour of the horizontal line at a row and a column, where there are so many rows.
    pub fn get_horizontal_color(&self, position: Position, count: usize) -> Option<&ANSIBuf>
        ensures { option_copied result
            ≡ found_horizontal (parts_of_borders self.now.colors) position count }
    {
        self.colors.get_horizontal(position, count)
    }

    /// The colour where two lines cross, in a table of so many rows and columns.
    pub fn get_intersection_color(
        &self,
        position: Position,
        shape: (usize, usize),
    ) -> Option<&ANSIBuf>
        ensures { option_copied result
            ≡ found_intersection (parts_of_borders self.now.colors) position shape.0 shape.1 }
    {
        self.colors.get_intersection(position, shape)
    }

    /// Whether there is a vertical line at a column, where there are so many columns.
    pub fn has_vertical(&self, col: usize, count: usize) -> bool
        ensures line { IsTrue result ↔
            HasLine Columns (parts_of_borders self.now.characters) col count }
        ensures test { result ≡ line_along self.now.characters Columns count col }
    {
        self.characters.has_vertical(col, count)
    }

    /// Whether there is a horizontal line at a row, where there are so many rows.
    pub fn has_horizontal(&self, row: usize, count: usize) -> bool
        ensures line { IsTrue result ↔
            HasLine Rows (parts_of_borders self.now.characters) row count }
        ensures test { result ≡ line_along self.now.characters Rows count row }
    {
        self.characters.has_horizontal(row, count)
    }

    /// How many vertical lines a table of so many columns has. Condition: their number is below
    /// the greatest `usize`.
    pub fn count_vertical(&self, count: usize) -> usize
        requires { count < 2 ^ 64 - 1 }
        ensures { result ≡ all_lines (line_along self.now.characters Columns count) count }
    {
        count_lines(&self.characters, Direction::Columns, count)
    }

    /// How many horizontal lines a table of so many rows has. Condition: their number is below the
    /// greatest `usize`.
    pub fn count_horizontal(&self, count: usize) -> usize
        requires { count < 2 ^ 64 - 1 }
        ensures { result ≡ all_lines (line_along self.now.characters Rows count) count }
    {
        count_lines(&self.characters, Direction::Rows, count)
    }
}

// How many lines a table has along a direction.
fn count_lines(characters: &BorderTable<char>, direction: Direction, count: usize) -> usize
    requires { count < 2 ^ 64 - 1 }
    ensures { result ≡ all_lines (line_along characters.now direction count) count }
{
    (0..count + 1)
        .filter(|i| match direction {
            Direction::Columns => characters.has_vertical(*i, count),
            Direction::Rows => characters.has_horizontal(*i, count),
        })
        .count()
}
