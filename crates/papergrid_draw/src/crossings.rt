//! Crossings of lines that fit the spans: where a cell goes over a line, the crossings at its edge lose an arm.

ghost use Rattle.std.specs.Prelude.{◌≡◌, ◌+◌, ◌-◌, ◌<◌, ◌≤◌, ◌^◌, ◌&&◌, ◌↔◌, ℕ, IfErr, IfOk, IsTrue, MatchOption, OnOk, Some, length, nat_lt, true};
ghost use Rattle.papergrid_values.specs.Positions.{position_of};
ghost use Rattle.papergrid_config.specs.Grids.{spanned_grid};
ghost use Rattle.papergrid_layout.specs.Places.{TableView};
ghost use Rattle.papergrid_draw.specs.Drawings.{layout_of};
ghost use Rattle.papergrid_draw.specs.Drawn.{draws_horizontal, draws_vertical, stands_over, stands_over_crossing};
ghost use Rattle.papergrid_draw.specs.Tiles.{IsTablePosition, IsTiled, owner};
ghost use Rattle.papergrid_draw.specs.Crossings.{AreOfFrame, FitCrossings, IsFitFault, IsUnfit, bare_drawing, junction, junction_at};
ghost use Rattle.papergrid_draw.specs.ForProofs.Crossings.{AreFittedBefore, AreOwners, FitsAlready, IsCrossingLine, goes_over};

use crate::error::DrawError;
use crate::tiles::check_tiles;
use papergrid_config::{Setting, SpannedConfig};
use papergrid_maps::ConfigView;
use papergrid_values::{Border, Borders, Direction, Position};
use std::alloc::{AllocError, Global};
use std::mem;

/// The eleven characters that join lines, by the part of a frame that has each: `top_left` joins the lines below and right
/// of it, `top_intersection` all but the one above, `horizontal` those left and right.
#[derive(Clone, Copy, Debug)]
pub struct Junctions {
    pub horizontal: char,
    pub vertical: char,
    pub top_left: char,
    pub top_intersection: char,
    pub top_right: char,
    pub left_intersection: char,
    pub intersection: char,
    pub right_intersection: char,
    pub bottom_left: char,
    pub bottom_intersection: char,
    pub bottom_right: char,
}

impl Junctions {
    /// Those of a frame, if it has all of them.
    pub fn of_frame(frame: &Borders<char>) -> Option<Junctions>
        ensures { MatchOption result ((junctions : Junctions) → AreOfFrame frame.now junctions → ⊥)
            (AreOfFrame frame.now) }
    {
        Some(Junctions {
            horizontal: frame.horizontal?,
            vertical: frame.vertical?,
            top_left: frame.top_left?,
            top_intersection: frame.top_intersection?,
            top_right: frame.top_right?,
            left_intersection: frame.left_intersection?,
            intersection: frame.intersection?,
            right_intersection: frame.right_intersection?,
            bottom_left: frame.bottom_left?,
            bottom_intersection: frame.bottom_intersection?,
            bottom_right: frame.bottom_right?,
        })
    }

    /// The character that joins the lines above, below, left and right of it, if at least two are there.
    fn joining(&self, above: bool, below: bool, left: bool, right: bool) -> Option<char>
        ensures { result ≡ junction self.now above below left right }
    {
        match (above, below, left, right) {
            (true, true, true, true) => Some(self.intersection),
            (true, true, false, true) => Some(self.left_intersection),
            (true, true, true, false) => Some(self.right_intersection),
            (false, true, true, true) => Some(self.top_intersection),
            (true, false, true, true) => Some(self.bottom_intersection),
            (false, true, false, true) => Some(self.top_left),
            (false, true, true, false) => Some(self.top_right),
            (true, false, false, true) => Some(self.bottom_left),
            (true, false, true, false) => Some(self.bottom_right),
            (true, true, false, false) => Some(self.vertical),
            (false, false, true, true) => Some(self.horizontal),
            _ => None,
        }
    }
}

/// The owner of a position, by those of the position above it and of the one on its left.
fn next_owner(
    config: &SpannedConfig,
    above: Position,
    left: Position,
    position: Position,
) -> Position
    ensures { (table : TableView) → table.grid ≡ spanned_grid config.now → IsTiled table →
        IsTablePosition table position →
        (0 < position.row →
        owner table (position_of (position.row - 1, position.col)) ≡ Some above) →
        (0 < position.col →
        owner table (position_of (position.row, position.col - 1)) ≡ Some left) →
        owner table position ≡ Some result }
{
    let Position { row, col } = position;
    if above.row < row && row - above.row < config.span(Direction::Rows, above) {
        return above;
    }
    if left.row == row && left.col < col && col - left.col < config.span(Direction::Columns, left) {
        return left;
    }
    position
}

/// Finds the owners of the positions of a row, by those of the row above. Past the last row nothing is said of them.
fn find_owners(config: &SpannedConfig, row: usize, above: &[Position], owners: &mut [Position])
    requires { length above.now ≡ length owners.old }
    ensures { (table : TableView) → table.grid ≡ spanned_grid config.now → IsTiled table →
        row < table.shape.0 → length above.now ≡ table.shape.1 →
        (0 < row → AreOwners table (row - 1) above.now) → AreOwners table row owners.new }
{
    let mut left = Position { row: 0, col: 0 };
    for col in 0..owners.len() {
        left = next_owner(config, above[col], left, Position { row, col });
        owners[col] = left;
    }
}

/// Whether the positions on both sides of a vertical line have the same owner.
fn is_joined(owners: &[Position], column: usize) -> bool
    ensures { (table : TableView) (row : ℕ) → AreOwners table row owners.now →
        length owners.now ≡ table.shape.1 → result ≡ goes_over table row column }
{
    0 < column && column < owners.len() && owners[column - 1] == owners[column]
}

/// The line before a row, or after the last one, with the owners of the positions above it and below it.
#[derive(Clone, Copy)]
struct Line<'a> {
    config: &'a SpannedConfig,
    shape: (usize, usize),
    row: usize,
    above: &'a [Position],
    below: &'a [Position],
}

impl Line<'_> {
    /// Whether there are rows on both sides of it.
    fn is_inner(&self) -> bool
        ensures { result ≡ (nat_lt 0 self.now.row && nat_lt self.now.row self.now.shape.0) }
    {
        0 < self.row && self.row < self.shape.0
    }

    /// Whether one cell stands over it in a column.
    fn is_under(&self, column: usize) -> bool
        requires line { IsCrossingLine self.now }
        requires inside { column < self.now.shape.1 }
        ensures { result ≡ stands_over
            (bare_drawing self.now.config.now self.now.shape) self.now.row column }
    {
        self.is_inner() && self.above[column] == self.below[column]
    }

    /// Whether one cell stands over its crossing with a vertical line.
    fn is_crossing_under(&self, column: usize) -> bool
        requires { IsCrossingLine self.now }
        ensures { result ≡ stands_over_crossing
            (bare_drawing self.now.config.now self.now.shape) self.now.row column }
    {
        self.is_inner()
            && 0 < column
            && column < self.shape.1
            && self.above[column - 1] == self.below[column]
    }

    /// The character that joins the lines which meet at a crossing.
    fn joining(&self, junctions: &Junctions, column: usize) -> Option<char>
        requires line { IsCrossingLine self.now }
        requires horizontal { draws_horizontal
            (bare_drawing self.now.config.now self.now.shape) self.now.row ≡ true }
        requires vertical { draws_vertical
            (bare_drawing self.now.config.now self.now.shape) column ≡ true }
        requires inside { column ≤ self.now.shape.1 }
        ensures { result ≡ junction_at junctions.now
            (bare_drawing self.now.config.now self.now.shape) self.now.row column }
    {
        let above = 0 < self.row && !is_joined(self.above, column);
        let below = self.row < self.shape.0 && !is_joined(self.below, column);
        let left = 0 < column && !self.is_under(column - 1);
        let right = column < self.shape.1 && !self.is_under(column);
        junctions.joining(above, below, left, right)
    }

    /// The character that a crossing is to be given, if it has another one.
    fn wanted(&self, junctions: &Junctions, column: usize) -> Option<char>
        requires line { IsCrossingLine self.now }
        requires horizontal { draws_horizontal
            (bare_drawing self.now.config.now self.now.shape) self.now.row ≡ true }
        requires inside { column ≤ self.now.shape.1 }
        ensures { MatchOption result
            (FitsAlready self.now.config.now self.now.shape junctions.now self.now.row column)
            (IsUnfit self.now.config.now self.now.shape junctions.now
            (position_of (self.now.row, column))) }
    {
        if !self.config.has_vertical(column, self.shape.1) || self.is_crossing_under(column) {
            return None;
        }
        let position = Position {
            row: self.row,
            col: column,
        };
        let found = self.config.get_intersection(position, self.shape);
        let character = found.unwrap_or(self.config.get_borders_missing());
        let joining = self.joining(junctions, column)?;
        if joining == character {
            None
        } else {
            Some(joining)
        }
    }

    /// Adds the setting of a crossing that has another character than that of its lines.
    fn fit_crossing(
        &self,
        junctions: &Junctions,
        column: usize,
        settings: &mut Vec<Setting>,
    ) -> Result<(), AllocError>
        requires line { IsCrossingLine self.now }
        requires horizontal { draws_horizontal
            (bare_drawing self.now.config.now self.now.shape) self.now.row ≡ true }
        requires inside { column ≤ self.now.shape.1 }
        requires room { (self.now.shape.0 + 1 < 2 ^ 64) × (self.now.shape.1 + 1 < 2 ^ 64) }
        requires fitted { AreFittedBefore self.now.config.now self.now.shape junctions.now
            self.now.row column settings.old.items }
        ensures { OnOk result (AreFittedBefore self.now.config.now self.now.shape junctions.now
            self.now.row (column + 1) settings.new.items) }
    {
        let Some(character) = self.wanted(junctions, column) else {
            return Ok(());
        };
        let position = Position {
            row: self.row,
            col: column,
        };
        let border = Border {
            left_top_corner: Some(character),
            ..Border::empty()
        };
        settings.push(Setting::SetBorder(position, border))?;
        Ok(())
    }

    /// Adds the settings of its crossings.
    fn fit(&self, junctions: &Junctions, settings: &mut Vec<Setting>) -> Result<(), AllocError>
        requires line { IsCrossingLine self.now }
        requires room { (self.now.shape.0 + 1 < 2 ^ 64) × (self.now.shape.1 + 1 < 2 ^ 64) }
        requires fitted { AreFittedBefore self.now.config.now self.now.shape junctions.now
            self.now.row 0 settings.old.items }
        ensures { OnOk result (AreFittedBefore self.now.config.now self.now.shape junctions.now
            (self.now.row + 1) 0 settings.new.items) }
    {
        if !self.config.has_horizontal(self.row, self.shape.0) {
            return Ok(());
        }
        for column in 0..self.shape.1 + 1 {
            self.fit_crossing(junctions, column, settings)?;
        }
        Ok(())
    }
}

/// The settings of the crossings of a tiled table.
fn fit_lines(
    alloc: Global,
    config: &SpannedConfig,
    shape: (usize, usize),
    junctions: &Junctions,
) -> Result<Vec<Setting>, AllocError>
    requires tiled { IsTiled (layout_of (bare_drawing config.now shape)) }
    requires room { (shape.0 + 1 < 2 ^ 64) × (shape.1 + 1 < 2 ^ 64) }
    requires some { (0 < shape.0) × (0 < shape.1) }
    ensures { IfOk result (λ settings. AreFittedBefore config.now shape junctions.now
        (shape.0 + 1) 0 settings.items) }
{
    let first = Position { row: 0, col: 0 };
    let mut above = vec![in alloc; first; shape.1]?;
    let mut below = vec![in alloc; first; shape.1]?;
    let mut settings = Vec::new(alloc);
    for row in 0..shape.0 + 1 {
        find_owners(config, row, &above, &mut below);
        let line = Line {
            config,
            shape,
            row,
            above: &above,
            below: &below,
        };
        line.fit(junctions, &mut settings)?;
        mem::swap(&mut above, &mut below);
    }
    Ok(settings)
}

/// Whether one row more and one column more can be counted.
fn can_be_counted(shape: (usize, usize)) -> bool
    ensures { IsTrue result ↔ ((shape.0 + 1 < 2 ^ 64) × (shape.1 + 1 < 2 ^ 64)) }
{
    shape.0 < usize::MAX && shape.1 < usize::MAX
}

/// The settings by which each crossing of a table of so many rows and columns has the character of the lines that meet
/// there: one for each crossing that is seen and has another character, by row and then by column. They change no line. A table without rows or
/// columns has none. It allocates two owners a column and the list, and takes time that grows with the positions and the
/// spans.
///
/// # Errors
///
/// `OutOfTable` and `NotTiled` where the spans do not tile the table, `TooLarge` for a table of `usize::MAX` rows or columns;
/// `Memory` in place of any answer.
pub fn fitted_crossings(
    alloc: Global,
    config: &SpannedConfig,
    shape: (usize, usize),
    junctions: &Junctions,
) -> Result<Vec<Setting>, DrawError>
    ensures ok { IfOk result (λ settings.
        FitCrossings config.now shape junctions.now settings.items) }
    ensures err { IfErr result (IsFitFault config.now shape) }
{
    check_tiles(alloc, config, shape)?;
    if !can_be_counted(shape) {
        return Err(DrawError::TooLarge);
    }
    if shape.0 == 0 || shape.1 == 0 {
        return Ok(Vec::new(alloc));
    }
    Ok(fit_lines(alloc, config, shape, junctions)?)
}
