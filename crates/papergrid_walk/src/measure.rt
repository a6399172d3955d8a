//! How wide and how high a cell is, as each dimension measures it. Source: `dimension/`.

ghost use Rattle.std.specs.Prelude.{◌≡◌, ℕ};
ghost use Rattle.papergrid_walk.specs.Cells.{side};
ghost use Rattle.papergrid_walk.specs.Measures.{cell_measure, line_measure, std_line_measure};

use papergrid_text::Cell;
use papergrid_text::string::{count_lines, get_text_dimension, get_text_width};
use papergrid_values::Direction;
use std::convert::AsStr;

/// A way to measure cells.
pub trait Measure<C> {
    // The width and the height of a cell.
    ghost measured: { C → ℕ × ℕ };

    /// The width of a cell, in columns of a terminal, and its height, in lines.
    fn measure(cell: &C) -> (usize, usize)
        ensures { result ≡ measured cell.now };

    /// The width of a cell, or its height: the other one is not measured where that is cheaper.
    fn measure_along(direction: Direction, cell: &C) -> usize
        ensures { result ≡ side direction (measured cell.now) };
}

/// By the lines between newlines.
#[derive(Clone, Debug, PartialEq, Drop)]
pub struct ByLines {}

/// By what the cell itself says.
#[derive(Clone, Debug, PartialEq, Drop)]
pub struct ByCell {}

/// By std's lines for the width, and by the lines between newlines for the height.
pub struct ByStdLines {}

impl<C: AsStr> Measure<C> for ByLines {
    ghost measured = { line_measure C.text };

    fn measure(cell: &C) -> (usize, usize) {
        let (lines, width) = get_text_dimension(cell.as_str());
        (width, lines)
    }

    fn measure_along(direction: Direction, cell: &C) -> usize {
        match direction {
            Direction::Columns => get_text_dimension(cell.as_str()).1,
            Direction::Rows => count_lines(cell.as_str()),
        }
    }
}

impl<C: Cell> Measure<C> for ByCell {
    ghost measured = { cell_measure C.width C.lines };

    fn measure(cell: &C) -> (usize, usize) {
        (cell.width(), cell.count_lines())
    }

    fn measure_along(direction: Direction, cell: &C) -> usize {
        match direction {
            Direction::Columns => cell.width(),
            Direction::Rows => cell.count_lines(),
        }
    }
}

impl<C: AsStr> Measure<C> for ByStdLines {
    ghost measured = { std_line_measure C.text };

    fn measure(cell: &C) -> (usize, usize) {
        let text = cell.as_str();
        (get_text_width(text), count_lines(text))
    }

    fn measure_along(direction: Direction, cell: &C) -> usize {
        match direction {
            Direction::Columns => get_text_width(cell.as_str()),
            Direction::Rows => count_lines(cell.as_str()),
        }
    }
}
