//! Steps on the maps of a `BorderTable`.

ghost use Rattle.std.specs.Prelude.{◌≡◌, ◌+◌, ◌<◌, ◌^◌, ◌||◌, OnOk, nat_eq, option_copied, option_and_then};
ghost use Rattle.std.specs.HashMap.{get as map_get};
ghost use Rattle.papergrid_values.specs.declared.direction.Direction.TheVariants.{Columns, Rows};
ghost use Rattle.papergrid_tables.specs.BorderCalls.{below, right_of, is_edge_of, is_corner_of, edge_part, corner_part};
ghost use Rattle.papergrid_tables.specs.ForProofs.CountedParts.{AreCornersCounted, AreEdgesCounted, HasCornerRoom, HasEdgeRoom};
ghost use Rattle.papergrid_tables.specs.ForProofs.CountedLines.{is_stored, reaches};
ghost use Rattle.papergrid_tables.specs.ForProofs.Maps.{Gains, HoldsAsBefore, Loses};
ghost use Rattle.papergrid_tables.specs.BorderParts as border_parts;

use crate::counted_lines::Lines;
use crate::counted_parts::{Corners, Edges};
use crate::line_counts::LineCounts;
use papergrid_values::{
    Border, Borders, Direction, HorizontalLine, Position, VerticalLine, hashed,
};
use std::alloc::AllocError;
use std::collections::HashMap;

/// The main part of the vertical line at a column.
pub(crate) fn vertical_main<T>(lines: &HashMap<usize, VerticalLine<T>>, col: usize) -> Option<&T>
    ensures { option_copied result
        ≡ option_and_then (λ line. line.main) (map_get nat_eq lines.now col) }
{
    lines.get(&col)?.main.as_ref()
}

/// The main part of the horizontal line at a row.
pub(crate) fn horizontal_main<T>(
    lines: &HashMap<usize, HorizontalLine<T>>,
    row: usize,
) -> Option<&T>
    ensures { option_copied result
        ≡ option_and_then (λ line. line.main) (map_get nat_eq lines.now row) }
{
    lines.get(&row)?.main.as_ref()
}

/// The part of a row's line where a column crosses it, in a table of so many columns.
pub(crate) fn row_part<T>(line: Option<&HorizontalLine<T>>, col: usize, cols: usize) -> Option<&T>
    ensures { option_copied result
        ≡ option_and_then (border_parts.of_horizontal_line col cols) (option_copied line.entry) }
{
    let line = line?;
    crossed(col, cols, &line.left, &line.right, &line.intersection)
}

/// The part of a column's line where a row crosses it, in a table of so many rows.
pub(crate) fn column_part<T>(line: Option<&VerticalLine<T>>, row: usize, rows: usize) -> Option<&T>
    ensures { option_copied result
        ≡ option_and_then (border_parts.of_vertical_line row rows) (option_copied line.entry) }
{
    let line = line?;
    crossed(row, rows, &line.top, &line.bottom, &line.intersection)
}

// The first part that is set, of those that count at an index of a line.
fn crossed<'a, T>(
    index: usize,
    count: usize,
    first: &'a Option<T>,
    end: &'a Option<T>,
    inner: &'a Option<T>,
) -> Option<&'a T>
    ensures { option_copied result
        ≡ border_parts.crossing_part index count first.now end.now inner.now }
{
    only_if(index == 0, first)
        .or(only_if(index == count, end))
        .or(only_if((index != 0) & (index != count), inner))
}

fn only_if<T>(counts: bool, part: &Option<T>) -> Option<&T>
    ensures { option_copied result ≡ border_parts.only_if counts part.now }
{
    if counts { part.as_ref() } else { None }
}

/// The frame's part for the vertical line at a column.
pub(crate) fn frame_vertical<T>(frame: &Borders<T>, col: usize, count: usize) -> Option<&T>
    ensures { option_copied result ≡ border_parts.frame_vertical frame.now col count }
{
    if col == count {
        frame.right.as_ref()
    } else if col == 0 {
        frame.left.as_ref()
    } else {
        frame.vertical.as_ref()
    }
}

/// The frame's part for the horizontal line at a row.
pub(crate) fn frame_horizontal<T>(frame: &Borders<T>, row: usize, count: usize) -> Option<&T>
    ensures { option_copied result ≡ border_parts.frame_horizontal frame.now row count }
{
    if row == 0 {
        frame.top.as_ref()
    } else if row == count {
        frame.bottom.as_ref()
    } else {
        frame.horizontal.as_ref()
    }
}

/// The frame's part where two lines cross.
pub(crate) fn of_frame<T>(
    frame: &Borders<T>,
    position: Position,
    shape: (usize, usize),
) -> Option<&T>
    ensures { option_copied result ≡ border_parts.of_frame frame.now position shape.0 shape.1 }
{
    let (rows, cols) = shape;
    if position.row == 0 && position.col == 0 {
        frame.top_left.as_ref()
    } else if position.row == 0 && position.col == cols {
        frame.top_right.as_ref()
    } else if position.row == rows && position.col == 0 {
        frame.bottom_left.as_ref()
    } else if position.row == rows && position.col == cols {
        frame.bottom_right.as_ref()
    } else if position.row == 0 {
        frame.top_intersection.as_ref()
    } else if position.row == rows {
        frame.bottom_intersection.as_ref()
    } else if position.col == 0 {
        frame.left_intersection.as_ref()
    } else if position.col == cols {
        frame.right_intersection.as_ref()
    } else {
        frame.intersection.as_ref()
    }
}

/// Whether the frame has a part for the vertical line at a column.
pub(crate) fn in_frame_vertical<T>(frame: &Borders<T>, col: usize, count: usize) -> bool
    ensures { result ≡ border_parts.in_frame Columns frame.now col count }
{
    if 0 < col && col < count {
        return frame.has_vertical();
    }
    (col == 0 && frame.has_left()) || (col == count && frame.has_right())
}

/// Whether the frame has a part for the horizontal line at a row.
pub(crate) fn in_frame_horizontal<T>(frame: &Borders<T>, row: usize, count: usize) -> bool
    ensures { result ≡ border_parts.in_frame Rows frame.now row count }
{
    if 0 < row && row < count {
        return frame.has_horizontal();
    }
    (row == 0 && frame.has_top()) || (row == count && frame.has_bottom())
}

/// Whether one of the first lines, which are those across, ends at an index of so many with that end
/// set, or there one of the second lines is stored, or one of the counts, which are those of the
/// edges and of the corners, is above 0.
pub(crate) fn is_set_at<A, L>(
    index: (usize, usize),
    lines: (&Lines<A>, &Lines<L>),
    counts: (&LineCounts, &LineCounts),
) -> bool
    ensures { result ≡ (reaches index.0 index.1 lines.entry.0.now
        || is_stored lines.entry.1.now.values counts.entry.0.now counts.entry.1.now index.0) }
{
    if lines.0.reach(index.0, index.1) {
        return true;
    }
    // Most tables hold none at all.
    if lines.1.values.is_empty() && counts.0.is_bare() && counts.1.is_bare() {
        return false;
    }
    is_found_at(index.0, &lines.1.values, counts)
}

// Whether a line is stored, or a count is above 0, by look-ups. They stand apart, so that a question about a
// table that holds none keeps no registers for them.
#[inline(never)]
fn is_found_at<L>(
    line: usize,
    lines: &HashMap<usize, L>,
    counts: (&LineCounts, &LineCounts),
) -> bool
    ensures { result ≡ is_stored lines.now counts.entry.0.now counts.entry.1.now line }
{
    hashed::is_stored(lines, line) || counts.0.holds(line) || counts.1.holds(line)
}

/// The positions below a position, to the right of it, and below that one. Condition: the next row
/// and column exist in `usize`.
pub(crate) fn neighbours(position: Position) -> (Position, Position, Position)
    requires row { position.row + 1 < 2 ^ 64 }
    requires col { position.col + 1 < 2 ^ 64 }
    ensures { result ≡ (below position, right_of position, below (right_of position)) }
{
    let below = Position::new(position.row + 1, position.col);
    let right_of = Position::new(position.row, position.col + 1);
    (
        below,
        right_of,
        Position::new(position.row + 1, position.col + 1),
    )
}

/// Makes room for the parts of a border.
pub(crate) fn reserve<T>(
    horizontal: &mut Edges<T>,
    vertical: &mut Edges<T>,
    corners: &mut Corners<T>,
) -> Result<(), AllocError>
    ensures same_horizontal { HoldsAsBefore horizontal.old.values horizontal.new.values }
    ensures same_vertical { HoldsAsBefore vertical.old.values vertical.new.values }
    ensures same_corners { HoldsAsBefore corners.old.values corners.new.values }
    ensures counted_horizontal { AreEdgesCounted Rows horizontal.old →
        AreEdgesCounted Rows horizontal.new }
    ensures counted_vertical { AreEdgesCounted Columns vertical.old →
        AreEdgesCounted Columns vertical.new }
    ensures counted_corners { AreCornersCounted corners.old → AreCornersCounted corners.new }
    ensures room_horizontal { OnOk result (HasEdgeRoom 2 horizontal.new) }
    ensures room_vertical { OnOk result (HasEdgeRoom 2 vertical.new) }
    ensures room_corners { OnOk result (HasCornerRoom 4 corners.new) }
{
    horizontal.reserve(2)?;
    vertical.reserve(2)?;
    corners.reserve(4)
}

/// Writes the parts of a border that are set, where there is room.
pub(crate) fn put_border<T: Drop>(
    horizontal: &mut Edges<T>,
    vertical: &mut Edges<T>,
    corners: &mut Corners<T>,
    position: Position,
    border: Border<T>,
)
    requires row { position.row + 1 < 2 ^ 64 }
    requires col { position.col + 1 < 2 ^ 64 }
    requires room_horizontal { HasEdgeRoom 2 horizontal.old }
    requires room_vertical { HasEdgeRoom 2 vertical.old }
    requires room_corners { HasCornerRoom 4 corners.old }
    requires counted_horizontal { AreEdgesCounted Rows horizontal.old }
    requires counted_vertical { AreEdgesCounted Columns vertical.old }
    requires counted_corners { AreCornersCounted corners.old }
    ensures horizontal { Gains (edge_part Rows position border)
        horizontal.old.values horizontal.new.values }
    ensures vertical { Gains (edge_part Columns position border)
        vertical.old.values vertical.new.values }
    ensures corners { Gains (corner_part position border) corners.old.values corners.new.values }
    ensures counted_horizontal { AreEdgesCounted Rows horizontal.new }
    ensures counted_vertical { AreEdgesCounted Columns vertical.new }
    ensures counted_corners { AreCornersCounted corners.new }
{
    let (below, right_of, opposite) = neighbours(position);
    horizontal.put(Direction::Rows, below, border.bottom);
    horizontal.put(Direction::Rows, position, border.top);
    vertical.put(Direction::Columns, right_of, border.right);
    vertical.put(Direction::Columns, position, border.left);
    corners.put(opposite, border.right_bottom_corner);
    corners.put(below, border.left_bottom_corner);
    corners.put(right_of, border.right_top_corner);
    corners.put(position, border.left_top_corner);
}

/// Drops the edges and corners of a cell.
pub(crate) fn take_border<T: Drop>(
    horizontal: &mut Edges<T>,
    vertical: &mut Edges<T>,
    corners: &mut Corners<T>,
    position: Position,
)
    requires row { position.row + 1 < 2 ^ 64 }
    requires col { position.col + 1 < 2 ^ 64 }
    requires counted_horizontal { AreEdgesCounted Rows horizontal.old }
    requires counted_vertical { AreEdgesCounted Columns vertical.old }
    requires counted_corners { AreCornersCounted corners.old }
    ensures horizontal { Loses (is_edge_of Rows position)
        horizontal.old.values horizontal.new.values }
    ensures vertical { Loses (is_edge_of Columns position) vertical.old.values vertical.new.values }
    ensures corners { Loses (is_corner_of position) corners.old.values corners.new.values }
    ensures counted_horizontal { AreEdgesCounted Rows horizontal.new }
    ensures counted_vertical { AreEdgesCounted Columns vertical.new }
    ensures counted_corners { AreCornersCounted corners.new }
{
    let (below, right_of, opposite) = neighbours(position);
    horizontal.take(Direction::Rows, position);
    horizontal.take(Direction::Rows, below);
    vertical.take(Direction::Columns, position);
    vertical.take(Direction::Columns, right_of);
    corners.take(position);
    corners.take(right_of);
    corners.take(below);
    corners.take(opposite);
}
