//! A cell as it is drawn: what stands in its place, line by line.

ghost use Rattle.std.specs.Prelude.{◌≡◌, ◌+◌, ◌-◌, ◌++◌, ◌<◌, ◌≤◌, ◌↔◌, ◌⊎◌, ℕ, List, [], IsTrue, OnOk, drop, false, length, option_map, slice_index_or, string_bytes, take};
ghost use Rattle.papergrid_values.specs.Colors.{texts_of};
ghost use Rattle.papergrid_draw.specs.Bytes.{pieces_bytes};
ghost use Rattle.papergrid_draw.specs.Contents.{FitsPlace, aligned_width, before, block_width, content, free_above, free_before, from_text, inner, is_blank, line_pieces, lines_of, shown_line};
ghost use Rattle.papergrid_draw.specs.ForProofs.Blocks.{IsShownRange, filled_up, to_text};
ghost use Rattle.papergrid_draw.specs.ForProofs.Looks.{look_seen};

use crate::look::Look;
use crate::pen::{push_colored, push_colored_fill};
use papergrid_text::Cell;
use papergrid_text::string::get_line_width;
use papergrid_values::{ANSIStr, AlignmentHorizontal, AlignmentVertical, Formatting};
use std::alloc::AllocError;
use std::marker::Model;

/// The settings of its text, the cell, if the records have one, the colour of the text, and how wide
/// (in columns of a terminal) and high (in lines) its place is; with what is found of these once:
/// which lines are shown, how many stand above, and the greatest width of all lines.
pub struct Block<'a, T: Cell> {
    look: Look<'a>,
    cell: Option<T>,
    color: Option<ANSIStr<'a>>,
    width: usize,
    height: usize,
    first: usize,
    count: usize,
    above: usize,
    block_width: usize,
}

// By hand: docs/DECISIONS.md, "Drops".
impl<T: Cell + Drop> Drop for Block<'_, T> {
    fn drop(self) {
        let Block {
            look: _,
            cell: _,
            color: _,
            width: _,
            height: _,
            first: _,
            count: _,
            above: _,
            block_width: _,
        } = self;
    }
}

impl<'a, T: Cell> Model for Block<'a, T> {
    ghost use Rattle.std.specs.Prelude.{option_map};
    ghost use Rattle.papergrid_values.specs.Colors.{texts_of};
    ghost use Rattle.papergrid_draw.specs.Contents as contents;
    ghost use Rattle.papergrid_draw.specs.Contents.{lines_of};
    ghost use Rattle.papergrid_draw.specs.ForProofs.Blocks.{IsFound};
    ghost use Rattle.papergrid_draw.specs.ForProofs.Looks.{look_seen};

    ghost Value = { contents.Block };

    ghost view = { λ b. record {
      look = look_seen b.look;
      lines = lines_of T.lines b.cell;
      color = option_map texts_of b.color;
      width = b.width;
      height = b.height;
    } };

    ghost invariant = { λ b. IsFound (record {
      look = look_seen b.look;
      lines = lines_of T.lines b.cell;
      color = option_map texts_of b.color;
      width = b.width;
      height = b.height;
    }) b.first b.count b.above b.block_width };
}

/// How much of some free room is before a text.
pub fn free_before(alignment: AlignmentHorizontal, free: usize) -> usize
    ensures { result ≡ free_before alignment free }
{
    match alignment {
        AlignmentHorizontal::Left => 0,
        AlignmentHorizontal::Center => free / 2,
        AlignmentHorizontal::Right => free,
    }
}

/// How many of some free lines are above it.
fn free_above(alignment: AlignmentVertical, free: usize) -> usize
    ensures { result ≡ free_above alignment free }
{
    match alignment {
        AlignmentVertical::Top => 0,
        AlignmentVertical::Center => free / 2,
        AlignmentVertical::Bottom => free,
    }
}

/// How many lines of a place stand above those that are shown.
fn lines_above(top: usize, alignment: AlignmentVertical, height: usize, count: usize) -> usize
    ensures { result ≡ top + free_above alignment (height - (top + count)) }
{
    let free = height.saturating_sub(top).saturating_sub(count);
    top + free_above(alignment, free)
}

/// Whether a line of a cell is white space alone.
fn is_blank<T: Cell>(cell: &T, line: usize) -> bool
    requires { line < length (T.lines cell.now) }
    ensures { result ≡ is_blank (slice_index_or (T.lines cell.now) line ([], 0)) }
{
    cell.line(line).trim().is_empty()
}

/// The first line that is not blank, or `end`, the number of lines.
fn first_text<T: Cell>(cell: &T, end: usize) -> usize
    requires { end ≡ length (T.lines cell.now) }
    ensures within { result ≤ end }
    ensures rest { drop result (T.lines cell.now) ≡ from_text (T.lines cell.now) }
{
    let mut start = 0;
    while start < end && is_blank(cell, start) {
        start += 1;
    }
    start
}

/// The end of the lines from `start` on without the blank ones before `end`, the number of lines.
fn end_of_text<T: Cell>(cell: &T, start: usize, end: usize) -> usize
    requires all { end ≡ length (T.lines cell.now) }
    requires within { start ≤ end }
    ensures from { start ≤ result }
    ensures within { result ≤ end }
    ensures shown { take (result - start) (drop start (T.lines cell.now))
        ≡ to_text (drop start (T.lines cell.now)) }
{
    let mut last = end;
    while start < last && is_blank(cell, last - 1) {
        last -= 1;
    }
    last
}

/// The text of a line as it is shown, with its width.
fn shown_line<T: Cell>(cell: &T, trims: bool, line: usize) -> (&str, usize)
    requires { line < length (T.lines cell.now) }
    ensures text { result.0.now
        ≡ (shown_line trims (slice_index_or (T.lines cell.now) line ([], 0))).0 }
    ensures width { result.1
        ≡ (shown_line trims (slice_index_or (T.lines cell.now) line ([], 0))).1 }
{
    if trims {
        let text = cell.line(line).trim();
        (text, get_line_width(text))
    } else {
        (cell.line(line), cell.line_width(line))
    }
}

/// The greatest width of the lines as they are shown. Their number is `end`.
fn widest<T: Cell>(cell: &T, trims: bool, end: usize) -> usize
    requires { end ≡ length (T.lines cell.now) }
    ensures { result ≡ block_width trims (T.lines cell.now) }
{
    let mut most = 0usize;
    for line in 0..end {
        most = most.max(shown_line(cell, trims, line).1);
    }
    most
}

/// Whether no line is shown, or the widest with what stands beside it is no wider than its place.
fn has_room_for(count: usize, block: usize, beside: (usize, usize), width: usize) -> bool
    ensures { IsTrue result ↔ ((count ≡ 0) ⊎ (block + (beside.0 + beside.1) ≤ width)) }
{
    let free = width.saturating_sub(block);
    let rest = free.saturating_sub(beside.0);
    count == 0 || block <= width && beside.0 <= free && beside.1 <= rest
}

/// From which of the lines on how many are shown. Their number is `end`.
fn shown_range<T: Cell>(cell: &T, trims: bool, end: usize) -> (usize, usize)
    requires { end ≡ length (T.lines cell.now) }
    ensures { IsShownRange trims (T.lines cell.now) result.0 result.1 }
{
    if !trims {
        return (0, end);
    }
    let first = first_text(cell, end);
    (first, end_of_text(cell, first, end) - first)
}

/// The same of what may be no cell, and the greatest width of its lines as they are shown.
fn measure<T: Cell>(cell: &Option<T>, formatting: Formatting) -> (usize, usize, usize)
    ensures shown { IsShownRange formatting.vertical_trim (lines_of T.lines cell.now)
        result.0 result.1 }
    ensures widest { result.2
        ≡ block_width formatting.horizontal_trim (lines_of T.lines cell.now) }
{
    match cell {
        Some(cell) => {
            let end = cell.count_lines();
            let (first, count) = shown_range(cell, formatting.vertical_trim, end);
            (first, count, widest(cell, formatting.horizontal_trim, end))
        }
        None => (0, 0, 0),
    }
}

/// Adds a line of a text between its paddings, with so much justification on both sides.
fn push_filled_up(
    line: &mut String,
    look: &Look<'_>,
    color: Option<ANSIStr<'_>>,
    text: &str,
    beside: (usize, usize),
) -> Result<(), AllocError>
    ensures { OnOk result (string_bytes line.new ≡ string_bytes line.old
        ++ filled_up (look_seen look.now) (option_map texts_of color.entry) text.now beside) }
{
    let (padding, colors) = (look.padding, look.padding_color);
    push_colored_fill(
        line,
        colors.left.as_ref(),
        padding.left.fill,
        padding.left.size,
    )?;
    push_colored_fill(line, look.justification_color, look.justification, beside.0)?;
    push_colored(line, color, text)?;
    push_colored_fill(line, look.justification_color, look.justification, beside.1)?;
    push_colored_fill(
        line,
        colors.right.as_ref(),
        padding.right.fill,
        padding.right.size,
    )
}

/// Adds the one line of a text of one line, in a place that is so wide.
fn push_single<T: Cell>(
    line: &mut String,
    look: &Look<'_>,
    cell: &T,
    color: Option<ANSIStr<'_>>,
    width: usize,
) -> Result<(), AllocError>
    requires single { length (T.lines cell.now) ≡ 1 }
    requires first { (look_seen look.now).padding.top.size ≡ 0 }
    requires shown { (look_seen look.now).formatting.vertical_trim ≡ false }
    ensures { OnOk result (string_bytes line.new ≡ string_bytes line.old
        ++ pieces_bytes (content (record {
          look = look_seen look.now;
          lines = T.lines cell.now;
          color = option_map texts_of color.entry;
          width = width;
          height = 1;
        }) 0)) }
{
    let (text, own) = shown_line(cell, look.formatting.horizontal_trim, 0);
    let inner = width
        .saturating_sub(look.padding.left.size)
        .saturating_sub(look.padding.right.size);
    let before = free_before(look.horizontal, inner.saturating_sub(own));
    let after = inner.saturating_sub(before).saturating_sub(own);
    push_filled_up(line, look, color, text, (before, after))
}

/// Adds the first line of a cell in a place that is so wide, and one line high.
pub fn push_only_line<'a, T: Cell + Drop>(
    look: Look<'a>,
    cell: Option<T>,
    color: Option<ANSIStr<'a>>,
    width: usize,
    line: &mut String,
) -> Result<(), AllocError>
    ensures { OnOk result (string_bytes line.new ≡ string_bytes line.old
        ++ pieces_bytes (content (record {
          look = look_seen look.entry;
          lines = lines_of T.lines cell;
          color = option_map texts_of color.entry;
          width = width;
          height = 1;
        }) 0)) }
{
    let is_whole = look.padding.top.size == 0 && !look.formatting.vertical_trim;
    if let Some(cell) = &cell {
        if is_whole && cell.count_lines() == 1 {
            return push_single(line, &look, cell, color, width);
        }
    }
    Block::new(look, cell, color, width, 1).push_line(0, line)
}

impl<'a, T: Cell> Block<'a, T> {
    /// The block of a cell.
    pub fn new(
        look: Look<'a>,
        cell: Option<T>,
        color: Option<ANSIStr<'a>>,
        width: usize,
        height: usize,
    ) -> Block<'a, T>
        ensures { result ≡ record {
          look = look_seen look.entry;
          lines = lines_of T.lines cell;
          color = option_map texts_of color.entry;
          width = width;
          height = height;
        } }
    {
        let (first, count, block_width) = measure(&cell, look.formatting);
        let above = lines_above(look.padding.top.size, look.vertical, height, count);
        Block {
            look,
            cell,
            color,
            width,
            height,
            first,
            count,
            above,
            block_width,
        }
    }

    /// Whether it has room for its text: no line is shown, or the widest with the paddings beside it
    /// is no wider than its place.
    pub fn has_room(&self) -> bool
        ensures { IsTrue result ↔ FitsPlace self.now }
    {
        let padding = self.look.padding;
        has_room_for(
            self.count,
            self.block_width,
            (padding.left.size, padding.right.size),
            self.width,
        )
    }

    /// Adds line k of its place.
    pub fn push_line(&self, k: usize, line: &mut String) -> Result<(), AllocError>
        ensures { OnOk result (string_bytes line.new
            ≡ string_bytes line.old ++ pieces_bytes (content self.now k)) }
    {
        let (padding, colors) = (self.look.padding, self.look.padding_color);
        if k < self.above {
            return push_colored_fill(line, colors.top.as_ref(), padding.top.fill, self.width);
        }
        let index = k - self.above;
        match &self.cell {
            Some(cell) if index < self.count => self.push_text(cell, self.first + index, line),
            _ => push_colored_fill(
                line,
                colors.bottom.as_ref(),
                padding.bottom.fill,
                self.width,
            ),
        }
    }

    /// Adds a line of its text, with what fills it up.
    fn push_text(&self, cell: &T, index: usize, line: &mut String) -> Result<(), AllocError>
        requires own { T.lines cell.now ≡ self.now.lines }
        requires there { index < length self.now.lines }
        ensures { OnOk result (string_bytes line.new
            ≡ string_bytes line.old ++ pieces_bytes (line_pieces self.now
            (shown_line self.now.look.formatting.horizontal_trim
            (slice_index_or self.now.lines index ([], 0))))) }
    {
        let (text, width) = shown_line(cell, self.look.formatting.horizontal_trim, index);
        let inner = self.inner();
        let before = self.before(inner, width);
        let after = inner.saturating_sub(before).saturating_sub(width);
        push_filled_up(line, &self.look, self.color, text, (before, after))
    }

    /// The columns between the paddings.
    fn inner(&self) -> usize
        ensures { result ≡ inner self.now }
    {
        let padding = self.look.padding;
        self.width
            .saturating_sub(padding.left.size)
            .saturating_sub(padding.right.size)
    }

    /// How many of them are left of a line of this width.
    fn before(&self, columns: usize, width: usize) -> usize
        requires { columns ≡ inner self.now }
        ensures { (text : List ℕ) → result ≡ before self.now (text, width) }
    {
        let aligned = self.aligned_width(width);
        free_before(self.look.horizontal, columns.saturating_sub(aligned))
    }

    /// The width by which a line of this width is aligned.
    fn aligned_width(&self, width: usize) -> usize
        ensures { (text : List ℕ) → result ≡ aligned_width self.now (text, width) }
    {
        if self.look.formatting.allow_lines_alignment {
            width
        } else {
            self.block_width
        }
    }
}
