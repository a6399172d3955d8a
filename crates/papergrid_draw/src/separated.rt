//! Whether separators stand between the texts of a picture, so that the widths of its texts and characters add up.

ghost use Rattle.std.specs.Prelude.{◌≡◌, ◌↔◌, ◌+◌, ◌-◌, ◌^◌, ◌<◌, ◌&&◌, IfOk, IsTrue, OnOk, length};
ghost use Rattle.std.specs.List.{list_all};
ghost use Rattle.papergrid_values.specs.Borders.{border_parts, frame_parts};
ghost use Rattle.papergrid_values.specs.Keys.{sides_parts};
ghost use Rattle.papergrid_values.specs.Lines.{horizontal_parts, vertical_parts};
ghost use Rattle.papergrid_values.specs.declared.indent.Indent.{Indent};
ghost use Rattle.papergrid_text.specs.Separators.{begins_keycap, is_separator};
ghost use Rattle.papergrid_config.specs.Grids.{spanned_grid};
ghost use Rattle.papergrid_walk.specs.ForProofs.Shown.{Shows, anchor_in};
ghost use Rattle.papergrid_layout.specs.Tables.{view_of};
ghost use Rattle.papergrid_draw.specs.Drawings.{Drawing, layout_of};
ghost use Rattle.papergrid_draw.specs.Separated.{AreApart, part_separates, setting_separates};
ghost use Rattle.papergrid_draw.specs.ForProofs.Apart.{AreTested, IsTested, IsCellApartAfter, IsCellApartBefore};

use papergrid_config::Setting;
use papergrid_layout::Table;
use papergrid_maps::Anchor;
use papergrid_values::{Border, Borders, HorizontalLine, Indent, Position, Sides, VerticalLine};
use papergrid_walk::Sweep;
use papergrid_walk::shown::{sweep_of, visible_anchor};
use std::alloc::{AllocError, Global};

/// Whether each character that the settings set, but for those of margins, is a separator: the blank, printable ASCII but
/// `#`, `*` and digits, and U+2500 to U+257F. It takes one column, and joins with no text beside it.
pub fn settings_separate(settings: &[Setting]) -> bool
    ensures { result ≡ list_all setting_separates settings.now }
{
    settings.iter().all(|setting| separates(setting))
}

/// Whether each character that a setting sets is a separator, but for those of margins.
fn separates(setting: &Setting) -> bool
    ensures { result ≡ setting_separates setting.now }
{
    match setting {
        Setting::SetBorders(frame) => frame_separates(frame),
        Setting::SetBorderDefault(c) => is_separator(*c),
        Setting::SetBordersMissing(c) => is_separator(*c),
        Setting::InsertHorizontalLine(_, line) => horizontal_separates(line),
        Setting::InsertVerticalLine(_, line) => vertical_separates(line),
        Setting::SetBorder(_, border) => border_separates(border),
        Setting::SetHorizontalChar(_, _, c) => is_separator(*c),
        Setting::SetVerticalChar(_, _, c) => is_separator(*c),
        Setting::SetPadding(_, padding) => padding_separates(padding),
        Setting::SetJustification(_, c) => is_separator(*c),
        _ => true,
    }
}

/// Whether each part of a frame is a separator or not set.
fn frame_separates(frame: &Borders<char>) -> bool
    ensures { result ≡ list_all part_separates (frame_parts frame.now) }
{
    part_separates(frame.top)
        && part_separates(frame.top_left)
        && part_separates(frame.top_right)
        && part_separates(frame.top_intersection)
        && part_separates(frame.bottom)
        && part_separates(frame.bottom_left)
        && part_separates(frame.bottom_right)
        && part_separates(frame.bottom_intersection)
        && part_separates(frame.horizontal)
        && part_separates(frame.vertical)
        && part_separates(frame.intersection)
        && part_separates(frame.left)
        && part_separates(frame.left_intersection)
        && part_separates(frame.right)
        && part_separates(frame.right_intersection)
}

/// Whether each part of a border is.
fn border_separates(border: &Border<char>) -> bool
    ensures { result ≡ list_all part_separates (border_parts border.now) }
{
    part_separates(border.top)
        && part_separates(border.bottom)
        && part_separates(border.left)
        && part_separates(border.right)
        && part_separates(border.left_top_corner)
        && part_separates(border.left_bottom_corner)
        && part_separates(border.right_top_corner)
        && part_separates(border.right_bottom_corner)
}

/// Whether each part of a horizontal line is.
fn horizontal_separates(line: &HorizontalLine<char>) -> bool
    ensures { result ≡ list_all part_separates (horizontal_parts line.now) }
{
    part_separates(line.main)
        && part_separates(line.intersection)
        && part_separates(line.left)
        && part_separates(line.right)
}

/// Whether each part of a vertical line is.
fn vertical_separates(line: &VerticalLine<char>) -> bool
    ensures { result ≡ list_all part_separates (vertical_parts line.now) }
{
    part_separates(line.main)
        && part_separates(line.intersection)
        && part_separates(line.top)
        && part_separates(line.bottom)
}

/// Whether what fills each side of a padding is a separator.
fn padding_separates(padding: &Sides<Indent>) -> bool
    ensures { result ≡ list_all (λ (indent : Indent). is_separator indent.fill)
        (sides_parts padding.now) }
{
    is_separator(padding.top.fill)
        && is_separator(padding.bottom.fill)
        && is_separator(padding.left.fill)
        && is_separator(padding.right.fill)
}

/// Whether a part of a border is a separator or not set.
fn part_separates(part: Option<char>) -> bool
    ensures { result ≡ part_separates part }
{
    match part {
        None => true,
        Some(c) => is_separator(c),
    }
}

/// Whether a character is a separator: the blank, printable ASCII but `#`, `*` and digits, or one of U+2500 to U+257F.
// Asked for each character of a line that is cut.
#[inline]
pub fn is_separator(c: char) -> bool
    ensures { result ≡ is_separator c }
{
    (matches!(c, ' '..='~') && !begins_keycap(c)) || matches!(c, '\u{2500}'..='\u{257F}')
}

/// Whether a keycap may begin with a character.
fn begins_keycap(c: char) -> bool
    ensures { result ≡ begins_keycap c }
{
    matches!(c, '#' | '*' | '0'..='9')
}

/// Whether the texts of a table's visible cells stand apart: before each of them but those of the first column stands a
/// vertical line or a padding, or after each of them but those that end with the last column. It takes some numbers for each
/// column and span, and time that grows with the cells.
pub fn texts_stand_apart(alloc: Global, table: &Table<'_>) -> Result<bool, AllocError>
    ensures { IfOk result (λ apart. (d : Drawing) → layout_of d ≡ view_of table.now →
        IsTrue apart ↔ AreApart d) }
{
    let apart = table_apart(alloc, table)?;
    Ok(apart.before || apart.after)
}

/// Whether a vertical line or a padding stands before each of some texts, and whether one stands after each.
#[derive(Clone, Copy)]
struct Apart {
    before: bool,
    after: bool,
}

impl Apart {
    /// Of these texts and others.
    fn and(self, other: Apart) -> Apart
        ensures { result ≡ record {
          before = self.before && other.before;
          after = self.after && other.after;
        } }
    {
        Apart {
            before: self.before && other.before,
            after: self.after && other.after,
        }
    }
}

/// Of all visible cells of a table.
fn table_apart(alloc: Global, table: &Table<'_>) -> Result<Apart, AllocError>
    ensures { IfOk result (λ apart.
        AreTested (view_of table.now) apart (length table.now.heights) 0) }
{
    let mut sweep = sweep_of(alloc, table.config())?;
    let mut apart = Apart {
        before: true,
        after: true,
    };
    for row in 0..table.shape().0 {
        apart = row_apart(alloc, table, &mut sweep, row, apart)?;
    }
    Ok(apart)
}

/// Of the visible cells of a row and of those above it.
fn row_apart(
    alloc: Global,
    table: &Table<'_>,
    sweep: &mut Sweep,
    row: usize,
    above: Apart,
) -> Result<Apart, AllocError>
    requires row_in { row < length table.now.heights }
    requires row_fits { row < 2 ^ 64 - 1 }
    requires shows { Shows (spanned_grid table.now.config) sweep.old row 0 }
    requires above { AreTested (view_of table.now) above row 0 }
    ensures shows { OnOk result (Shows (spanned_grid table.now.config) sweep.new (row + 1) 0) }
    ensures apart { IfOk result (λ apart. AreTested (view_of table.now) apart (row + 1) 0) }
{
    let mut apart = above;
    for col in 0..table.shape().1 {
        let here = cell_apart(alloc, table, sweep, Position { row, col })?;
        apart = apart.and(here);
    }
    Ok(apart)
}

/// Of the cell at a position, if that is visible.
fn cell_apart(
    alloc: Global,
    table: &Table<'_>,
    sweep: &mut Sweep,
    position: Position,
) -> Result<Apart, AllocError>
    requires row_in { position.row < length table.now.heights }
    requires col_in { position.col < length table.now.widths }
    requires row_fits { position.row < 2 ^ 64 - 1 }
    requires col_fits { position.col < 2 ^ 64 - 1 }
    requires shows { Shows (spanned_grid table.now.config) sweep.old position.row position.col }
    ensures shows { OnOk result
        (Shows (spanned_grid table.now.config) sweep.new position.row (position.col + 1)) }
    ensures apart { IfOk result (λ apart. IsTested (view_of table.now) apart position) }
{
    let Some(anchor) = visible_anchor(sweep, alloc, position)? else {
        return Ok(Apart {
            before: true,
            after: true,
        });
    };
    Ok(Apart {
        before: is_apart_before(table, position),
        after: is_apart_after(table, anchor),
    })
}

/// Whether a vertical line or a padding stands before a cell, or it stands in the first column.
fn is_apart_before(table: &Table<'_>, position: Position) -> bool
    ensures { IsTrue result ↔ IsCellApartBefore (view_of table.now) position }
{
    let config = table.config();
    position.col == 0
        || config.has_vertical(position.col, table.shape().1)
        || config.get_padding(position).left.size > 0
}

/// Whether a vertical line or a padding stands after a cell, or it ends with the last column or past it.
fn is_apart_after(table: &Table<'_>, cell: Anchor) -> bool
    requires col_in { cell.position.col < length table.now.widths }
    requires spans { cell ≡ anchor_in (view_of table.now).grid cell.position }
    ensures { IsTrue result ↔ IsCellApartAfter (view_of table.now) cell.position }
{
    let (config, columns) = (table.config(), table.shape().1);
    let col = cell.position.col;
    cell.cols >= columns - col
        || config.has_vertical(col + cell.cols, columns)
        || config.get_padding(cell.position).right.size > 0
}
