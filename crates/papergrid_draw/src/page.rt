//! A table while it is drawn: what stands in each column of a row.

ghost use Rattle.std.specs.Prelude.{◌≡◌, ◌↔◌, ◌<◌, ◌≤◌, ◌+◌, ◌-◌, ◌++◌, IsTrue, None, Some, IfOk, OnOk, if◌then◌else◌, ◌&&◌, length, nat_lt, option_copied, option_map, string_bytes, true, unwrap_or};
ghost use Rattle.papergrid_values.specs.Colors.{texts_of};
ghost use Rattle.papergrid_values.specs.declared.direction.Direction.TheVariants.{Columns, Rows};
ghost use Rattle.papergrid_values.specs.Positions.{position_of};
ghost use Rattle.papergrid_tables.specs.BorderParts.{found_vertical};
ghost use Rattle.papergrid_tables.specs.StoredBorders.{parts_of_borders};
ghost use Rattle.papergrid_config.specs.Grids.{spanned_grid};
ghost use Rattle.papergrid_layout.specs.Places.{IsInsideTable};
ghost use Rattle.papergrid_layout.specs.Tables.{view_of};
ghost use Rattle.papergrid_draw.specs.Bytes.{pieces_bytes, rule_bytes};
ghost use Rattle.papergrid_draw.specs.Contents.{block_at, lines_of};
ghost use Rattle.papergrid_draw.specs.Drawings.{layout_of};
ghost use Rattle.papergrid_draw.specs.Drawn.{column_pieces, column_stretch, crossing_stretch, draws_horizontal, owner_at, rule_line, text_line, vertical_pieces};
ghost use Rattle.papergrid_draw.specs.Tiles.{IsTiled};
ghost use Rattle.papergrid_draw.specs.ForProofs.Tiles.{IsTiled-prop};
ghost use Rattle.papergrid_draw.specs.ForProofs.Pages.{AreSlotsSet, AreSlots, AreVerticals, HaveCharacters, IsBeforeRule, IsFrame, IsSlot, Texts, character_bytes, drawing_of, row_start, text_start};
ghost use Rattle.papergrid_draw.specs.ForProofs.Pens.{AddsStretches, stretches_over};

use crate::block::Block;
use crate::characters::{Rule, push_vertical};
use crate::look::Looks;
use papergrid_config::SpannedConfig;
use papergrid_layout::{Dimension, Table};
use papergrid_maps::ConfigView;
use papergrid_text::Cell;
use papergrid_values::{ANSIStr, Direction, Position};
use std::alloc::{AllocError, Global};

/// The cell that covers a column in a row: its position, how many of its lines are drawn, and, in the column in which
/// it begins, what is drawn of it.
#[derive(Drop)]
pub struct Slot<'a, T: Cell> {
    pub owner: Position,
    pub block: Option<Block<'a, T>>,
    pub drawn: usize,
}

/// A tiled table with what is read of it once.
pub struct Frame<'a> {
    pub table: &'a Table<'a>,
    pub config: &'a SpannedConfig,
    pub shape: (usize, usize),
    pub height: usize,
    pub looks: Looks<'a>,
    pub verticals: Vec<bool>,
    characters: Vec<Option<char>>,
    ghost tiled: { IsTiled (view_of table.now) } by { IsTiled-prop (view_of table.now) },
    ghost read: { IsFrame table.now config.now shape height looks verticals.items
        characters.items },
}

// By hand: docs/DECISIONS.md, "Drops".
impl Drop for Frame<'_> {
    fn drop(self) {
        let Frame {
            table: _,
            config: _,
            shape: _,
            height: _,
            looks: _,
            verticals: _,
            characters: _,
        } = self;
    }
}

/// Whether a vertical line stands before each column of a table, and after the last.
fn vertical_lines(alloc: Global, table: &Table<'_>) -> Result<Vec<bool>, AllocError>
    ensures { IfOk result (λ lines. AreVerticals table.now lines.items) }
{
    let mut lines = Vec::new(alloc);
    for col in 0..=table.shape().1 {
        lines.push(table.vertical_at(col).is_some())?;
    }
    Ok(lines)
}

/// The character that the vertical line before a column has in the first row, of so many columns; none where no line is
/// drawn.
fn vertical_character(
    config: &SpannedConfig,
    col: usize,
    columns: usize,
    is_drawn: bool,
) -> Option<char>
    ensures { result ≡ (if is_drawn then Some (unwrap_or
        (found_vertical (parts_of_borders config.now.characters) (position_of (0, col)) columns)
        config.now.missing) else None) }
{
    if !is_drawn {
        return None;
    }
    let character = config.get_vertical(Position { row: 0, col }, columns);
    Some(character.unwrap_or(config.get_borders_missing()))
}

/// The character of each vertical line that is drawn, and none in the place of the others. The list is empty where lines
/// have a part, a colour or a character of a single cell.
fn vertical_characters(
    alloc: Global,
    table: &Table<'_>,
    lines: &[bool],
) -> Result<Vec<Option<char>>, AllocError>
    requires { AreVerticals table.now lines.now }
    ensures { IfOk result (λ characters. HaveCharacters table.now characters.items) }
{
    let (config, columns) = (table.config(), table.shape().1);
    let mut characters = Vec::new(alloc);
    if !config.has_common_lines() {
        return Ok(characters);
    }
    for col in 0..lines.len() {
        characters.push(vertical_character(config, col, columns, lines[col]))?;
    }
    Ok(characters)
}

/// Adds the character of a vertical line, if there is one.
#[inline(always)]
fn push_character(line: &mut String, character: Option<char>) -> Result<(), AllocError>
    ensures { OnOk result (string_bytes line.new
        ≡ string_bytes line.old ++ character_bytes character) }
{
    match character {
        Some(character) => line.push(character),
        None => Ok(()),
    }
}

impl<'a> Frame<'a> {
    /// That of a tiled table, or out of memory.
    pub fn new(alloc: Global, table: &'a Table<'a>) -> Result<Frame<'a>, AllocError>
        requires { IsTiled (view_of table.now) }
        ensures { IfOk result (λ frame. frame.table.now ≡ table.now) }
    {
        let verticals = vertical_lines(alloc, table)?;
        let characters = vertical_characters(alloc, table, &verticals)?;
        let config = table.config();
        Ok(Frame {
            table,
            config,
            shape: table.shape(),
            height: table.height(),
            looks: Looks::new(config),
            verticals,
            characters,
        })
    }

    /// The owner of a position, by the cells that cover the columns of the row above, and of its own row before it.
    fn owner<T: Cell>(&self, slots: &[Slot<'a, T>], position: Position) -> Position
        requires { position.col < length slots.now }
        ensures { (texts : Texts) → let d = drawing_of self.now.table.now texts in
            AreSlotsSet d position.row position.col slots.now →
            position.row < d.shape.0 → position.col < d.shape.1 →
            owner_at d position.row position.col ≡ Some result }
    {
        let above = slots[position.col].owner;
        if self.reaches_row(above, position.row) {
            return above;
        }
        if position.col == 0 {
            return position;
        }
        let left = slots[position.col - 1].owner;
        if self.reaches_column(left, position) {
            return left;
        }
        position
    }

    /// Whether a cell that begins above a row reaches it.
    fn reaches_row(&self, above: Position, row: usize) -> bool
        ensures { IsTrue result ↔ ((above.row < row)
            × (row - above.row < (spanned_grid self.now.config.now).span Rows above)) }
    {
        above.row < row && row - above.row < self.config.span(Direction::Rows, above)
    }

    /// Whether a cell that begins in the row of a position, left of it, reaches it.
    fn reaches_column(&self, left: Position, position: Position) -> bool
        ensures { IsTrue result ↔ ((left.row ≡ position.row) × (left.col < position.col)
            × (position.col - left.col
            < (spanned_grid self.now.config.now).span Columns left)) }
    {
        left.row == position.row
            && left.col < position.col
            && position.col - left.col < self.config.span(Direction::Columns, left)
    }

    /// Takes the cell at a position of a row, with the colour of its text; none where the records have no cell there. The
    /// columns are taken from left to right, the rows from the top.
    pub fn set<T: Cell + Drop>(
        &self,
        slots: &mut [Slot<'a, T>],
        position: Position,
        cell: Option<T>,
        color: Option<ANSIStr<'a>>,
    )
        requires { position.col < length slots.old }
        ensures { (texts : Texts) → let d = drawing_of self.now.table.now texts in
            AreSlotsSet d position.row position.col slots.old →
            position.row < d.shape.0 → position.col < d.shape.1 →
            texts.lines position ≡ lines_of T.lines cell →
            texts.color position ≡ option_map texts_of color.entry →
            AreSlotsSet d position.row (position.col + 1) slots.new }
    {
        let owner = self.owner(slots, position);
        if owner.row < position.row {
            return;
        }
        let block = if owner.col == position.col {
            self.block(position, cell, color)
        } else {
            None
        };
        slots[position.col] = Slot {
            owner,
            block,
            drawn: 0,
        };
    }

    /// The block of the cell at a position, if that ends within the table.
    pub fn block<T: Cell + Drop>(
        &self,
        position: Position,
        cell: Option<T>,
        color: Option<ANSIStr<'a>>,
    ) -> Option<Block<'a, T>>
        ensures { (texts : Texts) → let d = drawing_of self.now.table.now texts in
            IsInsideTable (layout_of d) position →
            texts.lines position ≡ lines_of T.lines cell →
            texts.color position ≡ option_map texts_of color.entry →
            result ≡ Some (block_at d position) }
    {
        let place = self.table.rectangle(position)?;
        let look = self.looks.get(self.config, position);
        Some(Block::new(look, cell, color, place.width, place.height))
    }

    /// Adds what stands in a column of line k of a row: the cell that begins there, after the line before it.
    fn push_column<T: Cell>(
        &self,
        slot: &mut Slot<'a, T>,
        position: Position,
        height: usize,
        k: usize,
        line: &mut String,
    ) -> Result<(), AllocError>
        requires { (position.col < self.now.shape.1) × (slot.old.drawn < self.now.height) }
        ensures { OnOk result ((texts : Texts) → let d = drawing_of self.now.table.now texts in
            height ≡ d.heights position.row →
            IsSlot d position.row position.col (text_start d position.row + k) slot.old →
            (string_bytes line.new ≡ string_bytes line.old
            ++ pieces_bytes (column_pieces d position.row k position.col))
            × IsSlot d position.row position.col (text_start d position.row + (k + 1)) slot.new) }
    {
        let drawn = slot.drawn;
        slot.drawn += 1;
        let Some(block) = &slot.block else {
            return Ok(());
        };
        self.push_line_before(position, height, k, line)?;
        block.push_line(drawn, line)
    }

    /// Adds the character of the vertical line before a column, if there is one.
    #[inline(always)]
    pub fn push_line_before(
        &self,
        position: Position,
        height: usize,
        k: usize,
        line: &mut String,
    ) -> Result<(), AllocError>
        requires { position.col ≤ self.now.shape.1 }
        ensures { OnOk result ((texts : Texts) → let d = drawing_of self.now.table.now texts in
            height ≡ d.heights position.row → string_bytes line.new ≡ string_bytes line.old
            ++ pieces_bytes (vertical_pieces d position.row position.col k)) }
    {
        if let Some(common) = self.characters.get(position.col) {
            return push_character(line, *common);
        }
        if !self.verticals[position.col] {
            return Ok(());
        }
        push_vertical(line, self.config, position, self.shape, height, k)
    }

    /// Adds line k of a row.
    pub fn push_text_line<T: Cell>(
        &self,
        slots: &mut [Slot<'a, T>],
        row: usize,
        k: usize,
        line: &mut String,
    ) -> Result<(), AllocError>
        requires { (texts : Texts) × let d = drawing_of self.now.table.now texts in
            (row < d.shape.0) × (k < d.heights row)
            × AreSlots d row (λ _. text_start d row + k) slots.old }
        ensures { OnOk result ((texts : Texts) → let d = drawing_of self.now.table.now texts in
            AreSlots d row (λ _. text_start d row + k) slots.old →
            (string_bytes line.new ≡ string_bytes line.old ++ pieces_bytes (text_line d row k))
            × AreSlots d row (λ _. text_start d row + (k + 1)) slots.new) }
    {
        let height = self.table.get_height(row);
        for col in 0..self.shape.1 {
            self.push_column(&mut slots[col], Position { row, col }, height, k, line)?;
        }
        let col = self.shape.1;
        self.push_line_before(Position { row, col }, height, k, line)
    }

    /// Whether the cell that covers a column of a row stands over the line before the row.
    fn is_over(&self, owner: Position, row: usize) -> bool
        ensures { result ≡ (nat_lt 0 row
            && (nat_lt row self.now.shape.0 && nat_lt owner.row row)) }
    {
        0 < row && row < self.shape.0 && owner.row < row
    }

    /// Adds the crossing at a position of the line before a row, if one is seen there.
    fn push_crossing(
        &self,
        rule: &mut Rule<'a>,
        owner: Position,
        position: Position,
        line: &mut String,
    ) -> Result<(), AllocError>
        requires { position.col < self.now.shape.1 }
        ensures { OnOk result ((texts : Texts) → let d = drawing_of self.now.table.now texts in
            (position.row < d.shape.0 →
            owner_at d position.row position.col ≡ Some owner) →
            AddsStretches (option_copied rule.old.used) (option_copied rule.new.used)
            (string_bytes line.old) (string_bytes line.new)
            (crossing_stretch d position.row position.col)) }
    {
        let hidden = self.is_over(owner, position.row) && owner.col < position.col;
        if !self.verticals[position.col] || hidden {
            return Ok(());
        }
        rule.push_crossing(self.config, position, self.shape, line)
    }

    /// Adds the line of a cell that stands over the line before a row, if it begins in this column.
    fn push_cell_over<T: Cell>(
        &self,
        rule: &mut Rule<'a>,
        slot: &mut Slot<'a, T>,
        line: &mut String,
    ) -> Result<(), AllocError>
        requires { slot.old.drawn < self.now.height }
        ensures adds { OnOk result (AddsStretches (option_copied rule.old.used)
            (option_copied rule.new.used) (string_bytes line.old) (string_bytes line.new)
            (stretches_over slot.old.block slot.old.drawn)) }
        ensures kept { OnOk result (slot.new ≡
            record slot.old { drawn = slot.old.drawn + 1 }) }
    {
        let drawn = slot.drawn;
        slot.drawn += 1;
        let Some(block) = &slot.block else {
            return Ok(());
        };
        rule.end(line)?;
        block.push_line(drawn, line)
    }

    /// Adds what stands in a column of the line before a row: the line of a cell that stands over it, or the line.
    fn push_stretch<T: Cell>(
        &self,
        rule: &mut Rule<'a>,
        slot: &mut Slot<'a, T>,
        position: Position,
        line: &mut String,
    ) -> Result<(), AllocError>
        requires { (texts : Texts)
            × IsBeforeRule (drawing_of self.now.table.now texts) position slot.old }
        ensures adds { OnOk result ((texts : Texts) →
            let d = drawing_of self.now.table.now texts in
            (position.row < d.shape.0 →
            IsSlot d position.row position.col (row_start d position.row) slot.old) →
            AddsStretches (option_copied rule.old.used) (option_copied rule.new.used)
            (string_bytes line.old) (string_bytes line.new)
            (column_stretch d position.row position.col)) }
        ensures kept { OnOk result ((texts : Texts) →
            let d = drawing_of self.now.table.now texts in
            position.row < d.shape.0 → draws_horizontal d position.row ≡ true →
            IsSlot d position.row position.col (row_start d position.row) slot.old →
            IsSlot d position.row position.col (text_start d position.row) slot.new) }
    {
        if self.is_over(slot.owner, position.row) {
            return self.push_cell_over(rule, slot, line);
        }
        let width = self.table.get_width(position.col);
        rule.push_segment(self.config, position, self.shape, width, line)
    }

    /// Adds the crossing at a position of the line before a row, if one is seen there, and what stands in the column.
    fn push_rule_column<T: Cell>(
        &self,
        rule: &mut Rule<'a>,
        slot: &mut Slot<'a, T>,
        position: Position,
        line: &mut String,
    ) -> Result<(), AllocError>
        requires { (texts : Texts)
            × IsBeforeRule (drawing_of self.now.table.now texts) position slot.old }
        ensures adds { OnOk result ((texts : Texts) →
            let d = drawing_of self.now.table.now texts in
            (position.row < d.shape.0 →
            IsSlot d position.row position.col (row_start d position.row) slot.old) →
            AddsStretches (option_copied rule.old.used) (option_copied rule.new.used)
            (string_bytes line.old) (string_bytes line.new)
            (crossing_stretch d position.row position.col
            ++ column_stretch d position.row position.col)) }
        ensures kept { OnOk result ((texts : Texts) →
            let d = drawing_of self.now.table.now texts in
            position.row < d.shape.0 → draws_horizontal d position.row ≡ true →
            IsSlot d position.row position.col (row_start d position.row) slot.old →
            IsSlot d position.row position.col (text_start d position.row) slot.new) }
    {
        self.push_crossing(rule, slot.owner, position, line)?;
        self.push_stretch(rule, slot, position, line)
    }

    /// Adds the horizontal line before a row, whose cells are set, or after the last.
    pub fn push_rule_line<T: Cell>(
        &self,
        slots: &mut [Slot<'a, T>],
        row: usize,
        line: &mut String,
    ) -> Result<(), AllocError>
        requires { (texts : Texts) × let d = drawing_of self.now.table.now texts in
            (length slots.old ≡ d.shape.1) × (draws_horizontal d row ≡ true)
            × (row < d.shape.0 → AreSlots d row (λ _. row_start d row) slots.old) }
        ensures bytes { OnOk result ((texts : Texts) →
            let d = drawing_of self.now.table.now texts in
            row ≤ d.shape.0 →
            (row < d.shape.0 → AreSlots d row (λ _. row_start d row) slots.old) →
            string_bytes line.new ≡ string_bytes line.old ++ rule_bytes (rule_line d row)) }
        ensures kept { OnOk result ((texts : Texts) →
            let d = drawing_of self.now.table.now texts in
            row < d.shape.0 → draws_horizontal d row ≡ true →
            AreSlots d row (λ _. row_start d row) slots.old →
            AreSlots d row (λ _. text_start d row) slots.new) }
    {
        let mut rule = Rule::new();
        for col in 0..self.shape.1 {
            self.push_rule_column(&mut rule, &mut slots[col], Position { row, col }, line)?;
        }
        let col = self.shape.1;
        if self.verticals[col] {
            rule.push_crossing(self.config, Position { row, col }, self.shape, line)?;
        }
        rule.end(line)
    }
}
