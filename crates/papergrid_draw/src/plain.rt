//! Tables whose cells span nothing, and whose lines have no part, colour or character of a single cell: each position has a
//! cell of its own, and the lines between rows are made once.

ghost use Rattle.std.specs.Prelude.{◌≡◌, ◌↔◌, ◌+◌, ◌++◌, ◌<◌, ◌≤◌, IfOk, IsTrue, OnOk, length, option_copied, slice_index, string_bytes};
ghost use Rattle.papergrid_draw.specs.Bytes.{pieces_bytes, rule_bytes};
ghost use Rattle.papergrid_draw.specs.Contents.{block_at, content};
ghost use Rattle.papergrid_draw.specs.Drawn.{crossing_stretch, rule_line, text_line};
ghost use Rattle.papergrid_draw.specs.ForProofs.FilledFrames.{filled, filled_table};
ghost use Rattle.papergrid_draw.specs.ForProofs.Pages.{AreSlots, Texts, drawing_of, text_start};
ghost use Rattle.papergrid_draw.specs.ForProofs.Pens.{AddsStretches};
ghost use Rattle.papergrid_draw.specs.ForProofs.Plain.{HasCommonRule, IsCommonRule, IsPlain};

use crate::block::push_only_line;
use crate::characters::Rule;
use crate::filled_frame::FilledFrame;
use crate::page::{Frame, Slot};
use crate::source::Cells;
use papergrid_config::SpannedConfig;
use papergrid_layout::Dimension;
use papergrid_values::Position;
use std::alloc::{AllocError, Global};

/// Whether cells span nothing, and lines have no part, colour or character of a single cell.
pub fn is_plain(config: &SpannedConfig) -> bool
    ensures { IsTrue result ↔ IsPlain config.now }
{
    let columns = config.has_column_spans();
    let rows = config.has_row_spans();
    let lines = config.has_common_lines();
    !columns && (!rows && lines)
}

/// Adds the horizontal line before a row, or after the last; and takes the bytes of those between rows that have no line of
/// their own, once one was drawn.
pub fn push_plain_rule_line(
    alloc: Global,
    frame: &Frame<'_>,
    common: &mut Option<String>,
    row: usize,
    line: &mut String,
) -> Result<(), AllocError>
    requires plain { IsPlain frame.now.table.now.config }
    requires common { HasCommonRule frame.now.table.now common.old }
    requires row_in { row ≤ length frame.now.table.now.heights }
    ensures bytes { OnOk result ((texts : Texts) →
        string_bytes line.new ≡ string_bytes line.old
        ++ rule_bytes (rule_line (drawing_of frame.now.table.now texts) row)) }
    ensures common { OnOk result (HasCommonRule frame.now.table.now common.new) }
{
    if !is_common_rule(frame, row) {
        return push_own_rule(frame, row, line);
    }
    if let Some(rule) = &*common {
        return line.push_str(rule.as_str());
    }
    let mut rule = String::new(alloc);
    push_own_rule(frame, row, &mut rule)?;
    line.push_str(rule.as_str())?;
    *common = Some(rule);
    Ok(())
}

/// Whether a row has a line before it that stands between two rows, and has none of its own set.
fn is_common_rule(frame: &Frame<'_>, row: usize) -> bool
    ensures { (texts : Texts) →
        IsTrue result ↔ IsCommonRule (drawing_of frame.now.table.now texts) row }
{
    0 < row && row < frame.shape.0 && frame.config.get_horizontal_line(row).is_none()
}

/// Adds the horizontal line before a row, or after the last, as it is set.
fn push_own_rule(frame: &Frame<'_>, row: usize, line: &mut String) -> Result<(), AllocError>
    requires plain { IsPlain frame.now.table.now.config }
    requires row_in { row ≤ length frame.now.table.now.heights }
    ensures { OnOk result ((texts : Texts) →
        string_bytes line.new ≡ string_bytes line.old
        ++ rule_bytes (rule_line (drawing_of frame.now.table.now texts) row)) }
{
    let mut rule = Rule::new();
    for col in 0..frame.shape.1 {
        let position = Position { row, col };
        push_plain_crossing(frame, &mut rule, position, line)?;
        let width = frame.table.get_width(col);
        rule.push_segment(frame.config, position, frame.shape, width, line)?;
    }
    let col = frame.shape.1;
    push_plain_crossing(frame, &mut rule, Position { row, col }, line)?;
    rule.end(line)
}

/// Adds the crossing at a position of the line before a row, if there is one.
fn push_plain_crossing<'a>(
    frame: &Frame<'a>,
    rule: &mut Rule<'a>,
    position: Position,
    line: &mut String,
) -> Result<(), AllocError>
    requires plain { IsPlain frame.now.table.now.config }
    requires col_in { position.col ≤ length frame.now.table.now.widths }
    ensures { OnOk result ((texts : Texts) →
        AddsStretches (option_copied rule.old.used) (option_copied rule.new.used)
        (string_bytes line.old) (string_bytes line.new)
        (crossing_stretch (drawing_of frame.now.table.now texts) position.row position.col)) }
{
    if !frame.verticals[position.col] {
        return Ok(());
    }
    rule.push_crossing(frame.config, position, frame.shape, line)
}

impl<'a, S: Cells> FilledFrame<'a, S>
where
    S::Cell: Drop,
{
    /// Adds the text line of a row that is one line high.
    pub fn push_plain_text_line(&self, row: usize, line: &mut String) -> Result<(), AllocError>
        requires plain { IsPlain (filled_table self.now).config }
        requires row_in { row < length (filled_table self.now).heights }
        requires low { slice_index (filled_table self.now).heights row ≡ 1 }
        ensures { OnOk result (string_bytes line.new ≡ string_bytes line.old
            ++ pieces_bytes (text_line (filled S.lines S.color self.now) row 0)) }
    {
        let frame = self.frame;
        for col in 0..frame.shape.1 {
            let position = Position { row, col };
            frame.push_line_before(position, 1, 0, line)?;
            self.push_cell(position, line)?;
        }
        let col = frame.shape.1;
        frame.push_line_before(Position { row, col }, 1, 0, line)
    }

    /// Adds the cell at a position of a row that is one line high.
    fn push_cell(&self, position: Position, line: &mut String) -> Result<(), AllocError>
        requires plain { IsPlain (filled_table self.now).config }
        requires row_in { position.row < length (filled_table self.now).heights }
        requires col_in { position.col < length (filled_table self.now).widths }
        requires low { slice_index (filled_table self.now).heights position.row ≡ 1 }
        ensures { OnOk result (string_bytes line.new ≡ string_bytes line.old
            ++ pieces_bytes (content (block_at (filled S.lines S.color self.now) position) 0)) }
    {
        let (frame, cells) = (self.frame, self.cells);
        let width = frame.table.get_width(position.col);
        if let Some(blanks) = &frame.looks.blanks {
            if let (None, Some((text, own))) = (cells.color(position), cells.line(position)) {
                let horizontal = frame.looks.horizontal(frame.config, position);
                return blanks.push(horizontal, text, own, width, line);
            }
        }
        let cell = cells.cell(position)?;
        let look = frame.looks.get(frame.config, position);
        push_only_line(look, cell, cells.color(position), width, line)
    }

    /// The cells of a row, before its first text line.
    pub fn plain_slots(&self, row: usize) -> Result<Vec<Slot<'a, S::Cell>>, AllocError>
        requires plain { IsPlain (filled_table self.now).config }
        requires row_in { row < length (filled_table self.now).heights }
        ensures { let d = filled S.lines S.color self.now in
            IfOk result (λ slots. AreSlots d row (λ _. text_start d row) slots.items) }
    {
        let mut slots = Vec::new(self.alloc);
        for col in 0..self.frame.shape.1 {
            let owner = Position { row, col };
            let cell = self.cells.cell(owner)?;
            let block = self.frame.block(owner, cell, self.cells.color(owner));
            slots.push(Slot {
                owner,
                block,
                drawn: 0,
            })?;
        }
        Ok(slots)
    }
}
