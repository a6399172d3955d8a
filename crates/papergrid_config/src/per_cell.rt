//! What is set by entity and asked for by position. Source: `config/spanned/mod.rs`.

ghost use Rattle.std.specs.Prelude.{◌≡◌, ◌≢◌, false, None, AllPairs, IfOk, OnOk, OnErr, IsOk, option_copied};
ghost use Rattle.papergrid_values.specs.Compact.{all_sides, spaces};
ghost use Rattle.papergrid_values.specs.declared.alignment.AlignmentHorizontal.TheVariants.{Left};
ghost use Rattle.papergrid_values.specs.declared.alignment.AlignmentVertical.TheVariants.{Top};
ghost use Rattle.papergrid_values.specs.declared.entity.Entity.{Entity};
ghost use Rattle.papergrid_maps.specs.Listed.{AreSetCells};
ghost use Rattle.papergrid_maps.specs.StoredMap.{held_for, stored_value};
ghost use Rattle.papergrid_config.specs.History.{AddsSetting, IsEffectiveAt};
ghost use Rattle.papergrid_config.specs.Parts.{alignment_horizontal_calls, alignment_vertical_calls, justification_calls, justification_color_calls, line_alignment_calls, padding_calls, padding_color_calls, trim_horizontal_calls, trim_vertical_calls};
ghost use Rattle.papergrid_config.specs.declared.setting.Setting.TheVariants.{SetPadding, SetPaddingColor, SetTrimHorizontal, SetTrimVertical, SetLineAlignment, SetAlignmentHorizontal, SetAlignmentVertical, SetJustification, SetJustificationColor};

use crate::spanned::SpannedConfig;
use papergrid_values::{
    ANSIBuf, AlignmentHorizontal, AlignmentVertical, Entity, Formatting, Indent, Position, Sides,
};
use std::alloc::AllocError;

// Each value is set for an entity: for the whole table, a column, a row or a cell. Of a cell the
// value is the one that the settings decide, as `EntityMap` has it.
impl SpannedConfig {
    /// Sets the room round an entity's cells, in columns of a terminal (left, right) and lines
    /// (top, bottom). Where an allocation fails the configuration is as it was; a value for the
    /// whole table is never refused.
    pub fn set_padding(&mut self, entity: Entity, padding: Sides<Indent>) -> Result<(), AllocError>
        ensures ok { OnOk result (AddsSetting self.old self.new (SetPadding entity padding)) }
        ensures err { OnErr result (self.new ≡ self.old) }
        ensures global { entity ≡ Entity.Global → IsOk result }
        ensures others { self.new ≡ record self.old { padding = self.new.padding } }
    {
        self.padding.insert(entity, padding)
    }

    /// The room round a cell, in columns of a terminal (left, right) and lines (top, bottom).
    pub fn get_padding(&self, position: Position) -> &Sides<Indent>
        ensures stored { result.now ≡ stored_value self.now.padding position }
        ensures effective { IsEffectiveAt self.now position
            (all_sides (spaces 0)) padding_calls result.now }
    {
        self.padding.get(position)
    }

    /// The room that is set for an entity itself: of a cell without that of its column and of its row.
    #[inline(always)]
    pub fn held_padding(&self, entity: Entity) -> Option<&Sides<Indent>>
        ensures { option_copied result ≡ held_for self.now.padding entity }
    {
        self.padding.held_for(entity)
    }

    /// The cells with room of their own, each once, in no order, or out of memory.
    pub fn padded_cells(&self) -> Result<Vec<Position>, AllocError>
        ensures stored { IfOk result
            (λ cells. AreSetCells (held_for self.now.padding) cells.items) }
        ensures once { IfOk result (λ cells. AllPairs (λ p q. p ≢ q) cells.items) }
    {
        self.padding.held_cells()
    }

    /// Sets the colours of the room round an entity's cells. Where an allocation fails
    /// the configuration is as it was; a value for the whole table is never refused.
    pub fn set_padding_color(
        &mut self,
        entity: Entity,
        colors: Sides<Option<ANSIBuf>>,
    ) -> Result<(), AllocError>
        ensures ok { OnOk result (AddsSetting self.old self.new (SetPaddingColor entity colors)) }
        ensures err { OnErr result (self.new ≡ self.old) }
        ensures global { entity ≡ Entity.Global → IsOk result }
        ensures others { self.new ≡ record self.old { padding_color = self.new.padding_color } }
    {
        self.padding_color.insert(entity, colors)
    }

    /// The colours of the room round a cell.
    pub fn get_padding_color(&self, position: Position) -> &Sides<Option<ANSIBuf>>
        ensures stored { result.now ≡ stored_value self.now.padding_color position }
        ensures effective { IsEffectiveAt self.now position
            (all_sides None) padding_color_calls result.now }
    {
        self.padding_color.get(position)
    }

    /// Sets whether spaces of an entity's texts are trimmed left and right. Where an allocation
    /// fails the configuration is as it was; a value for the whole table is never refused.
    pub fn set_trim_horizontal(&mut self, entity: Entity, on: bool) -> Result<(), AllocError>
        ensures ok { OnOk result (AddsSetting self.old self.new (SetTrimHorizontal entity on)) }
        ensures err { OnErr result (self.new ≡ self.old) }
        ensures global { entity ≡ Entity.Global → IsOk result }
        ensures others { self.new ≡ record self.old { trim_horizontal = self.new.trim_horizontal } }
    {
        self.trim_horizontal.insert(entity, on)
    }

    /// Whether spaces of a cell's text are trimmed left and right. The name is the original's.
    pub fn get_trim_horizonal(&self, position: Position) -> bool
        ensures stored { result ≡ stored_value self.now.trim_horizontal position }
        ensures effective { IsEffectiveAt self.now position false trim_horizontal_calls result }
    {
        *self.trim_horizontal.get(position)
    }

    /// Sets whether blank lines of an entity's texts are trimmed at the top and the bottom. Where
    /// an allocation fails the configuration is as it was; a value for the whole table is never
    /// refused.
    pub fn set_trim_vertical(&mut self, entity: Entity, on: bool) -> Result<(), AllocError>
        ensures ok { OnOk result (AddsSetting self.old self.new (SetTrimVertical entity on)) }
        ensures err { OnErr result (self.new ≡ self.old) }
        ensures global { entity ≡ Entity.Global → IsOk result }
        ensures others { self.new ≡ record self.old { trim_vertical = self.new.trim_vertical } }
    {
        self.trim_vertical.insert(entity, on)
    }

    /// Whether blank lines of a cell's text are trimmed at the top and the bottom.
    pub fn get_trim_vertical(&self, position: Position) -> bool
        ensures stored { result ≡ stored_value self.now.trim_vertical position }
        ensures effective { IsEffectiveAt self.now position false trim_vertical_calls result }
    {
        *self.trim_vertical.get(position)
    }

    /// Sets whether each line of an entity's texts is aligned by itself. Where an allocation
    /// fails the configuration is as it was; a value for the whole table is never refused.
    pub fn set_line_alignment(&mut self, entity: Entity, on: bool) -> Result<(), AllocError>
        ensures ok { OnOk result (AddsSetting self.old self.new (SetLineAlignment entity on)) }
        ensures err { OnErr result (self.new ≡ self.old) }
        ensures global { entity ≡ Entity.Global → IsOk result }
        ensures others { self.new ≡ record self.old { line_alignment = self.new.line_alignment } }
    {
        self.line_alignment.insert(entity, on)
    }

    /// Whether each line of a cell's text is aligned by itself.
    pub fn get_line_alignment(&self, position: Position) -> bool
        ensures stored { result ≡ stored_value self.now.line_alignment position }
        ensures effective { IsEffectiveAt self.now position false line_alignment_calls result }
    {
        *self.line_alignment.get(position)
    }

    /// The three flags of a cell's text.
    pub fn get_formatting(&self, position: Position) -> Formatting
        ensures stored { result ≡ record {
          horizontal_trim = stored_value self.now.trim_horizontal position;
          vertical_trim = stored_value self.now.trim_vertical position;
          allow_lines_alignment = stored_value self.now.line_alignment position;
        } }
        ensures horizontal_trim { IsEffectiveAt self.now position
            false trim_horizontal_calls result.horizontal_trim }
        ensures vertical_trim { IsEffectiveAt self.now position
            false trim_vertical_calls result.vertical_trim }
        ensures line_alignment { IsEffectiveAt self.now position
            false line_alignment_calls result.allow_lines_alignment }
    {
        Formatting::new(
            self.get_trim_horizonal(position),
            self.get_trim_vertical(position),
            self.get_line_alignment(position),
        )
    }

    /// Sets where an entity's texts stand between left and right. Where an allocation fails
    /// the configuration is as it was; a value for the whole table is never refused.
    pub fn set_alignment_horizontal(
        &mut self,
        entity: Entity,
        alignment: AlignmentHorizontal,
    ) -> Result<(), AllocError>
        ensures ok { OnOk result
            (AddsSetting self.old self.new (SetAlignmentHorizontal entity alignment)) }
        ensures err { OnErr result (self.new ≡ self.old) }
        ensures global { entity ≡ Entity.Global → IsOk result }
        ensures others { self.new ≡
            record self.old { alignment_horizontal = self.new.alignment_horizontal } }
    {
        self.alignment_horizontal.insert(entity, alignment)
    }

    /// Where a cell's text stands between left and right.
    pub fn get_alignment_horizontal(&self, position: Position) -> &AlignmentHorizontal
        ensures stored { result.now ≡ stored_value self.now.alignment_horizontal position }
        ensures effective { IsEffectiveAt self.now position
            Left alignment_horizontal_calls result.now }
    {
        self.alignment_horizontal.get(position)
    }

    /// Sets where an entity's texts stand between top and bottom. Where an allocation fails
    /// the configuration is as it was; a value for the whole table is never refused.
    pub fn set_alignment_vertical(
        &mut self,
        entity: Entity,
        alignment: AlignmentVertical,
    ) -> Result<(), AllocError>
        ensures ok { OnOk result (AddsSetting self.old self.new
            (SetAlignmentVertical entity alignment)) }
        ensures err { OnErr result (self.new ≡ self.old) }
        ensures global { entity ≡ Entity.Global → IsOk result }
        ensures others { self.new ≡
            record self.old { alignment_vertical = self.new.alignment_vertical } }
    {
        self.alignment_vertical.insert(entity, alignment)
    }

    /// Where a cell's text stands between top and bottom.
    pub fn get_alignment_vertical(&self, position: Position) -> &AlignmentVertical
        ensures stored { result.now ≡ stored_value self.now.alignment_vertical position }
        ensures effective { IsEffectiveAt self.now position
            Top alignment_vertical_calls result.now }
    {
        self.alignment_vertical.get(position)
    }

    /// Sets the character that fills up the lines of an entity's texts. Where an allocation fails
    /// the configuration is as it was; a value for the whole table is never refused.
    pub fn set_justification(&mut self, entity: Entity, character: char) -> Result<(), AllocError>
        ensures ok { OnOk result (AddsSetting self.old self.new
            (SetJustification entity character)) }
        ensures err { OnErr result (self.new ≡ self.old) }
        ensures global { entity ≡ Entity.Global → IsOk result }
        ensures others { self.new ≡ record self.old { justification = self.new.justification } }
    {
        self.justification.insert(entity, character)
    }

    /// The character that fills up the lines of a cell's text.
    pub fn get_justification(&self, position: Position) -> char
        ensures stored { result ≡ stored_value self.now.justification position }
        ensures effective { IsEffectiveAt self.now position 32 justification_calls result }
    {
        *self.justification.get(position)
    }

    /// Sets the colour of that character. Where an allocation fails the configuration is as it was;
    /// a value for the whole table is never refused.
    pub fn set_justification_color(
        &mut self,
        entity: Entity,
        color: Option<ANSIBuf>,
    ) -> Result<(), AllocError>
        ensures ok { OnOk result (AddsSetting self.old self.new
            (SetJustificationColor entity color)) }
        ensures err { OnErr result (self.new ≡ self.old) }
        ensures global { entity ≡ Entity.Global → IsOk result }
        ensures others { self.new ≡
            record self.old { justification_color = self.new.justification_color } }
    {
        self.justification_color.insert(entity, color)
    }

    /// The colour of that character.
    pub fn get_justification_color(&self, position: Position) -> Option<&ANSIBuf>
        ensures stored { option_copied result ≡ stored_value self.now.justification_color position }
        ensures effective { IsEffectiveAt self.now position
            None justification_color_calls (option_copied result) }
    {
        self.justification_color.get(position).as_ref()
    }
}
