//! Characters and colours at offsets along the lines of single cells. Source:
//! `config/spanned/mod.rs`.

ghost use Rattle.std.specs.Prelude.{◌≡◌, ◌↔◌, OnOk, OnErr, IsTrue, option_copied};
ghost use Rattle.papergrid_tables.specs.Overrides.{IsOverridden, found_override, override_at};
ghost use Rattle.papergrid_config.specs.History.{AddsSetting};
ghost use Rattle.papergrid_config.specs.declared.setting.Setting.TheVariants.{SetHorizontalChar, RemoveOverriddenHorizontal, RemoveHorizontalChars, SetHorizontalCharColor, RemoveColorLineHorizontal, SetVerticalChar, RemoveOverriddenVertical, RemoveVerticalChars, SetVerticalCharColor, RemoveColorLineVertical};

use crate::spanned::SpannedConfig;
use papergrid_values::{ANSIBuf, Offset, Position};
use std::alloc::AllocError;

// A horizontal line of a cell is the one above it, its vertical line the one left of it. Offsets
// count from the start of the line or back from its end.
impl SpannedConfig {
    /// Sets the character at an offset of the line above a cell, in columns of a terminal. Where
    /// an allocation fails the configuration is as it was.
    pub fn set_horizontal_char(
        &mut self,
        position: Position,
        offset: Offset,
        character: char,
    ) -> Result<(), AllocError>
        ensures ok { OnOk result (AddsSetting self.old self.new
            (SetHorizontalChar position offset character)) }
        ensures err { OnErr result (self.new ≡ self.old) }
        ensures others { self.new ≡
            record self.old { horizontal_chars = self.new.horizontal_chars } }
    {
        self.horizontal_chars.set(position, offset, character)
    }

    /// The character set at an offset of the line above a cell, where the line is so long, both in
    /// columns of a terminal.
    pub fn lookup_horizontal_char(
        &self,
        position: Position,
        offset: usize,
        end: usize,
    ) -> Option<char>
        ensures { result
            ≡ found_override (override_at self.now.horizontal_chars position) offset end }
    {
        self.horizontal_chars.lookup(position, offset, end).copied()
    }

    /// Whether a character is set on the line above a cell.
    pub fn is_overridden_horizontal(&self, position: Position) -> bool
        ensures { IsTrue result ↔ IsOverridden self.now.horizontal_chars position }
    {
        self.horizontal_chars.is_overridden(position)
    }

    /// Removes the characters set on the line above a cell.
    pub fn remove_overridden_horizontal(&mut self, position: Position)
        ensures told { AddsSetting self.old self.new (RemoveOverriddenHorizontal position) }
        ensures others { self.new ≡
            record self.old { horizontal_chars = self.new.horizontal_chars } }
    {
        self.horizontal_chars.remove(position);
    }

    /// Removes the characters set on the lines above cells.
    pub fn remove_horizontal_chars(&mut self)
        ensures told { AddsSetting self.old self.new RemoveHorizontalChars }
        ensures others { self.new ≡
            record self.old { horizontal_chars = self.new.horizontal_chars } }
    {
        self.horizontal_chars.clear();
    }

    /// Sets the colour at an offset of the line above a cell, in columns of a terminal. Where an
    /// allocation fails the configuration is as it was.
    pub fn set_horizontal_char_color(
        &mut self,
        position: Position,
        offset: Offset,
        color: ANSIBuf,
    ) -> Result<(), AllocError>
        ensures ok { OnOk result
            (AddsSetting self.old self.new (SetHorizontalCharColor position offset color)) }
        ensures err { OnErr result (self.new ≡ self.old) }
        ensures others { self.new ≡
            record self.old { horizontal_colors = self.new.horizontal_colors } }
    {
        self.horizontal_colors.set(position, offset, color)
    }

    /// The colour set at an offset of the line above a cell, where the line is so long, both in
    /// columns of a terminal.
    pub fn lookup_horizontal_color(
        &self,
        position: Position,
        offset: usize,
        end: usize,
    ) -> Option<&ANSIBuf>
        ensures { option_copied result
            ≡ found_override (override_at self.now.horizontal_colors position) offset end }
    {
        self.horizontal_colors.lookup(position, offset, end)
    }

    /// Removes the colours set on the lines above cells.
    pub fn remove_color_line_horizontal(&mut self)
        ensures told { AddsSetting self.old self.new RemoveColorLineHorizontal }
        ensures others { self.new ≡
            record self.old { horizontal_colors = self.new.horizontal_colors } }
    {
        self.horizontal_colors.clear();
    }

    /// Sets the character at an offset of the line left of a cell, in lines. Where an allocation
    /// fails the configuration is as it was.
    pub fn set_vertical_char(
        &mut self,
        position: Position,
        offset: Offset,
        character: char,
    ) -> Result<(), AllocError>
        ensures ok { OnOk result (AddsSetting self.old self.new
            (SetVerticalChar position offset character)) }
        ensures err { OnErr result (self.new ≡ self.old) }
        ensures others { self.new ≡ record self.old { vertical_chars = self.new.vertical_chars } }
    {
        self.vertical_chars.set(position, offset, character)
    }

    /// The character set at an offset of the line left of a cell, where the line is so long, both in
    /// lines.
    pub fn lookup_vertical_char(
        &self,
        position: Position,
        offset: usize,
        end: usize,
    ) -> Option<char>
        ensures { result
            ≡ found_override (override_at self.now.vertical_chars position) offset end }
    {
        self.vertical_chars.lookup(position, offset, end).copied()
    }

    /// Whether a character is set on the line left of a cell.
    pub fn is_overridden_vertical(&self, position: Position) -> bool
        ensures { IsTrue result ↔ IsOverridden self.now.vertical_chars position }
    {
        self.vertical_chars.is_overridden(position)
    }

    /// Removes the characters set on the line left of a cell.
    pub fn remove_overridden_vertical(&mut self, position: Position)
        ensures told { AddsSetting self.old self.new (RemoveOverriddenVertical position) }
        ensures others { self.new ≡ record self.old { vertical_chars = self.new.vertical_chars } }
    {
        self.vertical_chars.remove(position);
    }

    /// Removes the characters set on the lines left of cells.
    pub fn remove_vertical_chars(&mut self)
        ensures told { AddsSetting self.old self.new RemoveVerticalChars }
        ensures others { self.new ≡ record self.old { vertical_chars = self.new.vertical_chars } }
    {
        self.vertical_chars.clear();
    }

    /// Sets the colour at an offset of the line left of a cell, in lines. Where an allocation fails
    /// the configuration is as it was.
    pub fn set_vertical_char_color(
        &mut self,
        position: Position,
        offset: Offset,
        color: ANSIBuf,
    ) -> Result<(), AllocError>
        ensures ok { OnOk result (AddsSetting self.old self.new
            (SetVerticalCharColor position offset color)) }
        ensures err { OnErr result (self.new ≡ self.old) }
        ensures others { self.new ≡ record self.old { vertical_colors = self.new.vertical_colors } }
    {
        self.vertical_colors.set(position, offset, color)
    }

    /// The colour set at an offset of the line left of a cell, where the line is so long, both in
    /// lines.
    pub fn lookup_vertical_color(
        &self,
        position: Position,
        offset: usize,
        end: usize,
    ) -> Option<&ANSIBuf>
        ensures { option_copied result
            ≡ found_override (override_at self.now.vertical_colors position) offset end }
    {
        self.vertical_colors.lookup(position, offset, end)
    }

    /// Removes the colours set on the lines left of cells.
    pub fn remove_color_line_vertical(&mut self)
        ensures told { AddsSetting self.old self.new RemoveColorLineVertical }
        ensures others { self.new ≡ record self.old { vertical_colors = self.new.vertical_colors } }
    {
        self.vertical_colors.clear();
    }
}
