//! The margin of the whole table, and the missing character. Source: `config/spanned/mod.rs`.

ghost use Rattle.std.specs.Prelude.{◌≡◌, option_copied};
ghost use Rattle.papergrid_config.specs.History.{AddsSetting};
ghost use Rattle.papergrid_config.specs.declared.setting.Setting.TheVariants.{SetMargin, SetMarginColor, SetMarginOffset, SetBordersMissing};

use crate::spanned::SpannedConfig;
use papergrid_values::{ANSIBuf, Indent, Offset, Sides};

impl SpannedConfig {
    /// Sets the room round the table, in columns of a terminal (left, right) and lines (top,
    /// bottom). It is never refused.
    pub fn set_margin(&mut self, margin: Sides<Indent>)
        ensures told { AddsSetting self.old self.new (SetMargin margin) }
        ensures others { self.new ≡ record self.old { margin = self.new.margin } }
    {
        self.margin = margin;
    }

    /// Sets the colours of that room. It is never refused.
    pub fn set_margin_color(&mut self, colors: Sides<Option<ANSIBuf>>)
        ensures told { AddsSetting self.old self.new (SetMarginColor colors) }
        ensures others { self.new ≡ record self.old { margin_color = self.new.margin_color } }
    {
        self.margin_color = colors;
    }

    /// Sets where that room begins and ends beside the table. It is never refused.
    pub fn set_margin_offset(&mut self, offsets: Sides<Offset>)
        ensures told { AddsSetting self.old self.new (SetMarginOffset offsets) }
        ensures others { self.new ≡ record self.old { margin_offset = self.new.margin_offset } }
    {
        self.margin_offset = offsets;
    }

    /// The room round the table, in columns of a terminal (left, right) and lines (top, bottom).
    pub fn get_margin(&self) -> Sides<Indent>
        ensures { result ≡ self.now.margin }
    {
        self.margin
    }

    /// The colours of that room.
    pub fn get_margin_color(&self) -> Sides<Option<&ANSIBuf>>
        ensures left { option_copied result.left ≡ self.now.margin_color.left }
        ensures right { option_copied result.right ≡ self.now.margin_color.right }
        ensures top { option_copied result.top ≡ self.now.margin_color.top }
        ensures bottom { option_copied result.bottom ≡ self.now.margin_color.bottom }
    {
        Sides {
            top: self.margin_color.top.as_ref(),
            bottom: self.margin_color.bottom.as_ref(),
            left: self.margin_color.left.as_ref(),
            right: self.margin_color.right.as_ref(),
        }
    }

    /// Where that room begins and ends beside the table.
    pub fn get_margin_offset(&self) -> Sides<Offset>
        ensures { result ≡ self.now.margin_offset }
    {
        self.margin_offset
    }

    /// Sets the character of lines that have none. It is never refused.
    pub fn set_borders_missing(&mut self, character: char)
        ensures told { AddsSetting self.old self.new (SetBordersMissing character) }
        ensures others { self.new ≡ record self.old { missing = self.new.missing } }
    {
        self.missing = character;
    }

    /// The character of lines that have none.
    pub fn get_borders_missing(&self) -> char
        ensures { result ≡ self.now.missing }
    {
        self.missing
    }
}
