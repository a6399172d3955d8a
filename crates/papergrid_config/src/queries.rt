//! Whether something of a kind is set at all. Source: `config/spanned/mod.rs`.

ghost use Rattle.std.specs.Prelude.{◌≡◌, ◌↔◌, [], IsTrue, not};
ghost use Rattle.papergrid_values.specs.Keys.{sides_parts};
ghost use Rattle.papergrid_values.specs.Parts.{none_set};
ghost use Rattle.papergrid_tables.specs.Overrides.{HasOverrideHistory};
ghost use Rattle.papergrid_tables.specs.StoredBorders.{HasBorderHistory};
ghost use Rattle.papergrid_maps.specs.StoredColors.{IsBlank};
ghost use Rattle.papergrid_maps.specs.StoredMap.{HasNothing};
ghost use Rattle.papergrid_config.specs.Queries.{HasCommonLines, HasSetSide};

use crate::spanned::SpannedConfig;
use papergrid_values::{ANSIBuf, Sides};

impl SpannedConfig {
    /// Whether the table of border colours holds something.
    pub fn has_border_colors(&self) -> bool
        ensures { IsTrue result ↔ (HasBorderHistory [] self.now.colors → ⊥) }
    {
        !self.colors.is_empty()
    }

    /// Whether a character is set at an offset of a line.
    pub fn has_offset_chars(&self) -> bool
        ensures { IsTrue result ↔ (HasOverrideHistory [] self.now.horizontal_chars
            × HasOverrideHistory [] self.now.vertical_chars → ⊥) }
    {
        let horizontal = self.horizontal_chars.is_empty();
        let vertical = self.vertical_chars.is_empty();
        !(horizontal & vertical)
    }

    /// Whether what stands on a line is that of the whole line: no edge or corner of a cell, no colour of a line, and no
    /// character or colour at an offset is set.
    pub fn has_common_lines(&self) -> bool
        ensures { IsTrue result ↔ HasCommonLines self.now }
    {
        let characters = !self.characters.has_cell_parts();
        let colors = self.colors.is_empty();
        let horizontal_chars = self.horizontal_chars.is_empty();
        let vertical_chars = self.vertical_chars.is_empty();
        let horizontal_colors = self.horizontal_colors.is_empty();
        let vertical_colors = self.vertical_colors.is_empty();
        let chars = horizontal_chars & vertical_chars;
        let offsets = chars & (horizontal_colors & vertical_colors);
        characters & (colors & offsets)
    }

    /// Whether a justification or its colour is set for a column, a row or a cell, or the colour
    /// for the whole table.
    pub fn has_justification(&self) -> bool
        ensures { IsTrue result ↔ (HasNothing self.now.justification
            × IsBlank self.now.justification_color → ⊥) }
    {
        let character = self.justification.is_empty();
        let color = self.justification_color.is_empty();
        let global = self.justification_color.as_ref().is_none();
        !(character & (color & global))
    }

    /// Whether a padding is set for a column, a row or a cell.
    pub fn has_padding(&self) -> bool
        ensures { IsTrue result ↔ (HasNothing self.now.padding → ⊥) }
    {
        !self.padding.is_empty()
    }

    /// Whether a colour of a padding's side is set, for the whole table, a column, a row or a cell.
    pub fn has_padding_color(&self) -> bool
        ensures { IsTrue result ↔ HasSetSide self.now.padding_color }
    {
        self.padding_color.any_held(has_set_side)
    }

    /// Whether one of the three flags of texts is set for a column, a row or a cell.
    pub fn has_formatting(&self) -> bool
        ensures { IsTrue result ↔ (HasNothing self.now.trim_horizontal
            × (HasNothing self.now.trim_vertical × HasNothing self.now.line_alignment) → ⊥) }
    {
        let horizontal = self.trim_horizontal.is_empty();
        let vertical = self.trim_vertical.is_empty();
        let lines = self.line_alignment.is_empty();
        !(horizontal & (vertical & lines))
    }

    /// Whether a vertical alignment is set for a column, a row or a cell.
    pub fn has_alignment_vertical(&self) -> bool
        ensures { IsTrue result ↔ (HasNothing self.now.alignment_vertical → ⊥) }
    {
        !self.alignment_vertical.is_empty()
    }

    /// Whether a horizontal alignment is set for a column, a row or a cell.
    pub fn has_alignment_horizontal(&self) -> bool
        ensures { IsTrue result ↔ (HasNothing self.now.alignment_horizontal → ⊥) }
    {
        !self.alignment_horizontal.is_empty()
    }
}

// Whether a side is set.
fn has_set_side(sides: &Sides<Option<ANSIBuf>>) -> bool
    ensures { result ≡ not (none_set (sides_parts sides.now)) }
{
    !sides.is_empty()
}
