//! The settings of a table whose cells all have the same ones. Source: `config/compact/mod.rs`.

ghost use Rattle.std.specs.Prelude.{◌≡◌};
ghost use Rattle.papergrid_values.specs.Compact.{IsNew};

use crate::{ANSIStr, AlignmentHorizontal, Borders, Indent, Sides};

/// The frame of a table, the room round it, and the padding and the alignment of its cells. What
/// is coloured has a colour of two texts, both of them empty where none is set.
#[derive(Clone, Copy, Debug, PartialEq, Eq, PartialOrd, Ord, Hash)]
pub struct CompactConfig {
    borders: Borders<char>,
    border_colors: Borders<ANSIStr<'static>>,
    margin: Sides<Indent>,
    margin_color: Sides<ANSIStr<'static>>,
    padding: Sides<Indent>,
    padding_color: Sides<ANSIStr<'static>>,
    alignment: AlignmentHorizontal,
}

impl CompactConfig {
    /// A space of padding left and right of the text of each cell, which stands at the left; no
    /// frame, no margin and no colours.
    pub fn new() -> CompactConfig
        ensures { IsNew result }
    {
        CompactConfig {
            borders: Borders::empty(),
            border_colors: Borders::empty(),
            margin: Sides::filled(Indent::zero()),
            margin_color: Sides::filled(ANSIStr::empty()),
            padding: Sides::new(
                Indent::spaced(1),
                Indent::spaced(1),
                Indent::zero(),
                Indent::zero(),
            ),
            padding_color: Sides::filled(ANSIStr::empty()),
            alignment: AlignmentHorizontal::Left,
        }
    }

    /// The settings with this room round the table.
    pub fn set_margin(self, margin: Sides<Indent>) -> CompactConfig
        ensures { result ≡ record self { margin = margin } }
    {
        CompactConfig { margin, ..self }
    }

    /// The room round the table.
    pub fn get_margin(&self) -> &Sides<Indent>
        ensures { result.now ≡ self.now.margin }
    {
        &self.margin
    }

    /// The settings with these colours of the room round the table.
    pub fn set_margin_color(self, color: Sides<ANSIStr<'static>>) -> CompactConfig
        ensures { result ≡ record self { margin_color = color.entry } }
    {
        CompactConfig {
            margin_color: color,
            ..self
        }
    }

    /// The colours of the room round the table.
    pub fn get_margin_color(&self) -> &Sides<ANSIStr<'static>>
        ensures { result.now ≡ self.now.margin_color }
    {
        &self.margin_color
    }

    /// The settings with this frame.
    pub fn set_borders(self, borders: Borders<char>) -> CompactConfig
        ensures { result ≡ record self { borders = borders } }
    {
        CompactConfig { borders, ..self }
    }

    /// The frame.
    pub fn get_borders(&self) -> &Borders<char>
        ensures { result.now ≡ self.now.borders }
    {
        &self.borders
    }

    /// The settings with these colours of the frame.
    pub fn set_borders_color(self, borders: Borders<ANSIStr<'static>>) -> CompactConfig
        ensures { result ≡ record self { border_colors = borders.entry } }
    {
        CompactConfig {
            border_colors: borders,
            ..self
        }
    }

    /// The colours of the frame.
    pub fn get_borders_color(&self) -> &Borders<ANSIStr<'static>>
        ensures { result.now ≡ self.now.border_colors }
    {
        &self.border_colors
    }

    /// The settings with this padding of each cell.
    pub fn set_padding(self, padding: Sides<Indent>) -> CompactConfig
        ensures { result ≡ record self { padding = padding } }
    {
        CompactConfig { padding, ..self }
    }

    /// The padding of each cell.
    pub fn get_padding(&self) -> &Sides<Indent>
        ensures { result.now ≡ self.now.padding }
    {
        &self.padding
    }

    /// The settings with these colours of each cell's padding.
    pub fn set_padding_color(self, color: Sides<ANSIStr<'static>>) -> CompactConfig
        ensures { result ≡ record self { padding_color = color.entry } }
    {
        CompactConfig {
            padding_color: color,
            ..self
        }
    }

    /// The colours of each cell's padding.
    pub fn get_padding_color(&self) -> &Sides<ANSIStr<'static>>
        ensures { result.now ≡ self.now.padding_color }
    {
        &self.padding_color
    }

    /// The settings with each text standing so between left and right.
    pub fn set_alignment_horizontal(self, alignment: AlignmentHorizontal) -> CompactConfig
        ensures { result ≡ record self { alignment = alignment } }
    {
        CompactConfig { alignment, ..self }
    }

    /// Where each text stands between left and right.
    pub fn get_alignment_horizontal(&self) -> AlignmentHorizontal
        ensures { result ≡ self.now.alignment }
    {
        self.alignment
    }
}

impl Default for CompactConfig {
    ghost is_default = { IsNew };

    fn default() -> CompactConfig {
        CompactConfig::new()
    }
}
