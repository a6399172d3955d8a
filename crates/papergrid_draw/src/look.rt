//! The settings of a cell's text, read once.

ghost use Rattle.std.specs.Prelude.{◌≡◌, ◌↔◌, IfSome, IsFalse};
ghost use Rattle.papergrid_maps.specs.StoredMap.{stored_value};
ghost use Rattle.papergrid_draw.specs.Contents.{look_of};
ghost use Rattle.papergrid_draw.specs.ForProofs.Looks.{IsAlignmentOfAll, IsCommonLook, IsLookedUp, look_seen};

use crate::blanks::Blanks;
use papergrid_config::SpannedConfig;
use papergrid_values::{
    ANSIBuf, AlignmentHorizontal, AlignmentVertical, Formatting, Indent, Position, Sides,
};

/// The settings of a cell's text.
#[derive(Clone, Copy)]
pub struct Look<'a> {
    pub padding: &'a Sides<Indent>,
    pub padding_color: &'a Sides<Option<ANSIBuf>>,
    pub formatting: Formatting,
    pub horizontal: AlignmentHorizontal,
    pub vertical: AlignmentVertical,
    pub justification: char,
    pub justification_color: Option<&'a ANSIBuf>,
}

impl<'a> Look<'a> {
    /// Those that a configuration has for the cell at a position.
    fn of(config: &'a SpannedConfig, position: Position) -> Look<'a>
        ensures { look_seen result ≡ look_of config.now position }
    {
        Look {
            padding: config.get_padding(position),
            padding_color: config.get_padding_color(position),
            formatting: config.get_formatting(position),
            horizontal: *config.get_alignment_horizontal(position),
            vertical: *config.get_alignment_vertical(position),
            justification: config.get_justification(position),
            justification_color: config.get_justification_color(position),
        }
    }
}

/// The settings of all cells: where none is set for a column, a row or a cell, those of the whole table, and how
/// texts stand between blanks by these. The horizontal alignment stands apart, since columns often have their own.
pub struct Looks<'a> {
    common: Option<Look<'a>>,
    pub blanks: Option<Blanks>,
    horizontal: Option<AlignmentHorizontal>,
}

// By hand: docs/DECISIONS.md, "Drops".
impl Drop for Looks<'_> {
    fn drop(self) {
        let Looks {
            common: _,
            blanks: _,
            horizontal: _,
        } = self;
    }
}

/// Whether a setting of a text but for its horizontal alignment is set for a column, a row or a cell, or the colour of a
/// padding or of a justification for the whole table.
fn has_own_look(config: &SpannedConfig) -> bool
    ensures { IsFalse result ↔ IsCommonLook config.now }
{
    let padding = config.has_padding();
    let padding_color = config.has_padding_color();
    let formatting = config.has_formatting();
    let vertical = config.has_alignment_vertical();
    let justification = config.has_justification();
    padding || padding_color || formatting || vertical || justification
}

/// The horizontal alignment of all cells, if none is set for a column, a row or a cell.
fn common_alignment(config: &SpannedConfig) -> Option<AlignmentHorizontal>
    ensures { IfSome result (IsAlignmentOfAll config.now) }
{
    if config.has_alignment_horizontal() {
        return None;
    }
    Some(*config.get_alignment_horizontal(Position { row: 0, col: 0 }))
}

impl<'a> Looks<'a> {
    /// Those of a configuration.
    pub fn new(config: &'a SpannedConfig) -> Looks<'a>
        ensures { IsLookedUp config.now result }
    {
        if has_own_look(config) {
            return Looks {
                common: None,
                blanks: None,
                horizontal: None,
            };
        }
        let look = Look::of(config, Position { row: 0, col: 0 });
        Looks {
            common: Some(look),
            blanks: Blanks::of(&look),
            horizontal: common_alignment(config),
        }
    }

    /// The horizontal alignment that this configuration has for the cell at a position.
    pub fn horizontal(&self, config: &SpannedConfig, position: Position) -> AlignmentHorizontal
        requires { IsLookedUp config.now self.now }
        ensures { result ≡ stored_value config.now.alignment_horizontal position }
    {
        match self.horizontal {
            Some(horizontal) => horizontal,
            None => *config.get_alignment_horizontal(position),
        }
    }

    /// Those that this configuration has for the cell at a position.
    pub fn get(&self, config: &'a SpannedConfig, position: Position) -> Look<'a>
        requires { IsLookedUp config.now self.now }
        ensures { look_seen result ≡ look_of config.now position }
    {
        match self.common {
            Some(look) => {
                Look {
                    horizontal: self.horizontal(config, position),
                    ..look
                }
            }
            None => Look::of(config, position),
        }
    }
}
