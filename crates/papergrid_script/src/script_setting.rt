//! Settings as the lines of a script spell them. A `Setting` of a configuration has 850 bytes, and these have 64.

ghost use Rattle.std.specs.Prelude.{◌≡◌, ◌∷◌, [], All, IfOk, IsOk, OnOk, map, true};
ghost use Rattle.papergrid_config.specs.Applied.{is_free};
ghost use Rattle.papergrid_config.specs.History.{AppendsSettings, HasSettingHistory};
ghost use Rattle.papergrid_script.specs.Settings.{setting_told, spaced_sides};

use papergrid_config::SpannedConfig;
use papergrid_values::{Borders, Entity, HorizontalLine, Indent, Position, Sides, VerticalLine};
use std::alloc::{AllocError, Global};

/// What a line of a script sets.
#[derive(Clone, Copy, Debug)]
pub enum ScriptSetting {
    /// So many spaces on each side of an entity's texts.
    Padding(Entity, Sides<usize>),
    /// The cell at the position spans so many columns.
    ColumnSpan(Position, usize),
    /// The cell at the position spans so many rows.
    RowSpan(Position, usize),
    /// All lines of the table are of the character.
    Border(char),
    /// The line before a column is of the character.
    VerticalLine(usize, char),
    /// The line before a row is of the character.
    HorizontalLine(usize, char),
    /// The line before a column is taken away.
    NoVerticalLine(usize),
    /// The line before a row is taken away.
    NoHorizontalLine(usize),
}

impl ScriptSetting {
    /// Makes the call of a configuration that the setting is, or is out of memory.
    fn apply(self, config: &mut SpannedConfig) -> Result<(), AllocError>
        ensures told { OnOk result
            (AppendsSettings config.old config.new (setting_told self ∷ [])) }
        ensures free { is_free (setting_told self) ≡ true → IsOk result }
    {
        match self {
            ScriptSetting::Padding(entity, sides) => config.set_padding(entity, spaced(sides))?,
            ScriptSetting::ColumnSpan(position, count) => config.set_column_span(position, count)?,
            ScriptSetting::RowSpan(position, count) => config.set_row_span(position, count)?,
            ScriptSetting::Border(c) => config.set_borders(Borders::filled(c)),
            ScriptSetting::VerticalLine(col, c) => {
                let line = VerticalLine::new(Some(c), None, None, None);
                config.insert_vertical_line(col, line)?;
            }
            ScriptSetting::HorizontalLine(row, c) => {
                let line = HorizontalLine::new(Some(c), None, None, None);
                config.insert_horizontal_line(row, line)?;
            }
            // How many columns or rows there are makes no difference to the line.
            ScriptSetting::NoVerticalLine(col) => config.remove_vertical_line(col, 0),
            ScriptSetting::NoHorizontalLine(row) => config.remove_horizontal_line(row, 0),
        }
        Ok(())
    }
}

/// So many spaces on each side.
fn spaced(sides: Sides<usize>) -> Sides<Indent>
    ensures { result ≡ spaced_sides sides }
{
    Sides::new(
        Indent::spaced(sides.left),
        Indent::spaced(sides.right),
        Indent::spaced(sides.top),
        Indent::spaced(sides.bottom),
    )
}

/// The configuration that the settings make. Errors: `AllocError` where an allocation fails;
/// settings that do not allocate (borders, removals, paddings of the whole table, spans below 2)
/// are never refused.
// It is made where its caller keeps it: it is large, and is not moved.
#[inline(always)]
pub fn configuration_of(
    alloc: Global,
    settings: Vec<ScriptSetting>,
) -> Result<SpannedConfig, AllocError>
    ensures told { IfOk result (λ config.
        HasSettingHistory (map setting_told settings.items) config) }
    ensures free { All (λ setting. is_free (setting_told setting) ≡ true) settings.items →
        IsOk result }
{
    let mut config = SpannedConfig::new(alloc);
    for setting in settings {
        setting.apply(&mut config)?;
    }
    Ok(config)
}
