//! Settings, one by one and as a list.

ghost use Rattle.std.specs.Prelude.{◌≡◌, All, IfOk, true};
ghost use Rattle.papergrid.specs.Layouts.{IsLaidOut};
ghost use Rattle.papergrid_tracks.specs.declared.sizing.Sizing.TheVariants.{ByShares};
ghost use Rattle.papergrid_config.specs.Applied.{is_in_range};
ghost use Rattle.papergrid_config.specs.Grids.{spanned_grid};
ghost use Rattle.papergrid_config.specs.History.{HasSettingHistory};
ghost use Rattle.papergrid_config.specs.declared.spanned.SpannedConfig.{SpannedConfig};
ghost use Rattle.papergrid_layout.specs.Answers.{UnlessMemory};
ghost use Rattle.papergrid_maps.specs.StoredMap.{stored_value};
ghost use Rattle.papergrid_values.specs.declared.position.Position.{Position};
ghost use Rattle.papergrid_checks.specs.Lines.{line_settings};
ghost use Rattle.papergrid_checks.specs.Rows.{cells_of, lent_measure};

use papergrid::config::spanned::{Setting, SpannedConfig, Stopped};
use papergrid::config::{
    Border, Borders, Entity, HorizontalLine, Indent, Offset, Position, Sides, VerticalLine,
};
use papergrid::dimension::LayoutError;
use papergrid::dimension::iterable::IterGridDimension;
use papergrid::layout;
use papergrid::records::IterRecords;
use std::alloc::{AllocError, Global};

/// A blank left and right of each text.
pub fn blanks() -> Sides<Indent>
    ensures { result.left.size ≡ 1 }
{
    let (blank, none) = (Indent::spaced(1), Indent::zero());
    Sides::new(blank, blank, none, none)
}

/// A border of `+`, a first cell over two columns, and a blank left and right of each text.
pub fn one_by_one(alloc: Global) -> Result<SpannedConfig, AllocError>
    ensures { IfOk result (λ config.
        (position : Position) → (stored_value config.padding position).left.size ≡ 1) }
{
    let mut config = SpannedConfig::new(alloc);
    config.set_borders(Borders::filled('+'));
    config.set_column_span(Position::new(0, 0), 2)?;
    config.set_padding(Entity::Global, blanks())?;
    Ok(config)
}

/// The same as a list, which `layout` and `apply_all` take.
pub fn as_a_list(alloc: Global) -> Result<Vec<Setting>, AllocError>
    ensures { IfOk result (λ settings. All (λ setting. is_in_range setting ≡ true) settings.items) }
{
    Ok(vec![in alloc;
        Setting::SetBorders(Borders::filled('+')),
        Setting::SetColumnSpan(Position::new(0, 0), 2),
        Setting::SetPadding(Entity::Global, blanks()),
    ]?)
}

/// The sizes of rows of texts, of three columns, by a list of settings. Condition: each is in range.
pub fn laid_out(
    alloc: Global,
    settings: Vec<Setting>,
    rows: &[Vec<&str>],
) -> Result<IterGridDimension, LayoutError>
    requires { All (λ setting. is_in_range setting ≡ true) settings.items }
    ensures { UnlessMemory result ((config : SpannedConfig)
        × HasSettingHistory settings.items config
        × IsLaidOut (spanned_grid config) lent_measure 3 (cells_of rows.now) ByShares result) }
{
    layout(alloc, settings, IterRecords::new(rows, 3, None))
}

/// A configuration that a list makes. Condition: each setting is in range.
pub fn told(alloc: Global, settings: Vec<Setting>) -> Result<SpannedConfig, Stopped>
    requires { All (λ setting. is_in_range setting ≡ true) settings.items }
    ensures { IfOk result (HasSettingHistory settings.items) }
{
    let mut config = SpannedConfig::new(alloc);
    config.apply_all(settings)?;
    Ok(config)
}

/// A line before the second column, one before the second row with another character where it begins,
/// a border round one cell, and one character of that row's line in place of the line's.
pub fn lines(alloc: Global) -> Result<SpannedConfig, AllocError>
    ensures { IfOk result (HasSettingHistory line_settings) }
{
    let mut config = SpannedConfig::new(alloc);
    config.insert_vertical_line(1, VerticalLine::filled('|'))?;
    config.insert_horizontal_line(
        1,
        HorizontalLine {
            left: Some('>'),
            ..HorizontalLine::filled('-')
        },
    )?;
    config.set_border(Position::new(2, 2), Border::filled('#'))?;
    config.set_horizontal_char(Position::new(1, 0), Offset::Start(1), '=')?;
    Ok(config)
}
