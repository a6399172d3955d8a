//! Errors of the library as an `anyhow::Error`, by `?`.

ghost use Rattle.std.specs.Prelude.{◌≡◌, All, IfOk, List, length, true, ℕ};
ghost use Rattle.papergrid_maps.specs.Grids.{Grid};
ghost use Rattle.papergrid_config.specs.Grids.{IsGridOf};
ghost use Rattle.papergrid_config.specs.Applied.{is_in_range};
ghost use Rattle.papergrid_layout.specs.Answers.{AreBothSizes};
ghost use Rattle.papergrid_tracks.specs.declared.sizing.Sizing.TheVariants as sizings;
ghost use Rattle.papergrid_layout.specs.Places.{HasPlace, sized_table};
ghost use Rattle.papergrid_config.specs.Grids.{spanned_grid};
ghost use Rattle.papergrid_checks.specs.Rows.{cells_of, lent_measure};

use crate::settings::told;
use anyhow::{Context, Result};
use papergrid::config::Position;
use papergrid::config::spanned::{Setting, SpannedConfig};
use papergrid::dimension::iterable::IterGridDimension;
use papergrid::dimension::{Estimate, Place, place};
use papergrid::laws::grid_by_settings;
use papergrid::records::IterRecords;
use std::alloc::Global;

/// Where the cell at a position stands in the table of rows of texts, of three columns.
pub fn place_in(
    alloc: Global,
    rows: &[Vec<&str>],
    config: &SpannedConfig,
    position: Position,
) -> Result<Place>
    ensures { let grid = spanned_grid config.now in
        IfOk result (λ place. (widths : List ℕ) × (heights : List ℕ)
        × AreBothSizes grid lent_measure 3 (cells_of rows.now)
        sizings.ByShares widths heights
        × HasPlace (sized_table grid widths heights (length rows.now, 3)) position place) }
{
    let mut sizes = IterGridDimension::new(alloc);
    sizes
        .estimate(IterRecords::new(rows, 3, None), config)
        .context("no sizes")?;
    Ok(place(&sizes, config, (rows.len(), 3), position)?)
}

/// The same of the first cell, by a list of settings. Condition: each setting is in range.
pub fn first_place(alloc: Global, settings: Vec<Setting>, rows: &[Vec<&str>]) -> Result<Place>
    requires { All (λ setting. is_in_range setting ≡ true) settings.items }
    ensures { IfOk result (λ place. (grid : Grid) × IsGridOf settings.items grid
        × ((widths : List ℕ) × (heights : List ℕ)
        × AreBothSizes grid lent_measure 3 (cells_of rows.now)
        sizings.ByShares widths heights
        × HasPlace (sized_table grid widths heights (length rows.now, 3))
        (record { row = 0; col = 0 }) place)) }
{
    grid_by_settings();
    let config = told(alloc, settings)?;
    place_in(alloc, rows, &config, Position::new(0, 0))
}
