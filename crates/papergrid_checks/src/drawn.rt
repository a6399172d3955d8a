//! Tables that are drawn.

ghost use Rattle.std.specs.Prelude.{◌≡◌, ◌≢◌, IfErr, IfOk, string_bytes};
ghost use Rattle.papergrid_draw.specs.Drawings.{Drawing};
ghost use Rattle.papergrid_draw.specs.Faults.{IsDrawable};
ghost use Rattle.papergrid_draw.specs.Margins.{printed};
ghost use Rattle.papergrid_draw.specs.declared.error.DrawError.TheVariants.{Write};

use anyhow::Result;
use papergrid::colors::NoColors;
use papergrid::config::spanned::{Setting, SpannedConfig};
use papergrid::config::{Borders, Entity, Indent, Sides};
use papergrid::grid::peekable::PeekableGrid;
use papergrid::grid::{DrawError, Junctions, TextCells, drawn_string, fitted_crossings};
use papergrid::records::IterRecords;
use papergrid::records::vec_records::{Text, VecRecords};
use papergrid::{Sink, Sizing, Table, draw};
use papergrid_layout::PerDirection;
use std::alloc::Global;

/// Writes a table of texts in a frame, with a blank on both sides of each text.
pub fn framed<W: Sink>(alloc: Global, texts: &VecRecords<&str>, sink: &mut W) -> Result<()> {
    let (blank, none) = (Indent::spaced(1), Indent::zero());
    let settings = vec![in alloc;
        Setting::SetBorders(Borders::filled('+')),
        Setting::SetPadding(Entity::Global, Sides::new(blank, blank, none, none)),
    ]?;
    draw(alloc, settings, texts, Sizing::ByShares, sink)?;
    Ok(())
}

/// The picture of rows of texts, of so many columns, by a configuration.
pub fn picture(
    alloc: Global,
    config: &SpannedConfig,
    rows: &[Vec<&str>],
    columns: usize,
) -> std::result::Result<String, DrawError>
    ensures picture { IfOk result (λ text. (d : Drawing) × (d.config ≡ config.now)
        × IsDrawable d × (string_bytes text ≡ printed d)) }
    ensures works { IfErr result (λ e. e ≢ Write) }
{
    let records = IterRecords::new(rows, columns, Some(rows.len()));
    let table = Table::new(alloc, config, records, Sizing::Least)?;
    let colors = NoColors;
    let cells = TextCells {
        alloc,
        rows,
        colors: &colors,
    };
    drawn_string(alloc, &table, &cells)
}

/// Fits the crossings of a table of so many rows and columns to its spans, with the characters of its frame; nothing where
/// that lacks some.
pub fn fit(alloc: Global, config: &mut SpannedConfig, shape: (usize, usize)) -> Result<()> {
    let Some(junctions) = Junctions::of_frame(config.get_borders()) else {
        return Ok(());
    };
    let settings = fitted_crossings(alloc, config, shape, &junctions)?;
    config.apply_all(settings)?;
    Ok(())
}

/// The picture of two rows of one text each by sizes of one's own: three columns of a terminal, and a line for each row.
pub fn two_rows(
    alloc: Global,
    config: &SpannedConfig,
    rows: Vec<Vec<Text<&str>>>,
) -> Result<String> {
    let records = VecRecords::with_size(rows, 2, 1);
    let sizes = PerDirection {
        columns: vec![in alloc; 3]?,
        rows: vec![in alloc; 1, 1]?,
    };
    let grid = PeekableGrid::new(&records, config, &sizes, &NoColors);
    Ok(grid.to_string(alloc)?)
}
