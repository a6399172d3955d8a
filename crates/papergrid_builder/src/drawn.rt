//! The picture of rows of texts.

ghost use Rattle.std.specs.Prelude.{◌≡◌, ◌≢◌, IfErr, IfOk, length};
ghost use Rattle.papergrid_values.specs.declared.position.Position.{Position};
ghost use Rattle.papergrid_draw.specs.Drawings.{Drawing};
ghost use Rattle.papergrid_draw.specs.Faults.{IsDrawable};
ghost use Rattle.papergrid_draw.specs.Lined.{lined};
ghost use Rattle.papergrid_draw.specs.Pictures.{IsDrawingWith};
ghost use Rattle.papergrid_draw.specs.declared.error.DrawError.TheVariants.{NoRoom};
ghost use Rattle.papergrid_json.specs.Documents.{AreInRange};
ghost use Rattle.papergrid_builder.specs.Pictures.{IsDrawingOf, IsNotDrawn};
ghost use Rattle.papergrid_builder.specs.BuilderStates.{longest};
ghost use Rattle.papergrid_builder.specs.ForProofs.Sizes.{IsPictureRefused, draw_refusal};
ghost use Rattle.papergrid_builder.specs.ForProofs.Texts.{AreStarts, rows_lent, rows_told};

use crate::cells::CellTexts;
use crate::error::BuilderError;
use crate::rows::{longest_of, rows_of};
use papergrid_config::{NoColors, Setting, SpannedConfig};
use papergrid_draw::{DrawError, Room, TextCells, draw_lines};
use papergrid_json::configuration;
use papergrid_layout::{Sizing, Table};
use papergrid_text::IterRecords;
use papergrid_text::transfer::ByteSink;
use std::alloc::Global;

/// The picture of cells, by where each row begins among them, by settings, each line with a line feed.
///
/// Condition: each setting is in range.
pub fn drawn(
    alloc: Global,
    settings: &Vec<Setting>,
    cells: &CellTexts,
    starts: &[usize],
    sizing: Sizing,
) -> Result<Vec<u8>, BuilderError>
    requires in_range { AreInRange settings.now.items }
    requires starts { AreStarts (length cells.now) starts.now }
    ensures ok { IfOk result (λ picture. (d : Drawing)
        × IsDrawingOf settings.now.items (rows_told cells.now starts.now) sizing d
        × (picture.items ≡ lined d)) }
    ensures err { IfErr result (IsNotDrawn settings.now.items
        (rows_told cells.now starts.now) sizing) }
{
    let texts = cells.texts(alloc)?;
    let rows = rows_of(alloc, &texts, starts)?;
    let config = configuration(alloc, settings)?;
    drawn_by(alloc, &config, &rows, sizing)
}

/// The picture of rows of texts by a configuration.
fn drawn_by(
    alloc: Global,
    config: &SpannedConfig,
    rows: &[&[&str]],
    sizing: Sizing,
) -> Result<Vec<u8>, BuilderError>
    ensures ok { IfOk result (λ picture. (d : Drawing)
        × IsDrawingWith (longest (rows_lent rows.now)) (rows_lent rows.now) sizing config.now d
        × IsDrawable d × (picture.items ≡ lined d)) }
    ensures err { IfErr result (IsPictureRefused config.now (rows_lent rows.now) sizing) }
{
    let columns = longest_of(rows);
    let records = IterRecords::new(Vec::from_slice(alloc, rows)?, columns, Some(rows.len()));
    let table = Table::new(alloc, config, records, sizing)?;
    let cells = TextCells {
        alloc,
        rows,
        colors: &NoColors,
    };
    let mut sink = ByteSink::new(alloc);
    match draw_lines(alloc, &table, &cells, Room::Known, &mut sink) {
        Ok(()) => Ok(sink.into_bytes()),
        Err(error) => Err(refusal(error)),
    }
}

/// What is answered of a table that is not drawn. Condition: each cell has room, as in sizes that are found for it.
fn refusal(error: DrawError) -> BuilderError
    requires { (p : Position) → error ≢ NoRoom p }
    ensures { result ≡ draw_refusal error }
{
    match error {
        DrawError::OutOfTable(position) => BuilderError::OutOfTable(position),
        DrawError::NotTiled(position) => BuilderError::NotTiled(position),
        DrawError::TooLarge => BuilderError::TooLarge,
        DrawError::NoRoom(_) => unreachable!(),
        DrawError::Memory(_) | DrawError::Write => BuilderError::Memory,
    }
}
