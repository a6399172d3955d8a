//! Documents, drawn.

ghost use Rattle.std.specs.Prelude.{◌≡◌, IfOk, None};
ghost use Rattle.papergrid_draw.specs.declared.room.Room.TheVariants.{Known};
ghost use Rattle.papergrid_draw.specs.Sinks.{WritesPicture};
ghost use Rattle.papergrid_draw.specs.Lined.{lined};
ghost use Rattle.papergrid_layout.specs.Answers.{UnlessMemory};
ghost use Rattle.papergrid_config.specs.History.{HasSettingHistory};
ghost use Rattle.papergrid_json.specs.Documents.{AreInRange};
ghost use Rattle.papergrid_json.specs.Pictures.{IsDocumentDrawing, IsDocumentFault, IsDocumentTable, IsDocumentDrawingWith, IsDocumentFaultWith};

use crate::document::Document;
use papergrid_config::{Setting, SpannedConfig};
use papergrid_draw::{DrawError, Room, TextCells, draw_lines};
use papergrid_layout::{LayoutError, Sizing, Table};
use papergrid_text::IterRecords;
use papergrid_text::transfer::Sink;
use std::alloc::{AllocError, Global};

/// Writes the picture of a document, each line with a line feed: nothing where there are no rows or columns. The widths and heights
/// are those that it tells, else those that are chosen so. It has as many columns and rows as there are of them.
///
/// Condition: each setting is in range, as those of a document that was read are.
///
/// # Errors
///
/// `OutOfTable` with the first visible cell that overflows the table, `NotTiled` with the first position that no
/// visible cell covers, or that two do, `NoRoom` with the first visible cell that is wider than its place, where sizes are given, and
/// `TooLarge`, before anything is written; `Memory` and `Write` after a beginning of the picture.
pub fn draw_document<W: Sink>(
    alloc: Global,
    document: &Document,
    sizing: Sizing,
    sink: &mut W,
) -> Result<(), DrawError>
    requires { AreInRange document.now.settings.items }
    // A failed allocation fails no write.
    ensures { WritesPicture W.contents W.has_failed W.has_stalled
        (IsDocumentDrawing document.now sizing) (IsDocumentFault document.now sizing)
        lined sink.old sink.new result }
{
    let config = configuration(alloc, &document.settings)?;
    draw_by(alloc, &config, document, sizing, sink)
}

/// The configuration that settings make, or out of memory.
///
/// Condition: each setting is in range, as those of a document that was read are.
// It is made where its caller keeps it: it is large, and is not moved.
#[inline(always)]
pub fn configuration(alloc: Global, settings: &Vec<Setting>) -> Result<SpannedConfig, AllocError>
    requires { AreInRange settings.now.items }
    ensures { IfOk result (HasSettingHistory settings.now.items) }
{
    let copies = settings.clone()?;
    let mut config = SpannedConfig::new(alloc);
    match config.apply_all(copies) {
        Ok(()) => Ok(config),
        Err(_) => Err(AllocError),
    }
}

/// Writes the picture of a document by a configuration.
fn draw_by<W: Sink>(
    alloc: Global,
    config: &SpannedConfig,
    document: &Document,
    sizing: Sizing,
    sink: &mut W,
) -> Result<(), DrawError>
    ensures { WritesPicture W.contents W.has_failed W.has_stalled
        (IsDocumentDrawingWith document.now sizing config.now)
        (IsDocumentFaultWith document.now sizing config.now) lined sink.old sink.new result }
{
    let table = document_table(alloc, config, document, sizing)?;
    let cells = TextCells {
        alloc,
        rows: document.rows.as_slice(),
        colors: &document.colors,
    };
    draw_lines(alloc, &table, &cells, room_of(document), sink)
}

/// The table of a document by a configuration, as that which its settings make. The widths and heights are those that it tells,
/// else those that are chosen so.
///
/// # Errors
///
/// `OutOfTable` with the first visible cell that overflows the table, where no sizes are given; `TooLarge` where these, or those that
/// are chosen so, come with all lines to more than the greatest `usize`; `Memory` in place of any answer.
pub fn document_table<'a>(
    alloc: Global,
    config: &'a SpannedConfig,
    document: &Document,
    sizing: Sizing,
) -> Result<Table<'a>, LayoutError>
    ensures { UnlessMemory result (IsDocumentTable document.now sizing config.now result) }
{
    match &document.sizes {
        Some(own) => {
            let (widths, heights) = (own.widths.clone()?, own.heights.clone()?);
            Table::from_sizes(alloc, config, widths, heights)
        }
        None => {
            let count = Some(document.rows.len());
            let records = IterRecords::new(document.rows.as_slice(), document.columns, count);
            Table::new(alloc, config, records, sizing)
        }
    }
}

/// Whether each cell is known to have room: where sizes were found for them.
fn room_of(document: &Document) -> Room
    ensures { result ≡ Known → document.now.sizes ≡ None }
{
    match &document.sizes {
        Some(_) => Room::Unknown,
        None => Room::Known,
    }
}
