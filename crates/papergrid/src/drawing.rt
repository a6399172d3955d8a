//! Tables drawn: of records by a list of settings, and of a script.

ghost use Rattle.std.specs.Prelude.{◌≡◌, ◌≢◌, ◌↔◌, ⊤, All, IfErr, IfOk, false, true};
ghost use Rattle.papergrid_values.specs.declared.position.Position.{Position};
ghost use Rattle.papergrid_text.specs.HeldRows.{column_count};
ghost use Rattle.papergrid_config.specs.Applied.{is_in_range};
ghost use Rattle.papergrid_draw.specs.Margins.{printed};
ghost use Rattle.papergrid_draw.specs.Sinks.{IsRefusal, WritesPicture};
ghost use Rattle.papergrid_draw.specs.declared.error.DrawError.TheVariants.{Memory, NoRoom, NotTiled, OutOfTable, TooLarge, Write};
ghost use Rattle.papergrid_draw.specs.Lined.{lined};
ghost use Rattle.papergrid.specs.Pictures.{IsPictureRun, IsTablePicture, refusal_line};
ghost use Rattle.papergrid_draw.specs.Pictures.{IsDrawingBy, IsDrawingWith, IsFaultWith, IsPictureFault, texts_held};
ghost use Rattle.papergrid_script.specs.Runs.{Runs};
ghost use Rattle.papergrid_script.specs.Scripts.{Table};
ghost use Rattle.papergrid_script.specs.Writing.{WritesOutput};
ghost use Rattle.papergrid_script.specs.Seen.{rows_seen, table_seen};
ghost use Rattle.papergrid_script.specs.declared.reading.RunFault.TheVariants.{Read};
ghost use Rattle.papergrid_script.specs.declared.reading.RunFault.TheVariants as run_faults;

use crate::running::say;
use crate::table_layout::configuration;
use bumpalo::Bump;
use papergrid_config::{NoColors, Setting, SpannedConfig};
use papergrid_draw::printer::draw_cells;
use papergrid_draw::{DrawError, Room, TextCells, draw_lines};
use papergrid_layout::{Sizing, Table};
use papergrid_script::answer::RunEnd;
use papergrid_script::output::{bad_script_text, out_of_table_text, too_large_text};
use papergrid_script::reading::{RunFault, read_all};
use papergrid_script::script::{Script, ScriptError, read_script};
use papergrid_script::script_setting::configuration_of;
use papergrid_text::transfer::{Sink, Source};
use papergrid_text::{IterRecords, VecRecords};
use papergrid_values::Position;
use std::alloc::{AllocError, Global};
use std::convert::AsStr;

/// Writes the picture of the records by the configuration that the settings make, one line at a time: nothing of
/// records without rows or columns. Texts are aligned by the lines that a line feed ends.
///
/// Condition: each setting is in range (`is_in_range` tests it).
///
/// # Errors
///
/// `OutOfTable` with the first visible cell that overflows the table, `NotTiled` with the first position that no
/// visible cell covers, or that two do, and `TooLarge`, before anything is written; `Memory` and `Write` after a
/// beginning of the picture.
pub fn draw<T: AsStr, W: Sink>(
    alloc: Global,
    settings: Vec<Setting>,
    records: &VecRecords<T>,
    sizing: Sizing,
    sink: &mut W,
) -> Result<(), DrawError>
    requires { All (λ setting. is_in_range setting ≡ true) settings.items }
    // A failed allocation fails no write.
    ensures picture { let columns = column_count records.now in
        let texts = texts_held T.text records.now in
        WritesPicture W.contents W.has_failed W.has_stalled
        (IsDrawingBy columns texts sizing settings.items)
        (IsPictureFault columns texts sizing settings.items) printed sink.old sink.new result }
    // No cell lacks room in sizes that are found for it.
    ensures room { IfErr result (λ e. (p : Position) → e ≢ NoRoom p) }
{
    let config = configuration(alloc, settings)?;
    draw_records(alloc, &config, records, sizing, sink)
}

/// Writes the picture of the records by a configuration.
fn draw_records<T: AsStr, W: Sink>(
    alloc: Global,
    config: &SpannedConfig,
    records: &VecRecords<T>,
    sizing: Sizing,
    sink: &mut W,
) -> Result<(), DrawError>
    ensures { WritesPicture W.contents W.has_failed W.has_stalled
        (IsDrawingWith (column_count records.now) (texts_held T.text records.now) sizing
        config.now)
        (IsFaultWith (column_count records.now) (texts_held T.text records.now) sizing config.now)
        printed sink.old sink.new result }
{
    let table = Table::new(alloc, config, records, sizing)?;
    let cells = TextCells {
        alloc,
        rows: records.as_slice(),
        colors: &NoColors,
    };
    draw_cells(alloc, &table, &cells, Room::Known, sink)
}

/// Reads a script to its end, and writes the lines of the picture of its table, with sizes by shares or least ones, or why it
/// has none. Each line ends with a line feed. Nothing is written before the input was read to its end and judged.
/// The whole input is left in the vector, in place of what it held.
///
/// Conditions: as those of `run`.
///
/// # Errors
///
/// `Read` where the reader fails, `Write` where the writer fails or takes no byte of a piece that isn't empty,
/// `Memory` where a growth is refused. No failed call is tried again. After `Read` nothing was written and the vector is as
/// it was. After `Write` and `Memory` a beginning of the output was written, which may be nothing. After `Write` the vector
/// has the whole input, after `Memory` it is as it was or has the whole input.
pub fn run_table<S: Source, W: Sink>(
    alloc: Global,
    sizing: Sizing,
    reader: &mut S,
    writer: &mut W,
    input: &mut Vec<u8>,
) -> Result<RunEnd, RunFault>
    // Of a reader and a writer that had not failed.
    requires reader { S.has_failed reader.old ≡ false }
    requires writer { W.has_failed writer.old ≡ false }
    // The picture that it tells was written, or why it has none, and nothing else. The whole input is kept, and neither the reader
    // nor the writer failed. Or which fault comes, and what it leaves of them and of the vector.
    ensures { Runs S.remaining S.has_failed W.contents W.has_failed W.has_stalled
        reader.old reader.new writer.old writer.new input.old input.new
        (IsPictureRun sizing input.new.items) result }
{
    *input = read_all(alloc, reader)?;
    draw_script(alloc, sizing, input.as_slice(), writer)
}

/// Writes the lines of the picture of the table that a script describes, or why it has none. Each line ends with a line feed.
/// Nothing is written before the whole script was read and judged.
///
/// # Errors
///
/// `Write` where the writer fails or takes no byte of a piece that isn't empty, and `Memory` where a growth is refused, after a
/// beginning of the output was written, which may be nothing. No failed call is tried again. `Read` never comes.
pub fn draw_script<W: Sink>(
    alloc: Global,
    sizing: Sizing,
    input: &[u8],
    writer: &mut W,
) -> Result<RunEnd, RunFault>
    ensures { WritesOutput W.contents W.has_failed W.has_stalled (λ _. ⊤)
        (IsPictureRun sizing input.now) writer.old writer.new result }
{
    let texts = Bump::new(alloc);
    match read_script(alloc, &texts, input) {
        Err(ScriptError::Memory) => Err(RunFault::Memory),
        Err(ScriptError::Bad(number)) => {
            say(writer, RunEnd::BadScript, bad_script_text(alloc, number)?)
        }
        Ok(script) => draw_read(alloc, sizing, script, writer),
    }
}

/// Writes the picture of the table of a script that was read, or why it has none.
fn draw_read<W: Sink>(
    alloc: Global,
    sizing: Sizing,
    script: Script<'_>,
    writer: &mut W,
) -> Result<RunEnd, RunFault>
    ensures { WritesOutput W.contents W.has_failed W.has_stalled (λ _. ⊤)
        (IsTablePicture sizing (table_seen script.entry)) writer.old writer.new result }
{
    let Script {
        columns,
        settings,
        rows,
    } = script;
    let config = configuration_of(alloc, settings)?;
    match draw_rows(alloc, sizing, &config, columns, &rows, writer) {
        Ok(()) => Ok(RunEnd::Done),
        Err(error) => {
            let text = refusal_text(alloc, error)?;
            say(writer, RunEnd::Refused, text)
        }
    }
}

/// The line for a table that was refused.
fn refusal_text(alloc: Global, error: DrawError) -> Result<Vec<u8>, RunFault>
    ensures ok { IfOk result (λ text. IsRefusal error × (text.items ≡ refusal_line error)) }
    ensures err { IfErr result (λ fault. (fault ≢ Read)
        × ((fault ≡ run_faults.Write) ↔ (error ≡ Write))) }
{
    match error {
        DrawError::OutOfTable(position) => Ok(out_of_table_text(alloc, position)?),
        DrawError::NotTiled(position) => Ok(not_tiled_text(alloc, position)?),
        DrawError::NoRoom(position) => Ok(no_room_text(alloc, position)?),
        DrawError::TooLarge => Ok(too_large_text(alloc)?),
        DrawError::Memory(_) => Err(RunFault::Memory),
        DrawError::Write => Err(RunFault::Write),
    }
}

/// Writes the picture of rows of texts.
fn draw_rows<W: Sink>(
    alloc: Global,
    sizing: Sizing,
    config: &SpannedConfig,
    columns: usize,
    rows: &[&[&str]],
    writer: &mut W,
) -> Result<(), DrawError>
    ensures { WritesPicture W.contents W.has_failed W.has_stalled
        (IsDrawingWith columns (rows_seen rows.now) sizing config.now)
        (IsFaultWith columns (rows_seen rows.now) sizing config.now)
        lined writer.old writer.new result }
{
    let records = IterRecords::new(Vec::from_slice(alloc, rows)?, columns, Some(rows.len()));
    let table = Table::new(alloc, config, records, sizing)?;
    let cells = TextCells {
        alloc,
        rows,
        colors: &NoColors,
    };
    draw_lines(alloc, &table, &cells, Room::Known, writer)
}

/// The line for a table that its cells don't tile.
fn not_tiled_text(alloc: Global, position: Position) -> Result<Vec<u8>, AllocError>
    ensures { IfOk result (λ text. text.items ≡ refusal_line (NotTiled position)) }
{
    let Position { row, col } = position;
    let text = format!(in alloc; "refused: not tiled at {row},{col}\n")?;
    Ok(text.into_bytes())
}

/// The line for a cell without room.
fn no_room_text(alloc: Global, position: Position) -> Result<Vec<u8>, AllocError>
    ensures { IfOk result (λ text. text.items ≡ refusal_line (NoRoom position)) }
{
    let Position { row, col } = position;
    let text = format!(in alloc; "refused: no room at {row},{col}\n")?;
    Ok(text.into_bytes())
}
