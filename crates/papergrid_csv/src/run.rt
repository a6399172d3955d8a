//! The run of a CSV text: read, judge, draw.

ghost use Rattle.std.specs.Prelude.{◌≡◌, ◌≢◌, All, IfErr, IfOk, List, MatchBool, MatchOption, OnOk, length, map, true};
ghost use Rattle.papergrid_config.specs.Applied.{is_in_range};
ghost use Rattle.papergrid_config.specs.History.{AppendsSettings};
ghost use Rattle.papergrid_config.specs.declared.setting.Setting.{Setting};
ghost use Rattle.papergrid_draw.specs.Faults.{AllHaveRoom};
ghost use Rattle.papergrid_draw.specs.declared.error.DrawError.TheVariants.{Write};
ghost use Rattle.papergrid_draw.specs.Crossings.{FitCrossings, IsFitFault};
ghost use Rattle.papergrid_draw.specs.Sinks.{IsRefusal};
ghost use Rattle.papergrid_draw.specs.Pictures.{texts_drawing};
ghost use Rattle.papergrid_csv.specs.Pictures.{IsConfigured, IsCsvRun, IsNarrow, IsUnfitted, IsWide, WritesCsv};
ghost use Rattle.papergrid_csv.specs.Requests.{settings_of};
ghost use Rattle.papergrid_csv.specs.Rows.{row_texts, held_texts};
ghost use Rattle.papergrid_csv.specs.ForProofs.Drawn.{AreFittingOf, IsConfigRun, IsFitFaultOf, IsFree, IsKeptBy, IsRowsRun, IsSettingsRun, IsTableRun, end_refused, end_unread};

use crate::judging::{first_hidden, first_missing};
use crate::reading::{Rows, RowsError, read_rows};
use crate::request::{Request, settings};
use crate::shown::cut_rows;
use bumpalo::Bump;
use papergrid_config::{NoColors, Setting, SpannedConfig};
use papergrid_draw::{
    DrawError, Junctions, Room, TextCells, check_tiles, draw_lines, fitted_crossings,
};
use papergrid_layout::Table;
use papergrid_script::reading::RunFault;
use papergrid_text::IterRecords;
use papergrid_text::transfer::Sink;
use papergrid_values::Position;
use std::alloc::{AllocError, Global};

/// How the drawing of a text ended: the whole picture of its table was written, if it has one.
#[derive(Clone, Copy, Debug, PartialEq, Eq)]
pub enum CsvEnd {
    /// The picture was written.
    Drawn,
    /// The table has no picture: `OutOfTable`, `NotTiled` or `TooLarge`.
    Refused(DrawError),
    /// The table is so many columns wide, which is more than it may be.
    TooWide(usize),
    /// The field at this position, which is not empty, is under a span.
    Hides(Position),
    /// No column has the head that the entry with this number, of `columns`, names.
    NoColumn(usize),
    /// After so many records comes one with a field that is no text.
    NotText(usize),
    /// The quote after so many bytes of the text begins a field and is not closed before the end.
    Unclosed(usize),
    /// After `before` records comes one with so many fields, where the first has `first`.
    Ragged {
        before: usize,
        fields: usize,
        first: usize,
    },
}

/// Writes the lines of the picture of the table of a CSV text, or nothing where it has none. Each line ends with a line feed.
/// Nothing is written before the whole text was read and judged.
///
/// # Errors
///
/// `Write` where the writer fails or takes no byte of a piece that isn't empty, and `Memory` where a growth is refused, after a
/// beginning of the picture was written, which may be nothing. No failed call is tried again. `Read` never comes.
pub fn draw_csv<W: Sink>(
    alloc: Global,
    request: &Request,
    input: &[u8],
    writer: &mut W,
) -> Result<CsvEnd, RunFault>
    // The picture of its table was written, or nothing where it has none. Or which fault comes, and what it leaves of the writer.
    ensures { WritesCsv W.contents W.has_failed W.has_stalled (IsCsvRun request.now input.now)
        writer.old writer.new result }
{
    let texts = Bump::new(alloc);
    match read_rows(alloc, &texts, request.reading, input) {
        Ok(rows) => draw_rows(alloc, request, &rows, writer),
        Err(error) => end_unread(error),
    }
}

/// How a run ends whose text was not read.
pub fn end_unread(error: RowsError) -> Result<CsvEnd, RunFault>
    ensures { result ≡ end_unread error }
{
    match error {
        RowsError::NotText(before) => Ok(CsvEnd::NotText(before)),
        RowsError::Unclosed(count) => Ok(CsvEnd::Unclosed(count)),
        RowsError::Ragged {
            before,
            fields,
            first,
        } => Ok(CsvEnd::Ragged {
            before,
            fields,
            first,
        }),
        RowsError::Memory => Err(RunFault::Memory),
    }
}

/// Writes the picture of these rows, if they have one.
pub fn draw_rows<W: Sink>(
    alloc: Global,
    request: &Request,
    rows: &Rows<'_>,
    writer: &mut W,
) -> Result<CsvEnd, RunFault>
    ensures { WritesCsv W.contents W.has_failed W.has_stalled
        (IsRowsRun request.now rows.now.columns (held_texts rows.now.rows))
        writer.old writer.new result }
{
    if let Some(end) = judged(request, rows) {
        return Ok(end);
    }
    match request.cut {
        None => draw_shown(alloc, request, rows, &rows.rows, writer),
        Some(columns) => {
            let texts = Bump::new(alloc);
            let shown = cut_rows(alloc, &texts, columns, &rows.rows)?;
            draw_shown(alloc, request, rows, &shown, writer)
        }
    }
}

/// Writes the picture of these rows, which are shown so, if they have one.
fn draw_shown<W: Sink>(
    alloc: Global,
    request: &Request,
    rows: &Rows<'_>,
    shown: &[Vec<&str>],
    writer: &mut W,
) -> Result<CsvEnd, RunFault>
    ensures { WritesCsv W.contents W.has_failed W.has_stalled (IsSettingsRun request.now
        (settings_of request.now rows.now.columns (held_texts rows.now.rows))
        (length shown.now, rows.now.columns) rows.now.columns (map row_texts shown.now))
        writer.old writer.new result }
{
    let settings = settings(alloc, request, rows)?;
    draw_records(alloc, request, settings, rows.columns, shown, writer)
}

/// How a run ends that rows keep from their picture.
pub fn judged(request: &Request, rows: &Rows<'_>) -> Option<CsvEnd>
    ensures { MatchOption result (IsFree request.now (held_texts rows.now.rows))
        (IsKeptBy request.now (held_texts rows.now.rows)) }
{
    if let Some(entry) = first_missing(&rows.rows, &request.columns) {
        return Some(CsvEnd::NoColumn(entry));
    }
    if request.hides {
        return None;
    }
    match first_hidden(&rows.rows, &request.spans) {
        Some(position) => Some(CsvEnd::Hides(position)),
        None => None,
    }
}

/// Writes the picture of rows of so many fields by settings, if they have one.
fn draw_records<W: Sink>(
    alloc: Global,
    request: &Request,
    settings: Vec<Setting>,
    columns: usize,
    rows: &[Vec<&str>],
    writer: &mut W,
) -> Result<CsvEnd, RunFault>
    requires { All (λ setting. is_in_range setting ≡ true) settings.items }
    ensures { WritesCsv W.contents W.has_failed W.has_stalled
        (IsSettingsRun request.now settings.items (length rows.now, columns) columns
        (map row_texts rows.now)) writer.old writer.new result }
{
    match configured(alloc, request, settings, (rows.len(), columns)) {
        Ok(config) => draw_configured(alloc, request, &config, columns, rows, writer),
        Err(error) => end_refused(error),
    }
}

/// The configuration of a table of this shape by settings, with crossings that fit its spans, if they are to fit.
pub fn configured(
    alloc: Global,
    request: &Request,
    settings: Vec<Setting>,
    shape: (usize, usize),
) -> Result<SpannedConfig, DrawError>
    requires { All (λ setting. is_in_range setting ≡ true) settings.items }
    ensures ok { IfOk result (IsConfigured request.now settings.items shape) }
    ensures err { IfErr result (λ e.
        IsRefusal e → IsUnfitted request.now.junctions settings.items shape e) }
    ensures works { IfErr result (λ e. e ≢ Write) }
{
    let mut config = SpannedConfig::new(alloc);
    if let Err(_) = config.apply_all(settings) {
        return Err(DrawError::Memory(AllocError));
    }
    match fit(alloc, &mut config, shape, request.junctions) {
        Ok(()) => Ok(config),
        Err(error) => Err(error),
    }
}

/// How a run ends whose table was not drawn.
fn end_refused(error: DrawError) -> Result<CsvEnd, RunFault>
    ensures { result ≡ end_refused error }
{
    match error {
        DrawError::Memory(_) => Err(RunFault::Memory),
        DrawError::Write => Err(RunFault::Write),
        error => Ok(CsvEnd::Refused(error)),
    }
}

/// Fits the crossings of a configuration to its spans, if they are to fit.
fn fit(
    alloc: Global,
    config: &mut SpannedConfig,
    shape: (usize, usize),
    junctions: Option<Junctions>,
) -> Result<(), DrawError>
    ensures ok { OnOk result ((fitted : List Setting)
        × AreFittingOf junctions config.old shape fitted
        × AppendsSettings config.old config.new fitted) }
    ensures err { IfErr result (λ e. IsRefusal e → IsFitFaultOf junctions config.old shape e) }
    ensures works { IfErr result (λ e. e ≢ Write) }
{
    match junctions {
        None => Ok(()),
        Some(junctions) => fit_crossings(alloc, config, shape, &junctions),
    }
}

/// Fits the crossings of a configuration to its spans.
fn fit_crossings(
    alloc: Global,
    config: &mut SpannedConfig,
    shape: (usize, usize),
    junctions: &Junctions,
) -> Result<(), DrawError>
    ensures ok { OnOk result ((fitted : List Setting)
        × FitCrossings config.old shape junctions.now fitted
        × AppendsSettings config.old config.new fitted) }
    ensures err { IfErr result (λ e. IsRefusal e → IsFitFault config.old shape e) }
    ensures works { IfErr result (λ e. e ≢ Write) }
{
    let fitted = fitted_crossings(alloc, config, shape, junctions)?;
    match config.apply_all(fitted) {
        Ok(()) => Ok(()),
        Err(_) => Err(DrawError::Memory(AllocError)),
    }
}

/// Writes the picture of rows of so many fields by a configuration, if they have one.
fn draw_configured<W: Sink>(
    alloc: Global,
    request: &Request,
    config: &SpannedConfig,
    columns: usize,
    rows: &[Vec<&str>],
    writer: &mut W,
) -> Result<CsvEnd, RunFault>
    ensures { WritesCsv W.contents W.has_failed W.has_stalled
        (IsConfigRun request.now columns (map row_texts rows.now) config.now)
        writer.old writer.new result }
{
    let records = IterRecords::new(rows, columns, Some(rows.len()));
    match Table::new(alloc, config, records, request.sizing) {
        Ok(table) => draw_table(alloc, request, &table, rows, writer),
        Err(error) => end_refused(DrawError::from(error)),
    }
}

/// Writes the picture of a table, if it can be drawn and is not too wide.
fn draw_table<W: Sink>(
    alloc: Global,
    request: &Request,
    table: &Table<'_>,
    rows: &[Vec<&str>],
    writer: &mut W,
) -> Result<CsvEnd, RunFault>
    requires { AllHaveRoom (texts_drawing table.now.config (map row_texts rows.now)
        table.now.widths table.now.heights) }
    ensures { WritesCsv W.contents W.has_failed W.has_stalled (IsTableRun request.now.max_width
        (texts_drawing table.now.config (map row_texts rows.now)
        table.now.widths table.now.heights)) writer.old writer.new result }
{
    if let Err(error) = check_tiles(alloc, table.config(), table.shape()) {
        return end_refused(error);
    }
    let width = table.width();
    if is_wide(request.max_width, width) {
        return Ok(CsvEnd::TooWide(width));
    }
    let cells = TextCells {
        alloc,
        rows,
        colors: &NoColors,
    };
    match draw_lines(alloc, table, &cells, Room::Known, writer) {
        Ok(()) => Ok(CsvEnd::Drawn),
        Err(error) => end_refused(error),
    }
}

/// Whether a width is more than it may be.
pub fn is_wide(greatest: Option<usize>, width: usize) -> bool
    ensures { MatchBool result (IsWide greatest width) (IsNarrow greatest width) }
{
    match greatest {
        Some(greatest) => greatest < width,
        None => false,
    }
}
