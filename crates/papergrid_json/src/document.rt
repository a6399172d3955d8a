//! Documents, read.

ghost use Rattle.std.specs.Prelude.{◌≡◌, IfOk, Some, true, codes, option_and_then, map, option_map, string_bytes};
ghost use Rattle.serde_json.specs.Find.{as_array, get};
ghost use Rattle.serde_json.specs.View.{items_view, view};
ghost use Rattle.papergrid_json.specs.Spots.{count, each, list_at, optional, text_at};
ghost use Rattle.papergrid_config.specs.Applied.{is_in_range};
ghost use Rattle.papergrid_json.specs.ForProofs.Reading.{AreItems, AreOwnSizes, IsDraft, IsFinished, IsJsonRead, IsReading, IsReadingAs, IsReadingAsOr, IsReadingOr, IsTableRead, IsUnexpected, found};
ghost use Rattle.papergrid_json.specs.Documents.{AreColors, AreInRange, IsDocumentRead, IsFirstUnknown, IsSettingRead, IsUnknownAt, accepted_at, colored_at, draft_in, longest_row, items_at, optional_list_at, own_sizes_at, row_texts_in, own_sizes, texts_of_rows};

use crate::error::{DocumentError, Fault, told};
use crate::path::DocumentPath;
use crate::setting::setting;
use crate::spot::Spot;
use crate::values::{color_of, optional};
use papergrid_config::Setting;
use papergrid_values::{ANSIBuf, Position};
use serde_json::Value;
use std::alloc::{AllocError, Global};
use std::collections::BTreeMap;

/// The sizes of a table that are one's own.
#[derive(Debug, Drop)]
pub struct OwnSizes {
    /// In columns of a terminal.
    pub widths: Vec<usize>,
    /// In lines.
    pub heights: Vec<usize>,
}

/// A table that a document describes.
#[derive(Debug, Drop)]
pub struct Document {
    pub columns: usize,
    pub settings: Vec<Setting>,
    /// The texts of each row. A row may have fewer than there are columns. Where one has more, sizes for all are not found
    /// (`OutOfTable`), and by sizes of one's own what it has more is not drawn.
    pub rows: Vec<Vec<String>>,
    /// A width for each column and a height for each row, where these are not to be found.
    pub sizes: Option<OwnSizes>,
    /// The colours of texts, by position.
    pub colors: BTreeMap<Position, ANSIBuf>,
}

/// The table that a document describes: an object of `records`, a list of rows of texts, and of what else it tells: `columns`, the
/// number of columns, which is else that of the texts of the longest row; `settings`, a list of lists of a name and values
/// (`SETTINGS`); `sizes`, an object of `widths` and `heights`; `colors`, a list of a row, a column and the text before what is coloured
/// and the one after it. Other members are passed over.
///
/// # Errors
///
/// `Syntax` where it is not JSON in UTF-8, `UnknownSetting` where a setting has no name of theirs, and `Unexpected` where a value is
/// not what is wanted there, a setting is out of range, or a width or a height is missing. `Memory` in place of any answer.
pub fn read_document(alloc: Global, input: &[u8]) -> Result<Document, DocumentError>
    ensures in_range { IfOk result (λ document. AreInRange document.settings.items) }
    ensures read { IsDocumentRead input.now result }
{
    table(alloc, parsed(alloc, input)?)
}

/// The setting that a JSON list of its name and its values describes, as in the `settings` of a document.
///
/// # Errors
///
/// Those of `read_document`. Its number among the settings is 0.
pub fn read_setting(alloc: Global, input: &[u8]) -> Result<Setting, DocumentError>
    ensures in_range { IfOk result (λ setting. is_in_range setting ≡ true) }
    ensures read { IsSettingRead input.now result }
{
    let value = parsed(alloc, input)?;
    let spot = Spot {
        value: Some(&value),
        path: DocumentPath::of("setting"),
    };
    match accepted(alloc, 0, &spot) {
        Ok(setting) => Ok(setting),
        Err(fault) => Err(told(alloc, fault)),
    }
}

/// The JSON value that a text is.
fn parsed(alloc: Global, input: &[u8]) -> Result<Value, DocumentError>
    ensures { IsJsonRead input.now result }
{
    match Value::from_slice(alloc, input) {
        Ok(value) => Ok(value),
        Err(error) if error.is_memory() => Err(DocumentError::Memory),
        Err(error) => Err(DocumentError::Syntax(error.line(), error.column())),
    }
}

/// The table that a JSON value describes.
fn table(alloc: Global, document: Value) -> Result<Document, DocumentError>
    ensures { IsTableRead (view document) result }
{
    let draft = match drafted(alloc, &document) {
        Ok(draft) => draft,
        Err(fault) => return Err(told(alloc, fault)),
    };
    match rows(alloc, document) {
        Ok(rows) => match finished(draft, rows) {
            Ok(document) => Ok(document),
            Err(fault) => Err(told(alloc, fault)),
        },
        Err(fault) => Err(told(alloc, fault)),
    }
}

/// What a document describes but its rows.
#[derive(Drop)]
struct Draft {
    /// The number of columns.
    columns: Option<usize>,
    settings: Vec<Setting>,
    sizes: Option<OwnSizes>,
    colors: BTreeMap<Position, ANSIBuf>,
}

/// What a JSON value describes but its rows.
#[tactic(auto, unfolding(crate::specs::Documents::draft_in))]
fn drafted<'v>(alloc: Global, document: &'v Value) -> Result<Draft, Fault<'v>>
    ensures { let value = view document.now in
        let settings = get (codes "settings") value in
        IsReadingAsOr (IsFirstUnknown settings) IsDraft (draft_in value) result }
{
    if !document.is_object() {
        return Err(Fault::Unexpected(DocumentPath::of("the document"), "an object with records"));
    }
    Ok(Draft {
        columns: optional(alloc, &Spot::member(document, "columns"))?,
        settings: settings(alloc, &Spot::member(document, "settings"))?,
        sizes: sizes(alloc, &Spot::member(document, "sizes"))?,
        colors: colors(alloc, &Spot::member(document, "colors"))?,
    })
}

/// The settings that stand at a path, none where nothing does.
fn settings<'v>(alloc: Global, spot: &Spot<'v>) -> Result<Vec<Setting>, Fault<'v>>
    ensures { let here = found spot.now in
        IsReadingAsOr (IsFirstUnknown here) AreItems (optional_list_at accepted_at here) result }
{
    let mut settings = Vec::new(alloc);
    for index in 0..count(spot, "a list of settings")? {
        settings.push(accepted(alloc, index, &spot.at(index))?)?;
    }
    Ok(settings)
}

/// The setting that stands at a path, with this number among them, if it is in range.
#[tactic(auto, unfolding(crate::specs::Documents::accepted_at))]
fn accepted<'v>(alloc: Global, index: usize, spot: &Spot<'v>) -> Result<Setting, Fault<'v>>
    ensures in_range { IfOk result (λ setting. is_in_range setting ≡ true) }
    ensures read { let here = found spot.now in
        IsReadingOr (IsUnknownAt index here) (accepted_at here) result }
{
    let setting = setting(alloc, index, spot)?;
    if !setting.is_in_range() {
        drop(setting);
        return Err(spot.unexpected("of a row and a column below the greatest number"));
    }
    Ok(setting)
}

/// How many items the list at a path has, 0 where nothing stands there.
#[tactic(auto, unfolding(crate::specs::Documents::items_at))]
fn count<'v>(spot: &Spot<'v>, wanted: &'static str) -> Result<usize, Fault<'v>>
    ensures { IsReading (option_map count (items_at (found spot.now))) result }
{
    if spot.is_empty() {
        return Ok(0);
    }
    match spot.count() {
        Some(count) => Ok(count),
        None => Err(spot.unexpected(wanted)),
    }
}

/// The sizes that stand at a path, if something does.
#[tactic(auto, unfolding(crate::specs::Spots::optional))]
fn sizes<'v>(alloc: Global, spot: &Spot<'v>) -> Result<Option<OwnSizes>, Fault<'v>>
    ensures { IsReadingAs (λ told sizes. option_map own_sizes sizes ≡ told)
        (optional own_sizes_at (found spot.now)) result }
{
    if spot.is_empty() {
        return Ok(None);
    }
    let widths = spot.field("widths").numbers(alloc)?;
    let heights = spot.field("heights").numbers(alloc)?;
    Ok(Some(OwnSizes { widths, heights }))
}

/// The colours of texts that stand at a path, none where nothing does.
fn colors<'v>(alloc: Global, spot: &Spot<'v>) -> Result<BTreeMap<Position, ANSIBuf>, Fault<'v>>
    ensures { IsReadingAs AreColors (optional_list_at colored_at (found spot.now)) result }
{
    let mut colors = BTreeMap::new(alloc);
    for index in 0..count(spot, "a list of colours")? {
        let (position, color) = color(alloc, &spot.at(index))?;
        let _ = colors.insert(position, color)?;
    }
    Ok(colors)
}

/// The colour of a text that stands at a path, and its position.
#[tactic(auto, unfolding(crate::specs::Documents::colored_at))]
fn color<'v>(alloc: Global, spot: &Spot<'v>) -> Result<(Position, ANSIBuf), Fault<'v>>
    ensures { IsReading (colored_at (found spot.now)) result }
{
    spot.expect_items(4, COLOR)?;
    let position = Position::new(spot.at(0).number()?, spot.at(1).number()?);
    let color = color_of(alloc, spot, spot.at(2).text(), spot.at(3).text(), COLOR)?;
    Ok((position, color))
}

const COLOR: &str = "[row, column, text before, text after]";

/// The rows of texts that a JSON value has.
#[tactic(auto, unfolding(crate::specs::Documents::row_texts_in, crate::specs::Spots::list_at))]
fn rows(alloc: Global, document: Value) -> Result<Vec<Vec<String>>, Fault<'static>>
    ensures { IsReadingAs (λ told rows. texts_of_rows rows.items ≡ told)
        (row_texts_in (view document)) result }
{
    let path = DocumentPath::of("records");
    match records(document) {
        Some(records) => rows_of(alloc, path, records),
        None => Err(Fault::Unexpected(path, "a list of rows, each a list of texts")),
    }
}

/// The records of a JSON value, if it tells a list of them.
fn records(document: Value) -> Option<Vec<Value>>
    ensures { option_map (λ records. items_view records.items) result
        ≡ option_and_then as_array (get (codes "records") (view document)) }
{
    match document {
        Value::Object(mut members) => listed(members.remove("records")),
        _ => None,
    }
}

/// The items of a list.
fn listed(value: Option<Value>) -> Option<Vec<Value>>
    ensures { option_map (λ items. items_view items.items) result
        ≡ option_and_then as_array (option_map view value) }
{
    match value {
        Some(Value::Array(items)) => Some(items),
        _ => None,
    }
}

/// The rows of texts that JSON values are.
fn rows_of(
    alloc: Global,
    path: DocumentPath,
    records: Vec<Value>,
) -> Result<Vec<Vec<String>>, Fault<'static>>
    ensures { IsReadingAs (λ told rows. texts_of_rows rows.items ≡ told)
        (each (list_at text_at) (items_view records.items)) result }
{
    let mut rows = Vec::with_capacity(alloc, records.len())?;
    for record in records {
        let at = path.at(rows.len());
        rows.push(row(alloc, at, record)?)?;
    }
    Ok(rows)
}

/// The texts of a row.
#[tactic(auto, unfolding(crate::specs::Spots::list_at))]
fn row(alloc: Global, path: DocumentPath, cells: Value) -> Result<Vec<String>, Fault<'static>>
    ensures { IsReadingAs (λ told row. map string_bytes row.items ≡ told)
        (list_at text_at (Some (view cells))) result }
{
    let Value::Array(cells) = cells else {
        return Err(Fault::Unexpected(path, "a list of texts"));
    };
    texts(alloc, path, cells)
}

/// The texts that JSON values are.
fn texts(
    alloc: Global,
    path: DocumentPath,
    cells: Vec<Value>,
) -> Result<Vec<String>, Fault<'static>>
    ensures { IsReadingAs (λ told texts. map string_bytes texts.items ≡ told)
        (each text_at (items_view cells.items)) result }
{
    let mut texts = Vec::with_capacity(alloc, cells.len())?;
    for cell in cells {
        match cell {
            Value::String(text) => texts.push(text)?,
            _ => return Err(Fault::Unexpected(path.at(texts.len()), "a text")),
        }
    }
    Ok(texts)
}

/// The greatest number of texts.
fn longest_row(rows: &[Vec<String>]) -> usize
    ensures { result ≡ longest_row (texts_of_rows rows.now) }
{
    let mut greatest = 0;
    for row in rows {
        greatest = greatest.max(row.len());
    }
    greatest
}

/// The table of a draft with these rows.
fn finished(draft: Draft, rows: Vec<Vec<String>>) -> Result<Document, Fault<'static>>
    ensures { IsFinished draft (texts_of_rows rows.items) result }
{
    let columns = match draft.columns {
        Some(columns) => columns,
        None => longest_row(&rows),
    };
    let sizes = enough(draft.sizes, columns, rows.len())?;
    Ok(Document {
        columns,
        settings: draft.settings,
        rows,
        sizes,
        colors: draft.colors,
    })
}

/// A width for each column and a height for each row, if sizes are given.
fn enough(
    sizes: Option<OwnSizes>,
    columns: usize,
    rows: usize,
) -> Result<Option<OwnSizes>, Fault<'static>>
    ensures { AreOwnSizes columns rows (option_map own_sizes sizes) result }
{
    let Some(mut sizes) = sizes else {
        return Ok(None);
    };
    if sizes.widths.len() < columns {
        return Err(missing("widths", "a width for each column"));
    }
    if sizes.heights.len() < rows {
        return Err(missing("heights", "a height for each row"));
    }
    sizes.widths.truncate(columns);
    sizes.heights.truncate(rows);
    Ok(Some(sizes))
}

/// That sizes of this name are too few.
fn missing(name: &'static str, wanted: &'static str) -> Fault<'static>
    ensures { IsUnexpected result }
{
    Fault::Unexpected(DocumentPath::of("sizes").field(name), wanted)
}
