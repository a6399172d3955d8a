//! The rows of a CSV or TSV text.

ghost use Rattle.std.specs.Prelude.{◌≡◌, ◌&&◌, ◌++◌, ◌∷◌, [], IfErr, IfOk, OnOk, map};
ghost use Rattle.csv.specs.Reading.{error_kind};
ghost use Rattle.csv.specs.Records.{fields_of};
ghost use Rattle.papergrid_csv.specs.Rows.{AreRowsOf, IsUnclosed, IsUnread, config_by, with_empty_fields, first_length, greatest_length, row_texts, held_texts};
ghost use Rattle.papergrid_csv.specs.Spelling.{spelled};
ghost use Rattle.papergrid_csv.specs.ForProofs.Read.{AreShownFields, IsReadSoFar, has_other_length, unread_of};

use crate::quotes::unclosed_quote;
use crate::spelling::spell;
use bumpalo::Bump;
use csv::{Error, ErrorKind, Reader, ReaderBuilder, StringRecord};
use std::alloc::{AllocError, Global};

/// Between which bytes the fields of a text stand, and how they are quoted.
#[derive(Clone, Copy, Debug, PartialEq, Eq)]
pub enum Format {
    /// RFC 4180 with this byte between fields, as `b','`.
    Csv(u8),
    /// Fields between tabs, without quotes. In a field `\t`, `\n` and `\\` stand for a tab, a line feed and a
    /// backslash, and any other backslash for itself.
    Tsv,
}

/// How a text is read, and how its fields are shown.
#[derive(Clone, Copy, Debug, PartialEq, Eq)]
pub struct Reading {
    pub format: Format,
    /// Blanks in place of a tab; where there are none it is spelled `\t`.
    pub tab: Option<usize>,
    /// Whether a line feed in a field is spelled `\n`, and begins no new line of its cell.
    pub one_line: bool,
    /// Whether control characters, and those that turn the direction of a text, stay as they are.
    pub raw: bool,
    /// Whether each record has to have as many fields as the first.
    pub strict: bool,
}

/// The rows of a table, which have equally many fields.
#[derive(Debug, Drop)]
pub struct Rows<'t> {
    pub columns: usize,
    pub rows: Vec<Vec<&'t str>>,
}

/// What keeps a text from its rows.
#[derive(Clone, Copy, Debug, PartialEq, Eq, thiserror::Error)]
pub enum RowsError {
    /// After so many records comes one with a field that is no text.
    #[error("a field is no text, after {0} records")]
    NotText(usize),
    /// The quote after so many bytes of the text begins a field and is not closed before the end.
    #[error("a quote that begins a field is not closed, after {0} bytes")]
    Unclosed(usize),
    /// After `before` records comes one with so many fields, where the first has `first`.
    #[error("a record has {fields} fields, and the first has {first}, after {before} records")]
    Ragged {
        before: usize,
        fields: usize,
        first: usize,
    },
    /// A growth was refused.
    #[error("out of memory")]
    Memory,
}

impl From<AllocError> for RowsError {
    ghost use Rattle.papergrid_csv.specs.declared.reading.RowsError.TheVariants.{Memory};

    ghost from_gives = { λ _ e. e ≡ Memory };

    fn from(_error: AllocError) -> RowsError {
        RowsError::Memory
    }
}

/// The rows of a text: of each record its fields as they are shown, in the arena, and empty ones where
/// the longest record has more.
///
/// # Errors
///
/// `Unclosed` with the number of bytes before a quote that begins a field and is not closed. Else, by the first record
/// that has a field that is no text, or, where the reading is strict, another number of fields than the first: `NotText`
/// with the number of records before it, or `Ragged` with that number, its own of fields and that of the first. And `Memory`.
pub fn read_rows<'t>(
    alloc: Global,
    texts: &'t Bump,
    reading: Reading,
    input: &[u8],
) -> Result<Rows<'t>, RowsError>
    ensures rows { IfOk result (λ rows. AreRowsOf reading input.now rows.columns
        (held_texts rows.rows)) }
    ensures unread { IfErr result (IsUnread reading input.now) }
{
    if let Some(count) = unclosed_quote(reading, input) {
        return Err(RowsError::Unclosed(count));
    }
    let shown = shown_records(alloc, texts, reading, input)?;
    let columns = greatest_length(&shown);
    let rows = filled_rows(alloc, shown, columns)?;
    Ok(Rows { columns, rows })
}

/// The fields of each record, as they are shown.
fn shown_records<'t>(
    alloc: Global,
    texts: &'t Bump,
    reading: Reading,
    input: &[u8],
) -> Result<Vec<Vec<&'t str>>, RowsError>
    requires { IsUnclosed reading input.now → ⊥ }
    ensures shown { IfOk result (λ shown. AreShownFields reading input.now (held_texts shown)) }
    ensures unread { IfErr result (IsUnread reading input.now) }
{
    let mut shown = Vec::new(alloc);
    show_all(alloc, texts, reading, input, &mut shown)?;
    Ok(shown)
}

/// Adds the fields of each record of a text, as they are shown, where there are none yet.
fn show_all<'t>(
    alloc: Global,
    texts: &'t Bump,
    reading: Reading,
    input: &[u8],
    shown: &mut Vec<Vec<&'t str>>,
) -> Result<(), RowsError>
    requires closed { IsUnclosed reading input.now → ⊥ }
    requires none { shown.old.items ≡ [] }
    ensures shown { OnOk result (AreShownFields reading input.now (held_texts shown.new)) }
    ensures unread { IfErr result (IsUnread reading input.now) }
{
    let mut reader = ReaderBuilder::new()
        .has_headers(false)
        .flexible(true)
        .delimiter(delimiter_of(reading.format))
        .quoting(has_quotes(reading.format))
        .from_reader(alloc, input);
    let mut record = StringRecord::new(alloc);
    show_each(
        alloc,
        texts,
        reading,
        input,
        &mut reader,
        &mut record,
        shown,
    )
}

/// Adds the fields of each record that a reader gives of a text, as they are shown. Each is read into this record.
fn show_each<'t>(
    alloc: Global,
    texts: &'t Bump,
    reading: Reading,
    input: &[u8],
    reader: &mut Reader<&[u8]>,
    record: &mut StringRecord,
    shown: &mut Vec<Vec<&'t str>>,
) -> Result<(), RowsError>
    requires closed { IsUnclosed reading input.now → ⊥ }
    requires read { IsReadSoFar reading input.now (held_texts shown.old) reader.old }
    ensures shown { OnOk result (AreShownFields reading input.now (held_texts shown.new)) }
    ensures unread { IfErr result (IsUnread reading input.now) }
{
    // There are no more records than bytes.
    for _ in 0..=input.len() {
        match reader.read_record(record) {
            Ok(true) => {
                if is_ragged(reading.strict, shown, record) {
                    return Err(RowsError::Ragged {
                        before: shown.len(),
                        fields: record.len(),
                        first: first_length(shown),
                    });
                }
                show_record(alloc, texts, reading, record, shown)?;
            }
            Ok(false) => return Ok(()),
            Err(error) => return Err(unread(&error, shown.len())),
        }
    }
    Err(RowsError::Memory)
}

/// The byte between fields.
fn delimiter_of(format: Format) -> u8
    ensures { result ≡ (config_by format).delimiter }
{
    match format {
        Format::Csv(delimiter) => delimiter,
        Format::Tsv => b'\t',
    }
}

/// Whether fields may be quoted.
fn has_quotes(format: Format) -> bool
    ensures { result ≡ (config_by format).quoting }
{
    match format {
        Format::Csv(_) => true,
        Format::Tsv => false,
    }
}

/// Whether all records have to be equally long, and this one has another number of fields than the first before it.
fn is_ragged(strict: bool, shown: &[Vec<&str>], fields: &StringRecord) -> bool
    ensures { result ≡ (strict && has_other_length (map row_texts shown.now)
        (fields_of fields.now)) }
{
    if !strict {
        return false;
    }
    match shown.first() {
        Some(first) => first.len() != fields.len(),
        None => false,
    }
}

/// How many fields the first of these has, or none where there is no first.
fn first_length(shown: &[Vec<&str>]) -> usize
    ensures { result ≡ first_length (map row_texts shown.now) }
{
    match shown.first() {
        Some(first) => first.len(),
        None => 0,
    }
}

/// Why a record after so many was not read.
fn unread(error: &Error, before: usize) -> RowsError
    ensures { result ≡ unread_of (error_kind error.now) before }
{
    match error.kind() {
        ErrorKind::Utf8 { .. } => RowsError::NotText(before),
        _ => RowsError::Memory,
    }
}

/// Adds the fields of a record, as they are shown.
fn show_record<'t>(
    alloc: Global,
    texts: &'t Bump,
    reading: Reading,
    fields: &StringRecord,
    shown: &mut Vec<Vec<&'t str>>,
) -> Result<(), AllocError>
    ensures { OnOk result (held_texts shown.new
        ≡ held_texts shown.old ++ map (spelled reading) (fields_of fields.now) ∷ []) }
{
    let row = shown_record(alloc, texts, reading, fields)?;
    shown.push(row)?;
    Ok(())
}

/// The fields of a record, as they are shown.
fn shown_record<'t>(
    alloc: Global,
    texts: &'t Bump,
    reading: Reading,
    fields: &StringRecord,
) -> Result<Vec<&'t str>, AllocError>
    ensures { IfOk result (λ row. row_texts row ≡ map (spelled reading) (fields_of fields.now)) }
{
    let mut row = Vec::with_capacity(alloc, fields.len())?;
    for field in fields {
        row.push(spell(texts, reading, field)?)?;
    }
    Ok(row)
}

/// The greatest number of fields.
fn greatest_length(rows: &[Vec<&str>]) -> usize
    ensures { result ≡ greatest_length (map row_texts rows.now) }
{
    let mut greatest = 0;
    for row in rows {
        greatest = greatest.max(row.len());
    }
    greatest
}

/// The rows with empty fields up to this number in each.
fn filled_rows<'t>(
    alloc: Global,
    rows: Vec<Vec<&'t str>>,
    columns: usize,
) -> Result<Vec<Vec<&'t str>>, AllocError>
    ensures { IfOk result (λ filled. held_texts filled
        ≡ map (with_empty_fields columns) (held_texts rows.entry)) }
{
    let mut filled = Vec::with_capacity(alloc, rows.len())?;
    for row in rows {
        filled.push(filled_up(row, columns)?)?;
    }
    Ok(filled)
}

/// A row with empty fields up to this number.
fn filled_up<'t>(row: Vec<&'t str>, columns: usize) -> Result<Vec<&'t str>, AllocError>
    ensures { IfOk result (λ filled. row_texts filled
        ≡ with_empty_fields columns (row_texts row.entry)) }
{
    let mut filled = row;
    for _ in filled.len()..columns {
        filled.push("")?;
    }
    Ok(filled)
}
