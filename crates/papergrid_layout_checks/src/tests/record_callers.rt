//! The consumer at each type that records come in.

ghost use Rattle.std.specs.Prelude.{◌≡◌, ◌<◌, map, IfOk, string_bytes};
ghost use Rattle.papergrid_layout_checks.specs.ColumnWidths.{greatest_widths};
ghost use Rattle.papergrid_text.specs.Cut.{cut_rows, cut_whole_rows};
ghost use Rattle.papergrid_text.specs.HeldRows.{rows_held, column_count};
ghost use Rattle.papergrid_text.specs.Records.{TellsRows};
ghost use Rattle.papergrid_text.specs.Text.{text_width};

use crate::tests::consumer::widest;
use papergrid_text::iter_records::{IterRecords, RowIter};
use papergrid_text::laws::{chunks_tell_rows, exact_chunks_tell_rows, vectors_tell_rows};
use papergrid_text::records::IntoRecords;
use papergrid_text::text::Text;
use papergrid_text::vec_records::VecRecords;
use std::alloc::{AllocError, Global};
use std::convert::AsStr;

/// The greatest width of each column, or out of memory.
pub type Widths = Result<Vec<usize>, AllocError>;

/// The consumer's answer of what has rows, as records of so many columns.
fn of_rows<I: IntoRecords + Drop>(alloc: Global, rows: I, columns: usize) -> Widths
where
    <I as IntoRecords>::Cell: AsStr + Drop,
    requires { I.is_lawful rows }
    ensures { IfOk result (λ widths. TellsRows I.tells rows (λ cells.
        (widths.items ≡ greatest_widths columns
        (map (map (λ cell. text_width (I.Cell.text cell))) cells)))) }
{
    widest(alloc, IterRecords::new(rows, columns, None))
}

pub fn of_vectors(alloc: Global, rows: Vec<Vec<&str>>, columns: usize) -> Widths
    ensures { IfOk result (λ widths. widths.items ≡ greatest_widths columns
        (map (λ row. map (λ cell. text_width cell.now) row.items) rows.entry.items)) }
{
    of_rows(alloc, rows, columns)
}

pub fn of_lent(alloc: Global, rows: &Vec<Vec<String>>, columns: usize) -> Widths
    ensures { IfOk result (λ widths. widths.items ≡ greatest_widths columns
        (map (λ row. map (λ cell. text_width (string_bytes cell)) row.items) rows.now.items)) }
{
    of_rows(alloc, rows, columns)
}

pub fn of_slice(alloc: Global, rows: &[Vec<String>], columns: usize) -> Widths
    ensures { IfOk result (λ widths. widths.items ≡ greatest_widths columns
        (map (λ row. map (λ cell. text_width (string_bytes cell)) row.items) rows.now)) }
{
    of_rows(alloc, rows, columns)
}

pub fn of_slices(alloc: Global, rows: Vec<&[&str]>, columns: usize) -> Widths
    ensures { IfOk result (λ widths. widths.items ≡ greatest_widths columns
        (map (λ row. map (λ cell. text_width cell.now) row.now) rows.entry.items)) }
{
    of_rows(alloc, rows, columns)
}

pub fn of_row_iter(alloc: Global, rows: &[Vec<String>], columns: usize) -> Widths
    ensures { IfOk result (λ widths. widths.items ≡ greatest_widths columns
        (map (λ row. map (λ cell. text_width (string_bytes cell)) row.items) rows.now)) }
{
    vectors_tell_rows::<String>();
    of_rows(alloc, RowIter::new(rows.iter()), columns)
}

pub fn of_nested(alloc: Global, records: IterRecords<Vec<Vec<String>>>, columns: usize) -> Widths
    ensures { IfOk result (λ widths. widths.items ≡ greatest_widths columns
        (map (λ row. map (λ cell. text_width (string_bytes cell)) row.items)
        records.iter.items)) }
{
    of_rows(alloc, records, columns)
}

pub fn of_lent_records(alloc: Global, records: &IterRecords<Vec<Vec<String>>>) -> Widths
    ensures { IfOk result (λ widths. widths.items ≡ greatest_widths records.now.count_columns
        (map (λ row. map (λ cell. text_width (string_bytes cell)) row.items)
        records.now.iter.items)) }
{
    widest(alloc, records)
}

pub fn of_held(alloc: Global, records: &VecRecords<String>) -> Widths
    ensures { IfOk result (λ widths. widths.items ≡ greatest_widths (column_count records.now)
        (map (λ row. map (λ cell. text_width (string_bytes cell)) row.items)
        (rows_held records.now).items)) }
{
    widest(alloc, records)
}

pub fn of_texts(alloc: Global, rows: Vec<Vec<Text<String>>>, columns: usize) -> Widths
    ensures { IfOk result (λ widths. widths.items ≡ greatest_widths columns
        (map (λ row. map (λ cell. text_width (string_bytes cell.text)) row.items) rows.items)) }
{
    widest(alloc, VecRecords::with_size(rows, 0, columns))
}

pub fn of_chunks(alloc: Global, texts: &[String], columns: usize) -> Widths
    requires { 0 < columns }
    ensures { IfOk result (λ widths. widths.items ≡ greatest_widths columns
        (map (map (λ cell. text_width (string_bytes cell))) (cut_rows columns texts.now))) }
{
    chunks_tell_rows::<String>();
    of_rows(alloc, RowIter::new(texts.chunks(columns)), columns)
}

pub fn of_exact_chunks(alloc: Global, texts: &[String], columns: usize) -> Widths
    requires { 0 < columns }
    ensures { IfOk result (λ widths. widths.items ≡ greatest_widths columns
        (map (map (λ cell. text_width (string_bytes cell))) (cut_whole_rows columns texts.now))) }
{
    exact_chunks_tell_rows::<String>();
    of_rows(alloc, RowIter::new(texts.chunks_exact(columns)), columns)
}
