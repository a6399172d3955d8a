//! Records: their counts, and the greatest widths that a consumer finds in each type that they come in.

use crate::tests::exact_sizes::{lent_rows, row_of, rows_of};
use crate::tests::peeks::{is_peeked, of_strings};
use crate::tests::record_callers::{
    Widths, of_chunks, of_exact_chunks, of_held, of_lent, of_lent_records, of_nested, of_row_iter,
    of_slice, of_slices, of_texts, of_vectors,
};
use papergrid_text::{ExactRecords, IterRecords, Records, Text, VecRecords};
use papergrid_values::Position;
use std::alloc::{AllocError, Global};

/// The rows `a`, `bcd` and `xyz`, of two cells and of one.
const ROWS: &[&[&str]] = &[&["a", "bcd"], &["xyz"]];

/// Whether these are the widths.
fn are(widths: Widths, expected: &[usize]) -> bool {
    match widths {
        Ok(widths) => widths.as_slice() == expected,
        Err(_) => false,
    }
}

fn are_of_rows(alloc: Global) -> Result<bool, AllocError> {
    let rows = rows_of(alloc, ROWS)?;
    Ok(
        are(of_lent(alloc, &rows, 2), &[3, 3])
            && are(of_slice(alloc, rows.as_slice(), 2), &[3, 3])
            && are(of_row_iter(alloc, rows.as_slice(), 2), &[3, 3]),
    )
}

fn are_of_vectors(alloc: Global) -> Result<bool, AllocError> {
    let rows = lent_rows(alloc, ROWS)?;
    Ok(are(of_vectors(alloc, rows, 2), &[3, 3]))
}

fn are_of_slices(alloc: Global) -> Result<bool, AllocError> {
    Ok(are(of_slices(alloc, ROWS.to_vec(alloc)?, 2), &[3, 3]))
}

fn are_of_texts(alloc: Global) -> Result<bool, AllocError> {
    Ok(are(of_texts(alloc, rows_of_one(alloc)?, 1), &[3]))
}

fn rows_of_one(alloc: Global) -> Result<Vec<Vec<Text<String>>>, AllocError> {
    let text = Text::new(alloc, String::from_str(alloc, "xyz\nab")?)?;
    Ok(vec![in alloc; vec![in alloc; text]?]?)
}

fn are_of_records(alloc: Global) -> Result<bool, AllocError> {
    let records = IterRecords::new(rows_of(alloc, ROWS)?, 2, None);
    let are_lent = are(of_lent_records(alloc, &records), &[3, 3]);
    Ok(are(of_nested(alloc, records, 2), &[3, 3]) && are_lent)
}

fn are_of_held(alloc: Global) -> Result<bool, AllocError> {
    let records = VecRecords::new(rows_of(alloc, ROWS)?);
    Ok(
        records.count_rows() == 2
            && Records::count_columns(&&records) == 2
            && of_strings(&records, Position::new(0, 1)) == (1, 3)
            && are(of_held(alloc, &records), &[3, 3]),
    )
}

fn are_of_chunks(alloc: Global) -> Result<bool, AllocError> {
    let texts = row_of(alloc, &["a", "bcd", "xyz", "", "efghi"])?;
    Ok(
        are(of_chunks(alloc, texts.as_slice(), 2), &[5, 3])
            && are(of_exact_chunks(alloc, texts.as_slice(), 2), &[3, 3]),
    )
}

// The counts are those that were given, also through references.
fn has_false_counts(records: &VecRecords<&'static str>) -> bool {
    records.len() == 1
        && records.count_rows() == 5
        && records.count_columns() == 9
        && ExactRecords::count_rows(&records) == 5
        && Records::count_columns(&records) == 9
        && records.hint_count_rows() == Some(5)
        && Records::hint_count_rows(&records) == Some(5)
}

fn are_false_counts(alloc: Global) -> Result<bool, AllocError> {
    let row = vec![in alloc; "a"]?;
    let records = VecRecords::with_size(vec![in alloc; row]?, 5, 9);
    let is_read = is_peeked(&records, Position::new(0, 0), 0, ("a", 1, 1, "a", 1));
    Ok(is_read & has_false_counts(&records))
}

fn are_in_order(alloc: Global) -> Result<bool, AllocError> {
    let rows = rows_of(alloc, ROWS)?;
    let lent = IterRecords::new(rows.as_slice(), 2, None);
    let copy = lent;
    Ok(copy == lent && copy < IterRecords::new(rows.as_slice(), 3, None))
}

// A pushed row changes no count until they are made anew.
fn is_pushed(alloc: Global) -> Result<bool, AllocError> {
    let mut records = VecRecords::new(rows_of(alloc, ROWS)?);
    let copy = records.clone()?;
    let is_same = copy == records;
    records.push(Vec::new(alloc))?;
    let is_pushed = copy < records && are_counted(&records);
    Ok(is_same && is_pushed && are_counted_anew(records))
}

fn are_counted(records: &VecRecords<String>) -> bool {
    records.len() == 3 && records.count_rows() == 2 && Records::count_columns(&records) == 2
}

fn are_counted_anew(records: VecRecords<String>) -> bool {
    let rows: Vec<Vec<String>> = records.into();
    let is_list = rows.count_rows() == 3 && ExactRecords::count_rows(&rows.as_slice()) == 3;
    let again: VecRecords<String> = rows.into();
    is_list && again.count_rows() == 3
}

#[test]
fn records_of_each_type(rt: HostRuntime) {
    let alloc = rt.alloc();
    assert!(rt; are_of_rows(alloc) == Ok(true));
    assert!(rt; are_of_vectors(alloc) == Ok(true));
    assert!(rt; are_of_slices(alloc) == Ok(true));
    assert!(rt; are_of_texts(alloc) == Ok(true));
    assert!(rt; are_of_records(alloc) == Ok(true));
    assert!(rt; are_of_held(alloc) == Ok(true));
    assert!(rt; are_of_chunks(alloc) == Ok(true));
    assert!(rt; are_false_counts(alloc) == Ok(true));
    assert!(rt; are_in_order(alloc) == Ok(true));
    assert!(rt; is_pushed(alloc) == Ok(true));
}
