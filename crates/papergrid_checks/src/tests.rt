//! The worked tables of the documents, and what worked cases as data can't tell: the words of errors, tables of a caller's
//! own types, the law of layouts, drawn tables that no document describes, readers and writers that fail once, and writers that
//! take a beginning of a picture alone. In `refused`, calls whose allocations fail.

mod drawn;
mod ends;
mod layouts;
mod messages;
mod of_csv;
mod own_types;
mod places;
mod refused;
mod scripts;
mod shown;
mod types_of_laws;
mod writers;

use crate::certificates::{is_certified, is_right};
use crate::own::{Flat, of_flat};
use crate::settings::{as_a_list, laid_out, one_by_one};
use crate::sizes::{covering_width, sizes};
use crate::texts::measures;
use papergrid::config::Position;
use papergrid::config::spanned::SpannedConfig;
use papergrid::dimension::LayoutError;
use papergrid::records::IterRecords;
use papergrid::records::vec_records::Text;
use std::alloc::{AllocError, Global};

/// These rows of texts, as lists.
fn rows_of(alloc: Global, texts: &[&[&'static str]]) -> Result<Vec<Vec<&'static str>>, AllocError> {
    let mut rows = Vec::new(alloc);
    for row in texts {
        rows.push(row.iter().copied().collect(alloc)?)?;
    }
    Ok(rows)
}

/// The same of texts that are measured.
fn measured_rows(
    alloc: Global,
    texts: &[&[&'static str]],
) -> Result<Vec<Vec<Text<&'static str>>>, AllocError> {
    let mut rows = Vec::new(alloc);
    for row in texts {
        rows.push(measured_row(alloc, row)?)?;
    }
    Ok(rows)
}

fn measured_row(
    alloc: Global,
    texts: &[&'static str],
) -> Result<Vec<Text<&'static str>>, AllocError> {
    let mut row = Vec::new(alloc);
    for text in texts {
        row.push(Text::new(alloc, *text)?)?;
    }
    Ok(row)
}

/// These rows of texts, held.
fn held_rows(alloc: Global, texts: &[&[&str]]) -> Result<Vec<Vec<String>>, AllocError> {
    let mut rows = Vec::new(alloc);
    for row in texts {
        rows.push(held_row(alloc, row)?)?;
    }
    Ok(rows)
}

fn held_row(alloc: Global, texts: &[&str]) -> Result<Vec<String>, AllocError> {
    let mut row = Vec::new(alloc);
    for text in texts {
        row.push(String::from_str(alloc, *text)?)?;
    }
    Ok(row)
}

/// Two rows of three texts.
fn rows(alloc: Global) -> Result<Vec<Vec<&'static str>>, AllocError> {
    rows_of(alloc, &[&["one", "two", "three"], &["four", "five", "six"]])
}

/// Whether these widths and heights were found.
fn are_sizes(
    found: Result<(Vec<usize>, Vec<usize>), LayoutError>,
    widths: &[usize],
    heights: &[usize],
) -> bool {
    found.is_ok_and(|sizes| sizes.0.as_slice() == widths && sizes.1.as_slice() == heights)
}

/// The first cell spans two columns and hides the second one; each text has two blanks beside it.
fn are_right(found: Result<(Vec<usize>, Vec<usize>), LayoutError>) -> bool {
    are_sizes(found, &[6, 6, 7], &[1, 1])
}

fn has_sizes(alloc: Global, config: &SpannedConfig) -> bool {
    rows(alloc).is_ok_and(|rows| are_right(sizes(alloc, &rows, config)))
}

/// 19 columns of widths, and four of lines.
fn has_total(alloc: Global, config: &SpannedConfig) -> bool {
    rows(alloc).is_ok_and(|rows| covering_width(alloc, IterRecords::new(&rows, 3, None), config)
        == Ok(23))
}

/// Certified by the cells below the first one and by the third cell of the first row; not by a hidden one.
fn has_certificate(alloc: Global, config: &SpannedConfig) -> bool {
    let Ok(rows) = rows(alloc) else {
        return false;
    };
    let cells = [
        Position::new(1, 0),
        Position::new(1, 1),
        Position::new(0, 2),
    ];
    let hidden = [
        Position::new(1, 0),
        Position::new(0, 1),
        Position::new(0, 2),
    ];
    is_certified(alloc, &rows, config) == Ok(true)
        && is_right(IterRecords::new(&rows, 3, None), config, &[6, 6, 7], &cells)
        && !is_right(
            IterRecords::new(&rows, 3, None),
            config,
            &[6, 6, 7],
            &hidden,
        )
}

/// Whether the table has its sizes, by each type of records, its total and its certificate.
fn is_as_told(alloc: Global) -> bool {
    let Ok(config) = one_by_one(alloc) else {
        return false;
    };
    let sized = has_sizes(alloc, &config) && flat_has_sizes(alloc, &config);
    let total = has_total(alloc, &config);
    let certified = has_certificate(alloc, &config);
    drop(config);
    sized && total && certified
}

fn is_laid_out(alloc: Global) -> Result<bool, LayoutError> {
    let rows = rows(alloc)?;
    let dimension = laid_out(alloc, as_a_list(alloc)?, &rows)?;
    Ok(are_right(Ok(dimension.get_values())))
}

/// Whether records of one's own, with the same texts one after the other, have the same sizes.
fn flat_has_sizes(alloc: Global, config: &SpannedConfig) -> bool {
    let Ok(texts) = held_row(alloc, &["one", "two", "three", "four", "five", "six"]) else {
        return false;
    };
    let flat = Flat { texts, columns: 3 };
    are_right(of_flat(alloc, &flat, config))
}

#[test]
fn callers(rt: HostRuntime) {
    assert!(rt; is_as_told(rt.alloc()));
    assert!(rt; is_laid_out(rt.alloc()) == Ok(true));
    assert!(rt; measures("a 👍\nbc") == (2, 4));
}
