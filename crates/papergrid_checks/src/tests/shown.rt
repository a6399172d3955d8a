//! The other callers, each by a table or a text that was worked out by hand.

use crate::colored::{bold_head, paint};
use crate::compact::tight;
use crate::dimensions::{of_compact, of_crossing, of_measured};
use crate::drawn::two_rows;
use crate::entities::marks;
use crate::picture::second_cell;
use crate::tests::{are_sizes, held_rows, measured_rows, rows_of};
use papergrid::ansi::ANSIBuf;
use papergrid::colors::Colors;
use papergrid::config::spanned::SpannedConfig;
use papergrid::config::{Borders, Position};
use papergrid::dimension::Place;
use papergrid::records::vec_records::{Text, VecRecords};
use std::alloc::{AllocError, Global};

/// The texts of the README's picture.
fn texts(alloc: Global) -> Result<Vec<Vec<&'static str>>, AllocError> {
    rows_of(
        alloc,
        &[
            &["Papergrid", "is a library", "for print tables", "!"],
            &["", "Just like this", "", ""],
        ],
    )
}

/// 51 columns, and in the fourth line from the 20th column on two columns of the table and the line between them.
fn is_drawn_so(alloc: Global) -> bool {
    let Ok(rows) = texts(alloc) else {
        return false;
    };
    let place = Place {
        left: 19,
        top: 3,
        width: 31,
        height: 1,
    };
    second_cell(alloc, &rows).is_ok_and(|found| found == (51, place))
}

/// The head is bold, and other rows are plain.
fn has_bold_head(alloc: Global) -> bool {
    let Ok(colors) = bold_head(alloc) else {
        return false;
    };
    colors.get_color(Position::new(1, 0)).is_none()
        && colors.get_color(Position::new(0, 5)).is_some_and(|color| (
            color.get_prefix(),
            color.get_suffix(),
        ) == ("\u{1b}[1m", "\u{1b}[0m"))
}

fn is_painted(alloc: Global) -> bool {
    let Ok(red) = ANSIBuf::new(alloc, "<", ">") else {
        return false;
    };
    let Ok(mut out) = String::from_str(alloc, "say ") else {
        return false;
    };
    paint(&mut out, &red, "hi").is_ok() && out.as_str() == "say <hi>"
}

/// A mark in the second column, and a blank elsewhere.
fn are_marked(alloc: Global) -> bool {
    marks(alloc).is_ok_and(|marks| *marks.get(Position::new(7, 1)) == 'x'
        && *marks.get(Position::new(7, 0)) == ' ')
}

/// Texts without padding are as wide as the widest of a column.
fn is_tight(alloc: Global) -> Result<bool, AllocError> {
    let rows = held_rows(alloc, &[&["four"]])?;
    Ok(of_compact(alloc, &rows, &tight()) == Ok(4))
}

/// Two texts of ten columns each, over the first two columns and over the last two.
fn crossing(alloc: Global) -> Result<Vec<Vec<&'static str>>, AllocError> {
    rows_of(alloc, &[&["0123456789"], &["", "0123456789"]])
}

fn has_least_sizes(alloc: Global) -> bool {
    let Ok(rows) = crossing(alloc) else {
        return false;
    };
    let mut config = SpannedConfig::new(alloc);
    let first = config.set_column_span(Position::new(0, 0), 2).is_ok();
    let second = config.set_column_span(Position::new(1, 1), 2).is_ok();
    let found = of_crossing(alloc, &rows, &config);
    drop(config);
    first && second && found.is_ok_and(|sizes| sizes.0.as_slice() == [0, 10, 0].as_slice())
}

/// One text of two lines.
fn measured(alloc: Global) -> Result<VecRecords<Text<&'static str>>, AllocError> {
    Ok(VecRecords::new(measured_rows(alloc, &[&["two\nlines"]])?))
}

fn has_sizes_of_measured(alloc: Global) -> bool {
    let Ok(records) = measured(alloc) else {
        return false;
    };
    let config = SpannedConfig::new(alloc);
    let found = of_measured(alloc, &records, &config);
    drop(config);
    are_sizes(found, &[5], &[2])
}

/// A frame of `+` round two texts of three columns each.
fn has_two_rows(alloc: Global) -> Result<bool, AllocError> {
    let rows = measured_rows(alloc, &[&["0-0"], &["1-0"]])?;
    let mut config = SpannedConfig::new(alloc);
    config.set_borders(Borders::filled('+'));
    let picture = two_rows(alloc, &config, rows);
    drop(config);
    Ok(picture.is_ok_and(|picture| picture.as_str() == "+++++\n+0-0+\n+++++\n+1-0+\n+++++"))
}

#[test]
fn callers(rt: HostRuntime) {
    assert!(rt; is_drawn_so(rt.alloc()));
    assert!(rt; has_bold_head(rt.alloc()));
    assert!(rt; is_painted(rt.alloc()));
    assert!(rt; are_marked(rt.alloc()));
    assert!(rt; is_tight(rt.alloc()) == Ok(true));
    assert!(rt; has_least_sizes(rt.alloc()));
    assert!(rt; has_sizes_of_measured(rt.alloc()));
    assert!(rt; has_two_rows(rt.alloc()) == Ok(true));
}
