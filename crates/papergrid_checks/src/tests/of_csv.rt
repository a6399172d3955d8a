//! Tables of CSV texts in frames of a caller's own. All others are cases of `papergrid_table`.

use crate::csv_tables::{csv_fits, csv_table_in_memory};
use papergrid::config::Position;
use papergrid::grid::Junctions;
use papergrid_csv::{Alignment, CsvEnd, Format, Request, Span, Style, record_start};
use std::alloc::{AllocError, Global};

/// Whether a text is drawn so by a request.
fn is_drawn(alloc: Global, request: &Request, text: &[u8], picture: &str) -> bool {
    match csv_table_in_memory(alloc, request, text) {
        Ok((CsvEnd::Drawn, written)) => written.as_slice() == picture.as_bytes(),
        _ => false,
    }
}

/// A span over two columns, with lines between all rows and crossings that fit it.
const FITTED: &str = "\
╭───────╮\n\
│ ab    │\n\
├───┬───┤\n\
│ c │ d │\n\
╰───┴───╯\n";

/// Lines between all rows, with crossings that fit spans.
fn rule(request: &mut Request) {
    request.head = None;
    request.frame.horizontal = Some('─');
    request.frame.left_intersection = Some('├');
    request.frame.intersection = Some('┼');
    request.frame.right_intersection = Some('┤');
    request.junctions = Junctions::of_frame(&request.frame);
}

/// Whether round corners and lines between all rows, which no style has together, are drawn so.
fn is_ruled(alloc: Global) -> Result<bool, AllocError> {
    let mut request = Request::in_style(alloc, Style::Rounded);
    rule(&mut request);
    request.spans.push(Span {
        position: Position::new(0, 0),
        rows: 1,
        columns: 2,
    })?;
    Ok(is_drawn(alloc, &request, b"ab,\nc,d\n", FITTED))
}

/// A column whose head alone is a number, without a line below it.
const HEADED: &str = "\
╭─────╮\n\
│ 20  │\n\
│ abc │\n\
╰─────╯\n";

/// Whether round corners without a line below the head, which no style has together, are drawn so.
fn is_headed(alloc: Global) -> bool {
    let mut request = Request::in_style(alloc, Style::Rounded);
    request.head = None;
    request.alignment = Alignment::Auto;
    is_drawn(alloc, &request, b"20\nabc\n", HEADED)
}

/// Whether a text has a quote that is not closed, after so many bytes, and nothing is written.
fn is_unclosed(alloc: Global, text: &[u8], count: usize) -> bool {
    let request = Request::in_style(alloc, Style::Rounded);
    match csv_table_in_memory(alloc, &request, text) {
        Ok((CsvEnd::Unclosed(found), written)) => found == count && written.is_empty(),
        _ => false,
    }
}

/// How many bytes stand before a quote that is not closed: those of a mark, and of fields with quotes in them.
#[test]
fn quotes_not_closed(rt: HostRuntime) {
    let alloc = rt.alloc();
    assert!(rt;
        is_unclosed(alloc, b"a,\"b", 2)
            && is_unclosed(alloc, b"\"a\"\"b", 0)
            && is_unclosed(alloc, b"\"a\",\"\"\"\"\n\"\"\"", 9)
            && is_unclosed(alloc, b"\xef\xbb\xbf\"", 3)
    );
}

/// Whether the record of a text after so many others begins there, by a format.
fn begins(alloc: Global, format: Format, text: &[u8], count: usize, start: Option<usize>) -> bool {
    let mut reading = Request::in_style(alloc, Style::Rounded).reading;
    reading.format = format;
    record_start(reading, text, count) == start
}

/// Where records begin: behind a mark, empty lines, line feeds between quotes, and returns.
#[test]
fn records_begin(rt: HostRuntime) {
    let alloc = rt.alloc();
    let csv = Format::Csv(b',');
    assert!(rt;
        begins(alloc, csv, b"a,b\n\nc\n", 1, Some(5))
            && begins(alloc, csv, b"\"x\ny\"\"\",1\r\nz", 1, Some(11))
            && begins(alloc, csv, b"\xef\xbb\xbf\n\na", 0, Some(5))
            && begins(alloc, Format::Tsv, b"\"a\nb\n", 1, Some(3))
            && begins(alloc, csv, b"\"a\nb\n", 1, None)
            && begins(alloc, csv, b"a\n", 1, None)
    );
}

/// Whether a text has a picture of at most so many columns.
fn fits(alloc: Global, text: &[u8], width: usize) -> Option<bool> {
    let mut request = Request::in_style(alloc, Style::Rounded);
    csv_fits(alloc, width, &mut request, text).ok()
}

/// One letter takes five columns with its paddings and lines. Bytes that are no text have no picture.
#[test]
fn pictures_that_fit(rt: HostRuntime) {
    let alloc = rt.alloc();
    assert!(rt;
        fits(alloc, b"a\n", 5) == Some(true)
            && fits(alloc, b"a\n", 4) == Some(false)
            && fits(alloc, b"\xff\n", 5) == Some(false)
    );
}

/// Whether the first record that is not as long as the first is told.
#[test]
fn records_of_other_lengths(rt: HostRuntime) {
    let alloc = rt.alloc();
    let mut request = Request::in_style(alloc, Style::Rounded);
    request.reading.strict = true;
    let told = match csv_table_in_memory(alloc, &request, b"a,b\n\nc,d\ne\n") {
        Ok(
            (
                CsvEnd::Ragged {
                    before,
                    fields,
                    first,
                },
                written,
            ),
        ) => { (before, fields, first) == (2, 1, 2) && written.is_empty() }
        _ => false,
    };
    assert!(rt; told);
}

/// What no option of the program asks for.
#[test]
fn frames_of_a_caller(rt: HostRuntime) {
    let alloc = rt.alloc();
    assert!(rt; is_ruled(alloc) == Ok(true) && is_headed(alloc));
}
