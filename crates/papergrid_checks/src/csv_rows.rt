//! The rows of CSV texts, and texts that are cut.

ghost use Rattle.std.specs.Prelude.{◌≡◌, IfErr, IfOk, List, length, string_bytes, ℕ};
ghost use Rattle.papergrid_csv.specs.Cutting.{IsCut};
ghost use Rattle.papergrid_csv.specs.Rows.{AreRowsOf, IsUnread};
ghost use Rattle.papergrid_checks.specs.Readings.{commas};

use bumpalo::Bump;
use papergrid_csv::{Format, Reading, RowsError, cut, read_rows};
use std::alloc::{AllocError, Global};

/// How a text with commas is read. Control characters are spelled, and records may have unlike numbers of fields.
pub fn commas() -> Reading
    ensures { result ≡ commas }
{
    Reading {
        format: Format::Csv(b','),
        tab: None,
        one_line: false,
        raw: false,
        strict: false,
    }
}

/// The shape (rows, columns) of the table of a text with commas.
pub fn shape_of(alloc: Global, text: &[u8]) -> Result<(usize, usize), RowsError>
    ensures shape { IfOk result (λ shape. (rows : List (List (List ℕ)))
        × AreRowsOf commas text.now shape.1 rows × (shape.0 ≡ length rows)) }
    ensures unread { IfErr result (IsUnread commas text.now) }
{
    let texts = Bump::new(alloc);
    let rows = read_rows(alloc, &texts, commas(), text)?;
    Ok((rows.rows.len(), rows.columns))
}

/// A text with each of its lines cut to so many columns.
pub fn shortened(alloc: Global, columns: usize, text: &str) -> Result<String, AllocError>
    ensures { IfOk result (λ shown. IsCut columns text.now (string_bytes shown)) }
{
    let texts = Bump::new(alloc);
    String::from_str(alloc, cut(&texts, columns, text)?)
}
