//! How wide the lines of fields are.

ghost use Rattle.std.specs.Prelude.{All, map};
ghost use Rattle.papergrid_csv.specs.Rows.{row_texts};
ghost use Rattle.papergrid_csv.specs.ForProofs.Cuts.{HasLinesWithin};

use papergrid_text::string::get_lines;
use papergrid_text::width::{is_printable, width};

/// The greatest width of a line of a field of these rows, in columns.
pub fn widest_line(rows: &[Vec<&str>]) -> usize
    ensures { All (All (HasLinesWithin result)) (map row_texts rows.now) }
{
    let mut widest = 0usize;
    for row in rows {
        widest = widest.max(widest_in_row(row));
    }
    widest
}

/// That of a line of a field of a row.
fn widest_in_row(row: &[&str]) -> usize
    ensures { All (HasLinesWithin result) (map (λ field. field.now) row.now) }
{
    let mut widest = 0usize;
    for field in row {
        widest = widest.max(widest_in_text(*field));
    }
    widest
}

/// That of a line of a text.
fn widest_in_text(text: &str) -> usize
    ensures { HasLinesWithin result text.now }
{
    if is_printable(text) {
        return text.len();
    }
    let mut widest = 0usize;
    for line in get_lines(text) {
        widest = widest.max(width(line));
    }
    widest
}
