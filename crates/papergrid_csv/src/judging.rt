//! What keeps rows from their picture: a head that no column has, and fields under spans.

ghost use Rattle.std.specs.Prelude.{◌≡◌, ◌≢◌, ◌<◌, ◌≤◌, ◌+◌, ◌↔◌, [], ℕ, IsTrue, MatchOption, map, max, min};
ghost use Rattle.std.specs.List.{list_any};
ghost use Rattle.std.specs.Str.{bytes_eq};
ghost use Rattle.papergrid_values.specs.Positions.{IsBefore};
ghost use Rattle.papergrid_values.specs.declared.position.Position.{Position};
ghost use Rattle.papergrid_draw.specs.Tiles.{IsFirstPosition};
ghost use Rattle.papergrid_csv.specs.Judging.{IsFieldHidden, first_missing, is_found};
ghost use Rattle.papergrid_csv.specs.Requests.{first_row};
ghost use Rattle.papergrid_csv.specs.Rows.{row_texts};
ghost use Rattle.papergrid_csv.specs.ForProofs.Judging.{IsEarlier, IsFirstColumn, IsHiddenBy, IsHiddenIn};

use crate::request::{Alignment, ColumnName, Span};
use papergrid_values::Position;

/// The number of the first entry whose name no field of the first row has.
pub fn first_missing(rows: &[Vec<&str>], entries: &[(ColumnName, Alignment)]) -> Option<usize>
    ensures { result ≡ first_missing (first_row (map row_texts rows.now)) entries.now }
{
    for index in 0..entries.len() {
        if !is_found(rows, &entries[index].0) {
            return Some(index);
        }
    }
    None
}

/// Whether the first row has a field with the text of a name, if it is by a text.
fn is_found(rows: &[Vec<&str>], name: &ColumnName) -> bool
    ensures { result ≡ is_found (first_row (map row_texts rows.now)) name.now }
{
    match name {
        ColumnName::Number(_) => true,
        ColumnName::Head(text) => has_head(rows, text.as_str()),
    }
}

/// Whether the first row has a field with this text.
fn has_head(rows: &[Vec<&str>], text: &str) -> bool
    ensures { result ≡ list_any (λ field. bytes_eq field text.now)
        (first_row (map row_texts rows.now)) }
{
    match rows.get(0) {
        Some(row) => has_field(row, text),
        None => false,
    }
}

/// Whether a row has a field with this text.
fn has_field(row: &[&str], text: &str) -> bool
    ensures { result ≡ list_any (λ field. bytes_eq field text.now)
        (map (λ field. field.now) row.now) }
{
    for field in row {
        if *field == text {
            return true;
        }
    }
    false
}

/// The first position, by row and then by column, of a field that is not empty and that a span hides. Takes time that grows
/// with the fields under each span.
pub fn first_hidden(rows: &[Vec<&str>], spans: &[Span]) -> Option<Position>
    ensures { MatchOption result
        ((p : Position) → IsFieldHidden spans.now (map row_texts rows.now) p → ⊥)
        (IsFirstPosition (IsFieldHidden spans.now (map row_texts rows.now))) }
{
    let mut first = None;
    for span in spans {
        first = earlier(first, first_under(rows, *span));
    }
    first
}

/// The earlier of two positions.
fn earlier(first: Option<Position>, other: Option<Position>) -> Option<Position>
    ensures { IsEarlier first other result }
{
    match (first, other) {
        (Some(one), Some(two)) if is_before(two, one) => other,
        (Some(_), _) => first,
        (None, _) => other,
    }
}

/// Whether a position comes before another one, by row and then by column.
fn is_before(one: Position, two: Position) -> bool
    ensures { IsTrue result ↔ IsBefore one two }
{
    one < two
}

/// The first position of a field that is not empty and that this span hides.
fn first_under(rows: &[Vec<&str>], span: Span) -> Option<Position>
    ensures { MatchOption result
        ((p : Position) → IsHiddenBy span (map row_texts rows.now) p → ⊥)
        (IsFirstPosition (IsHiddenBy span (map row_texts rows.now))) }
{
    let first = span.position.row;
    for row in first..end_of(first, span.rows, rows.len()) {
        if let Some(col) = first_in_row(&rows[row], span, row) {
            return Some(Position { row, col });
        }
    }
    None
}

/// Where so many tracks from one on end, in a table of so many.
fn end_of(first: usize, count: usize, total: usize) -> usize
    ensures { result ≡ min (first + max 1 count) total }
{
    first.saturating_add(count.max(1)).min(total)
}

/// The column of the first such field of a row.
fn first_in_row(fields: &[&str], span: Span, row: usize) -> Option<usize>
    requires from { span.position.row ≤ row }
    requires until { row < span.position.row + max 1 span.rows }
    ensures { MatchOption result
        ((col : ℕ) → IsHiddenIn span row (map (λ field. field.now) fields.now) col → ⊥)
        (IsFirstColumn (IsHiddenIn span row (map (λ field. field.now) fields.now))) }
{
    let first = span.position.col;
    for col in first..end_of(first, span.columns, fields.len()) {
        if is_hidden(fields[col], span, Position { row, col }) {
            return Some(col);
        }
    }
    None
}

/// Whether a field is not empty, and not the span's own.
fn is_hidden(field: &str, span: Span, position: Position) -> bool
    ensures { IsTrue result ↔ ((field.now ≢ []) × (position ≢ span.position)) }
{
    !field.is_empty() && position != span.position
}
