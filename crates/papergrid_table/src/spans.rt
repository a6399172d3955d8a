//! Which span a message names.

ghost use Rattle.std.specs.Prelude.{◌≡◌, find, option_map};
ghost use Rattle.papergrid_table.specs.Spans.{hiding_span, is_over, is_over_other, last_span, overlapping_spans};

use papergrid_csv::Span;
use papergrid_values::Position;

/// The last span of the cell at a position.
pub fn last_at(spans: &[Span], position: Position) -> Option<&Span>
    ensures { option_map (λ span. span.now) result ≡ last_span position spans.now }
{
    spans.iter().rev().find(|span| span.position == position)
}

/// The first span over the cell at a position, of another cell.
pub fn hider_of(spans: &[Span], position: Position) -> Option<&Span>
    ensures { option_map (λ span. span.now) result ≡ hiding_span position spans.now }
{
    first_of_other(spans, position, position)
}

/// Two spans of different cells over a position: the first one there, behind the next one.
pub fn overlap_at(spans: &[Span], position: Position) -> Option<(&Span, &Span)>
    ensures { option_map (λ (later, first). (later.now, first.now)) result
        ≡ overlapping_spans position spans.now }
{
    let first = first_over(spans, position)?;
    let later = first_of_other(spans, position, first.position)?;
    Some((later, first))
}

/// The first span over a position.
fn first_over(spans: &[Span], position: Position) -> Option<&Span>
    ensures { option_map (λ span. span.now) result ≡ find (is_over position) spans.now }
{
    spans.iter().find(|span| covers(span, position))
}

/// The first span over a position that is not of the cell at another one.
fn first_of_other(spans: &[Span], position: Position, other: Position) -> Option<&Span>
    ensures { option_map (λ span. span.now) result
        ≡ find (is_over_other position other) spans.now }
{
    spans
        .iter()
        .find(|span| covers(span, position) && span.position != other)
}

/// Whether a position is in the rectangle of a span.
fn covers(span: &Span, position: Position) -> bool
    ensures { result ≡ is_over position span.now }
{
    let Position { row, col } = span.position;
    row <= position.row
        && col <= position.col
        && position.row - row < span.rows
        && position.col - col < span.columns
}
