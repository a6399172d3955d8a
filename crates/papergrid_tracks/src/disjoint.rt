//! Whether ranges at listed positions have numbers in common.

ghost use Rattle.std.specs.Prelude.{◌+◌, ◌≤◌, ◌↔◌, All, AllPairs, IsTrue};
ghost use Rattle.papergrid_tracks.specs.ForProofs.Checks.{AreDisjointAt};

use crate::axis::Axis;
use papergrid_values::{Direction, Position};

/// Whether a range ends at or before a number.
pub fn ends_by(start: usize, span: usize, number: usize) -> bool
    ensures { IsTrue result ↔ (start + span ≤ number) }
{
    start <= number && span <= number - start
}

/// Whether the ranges at two positions have no track in common.
fn are_disjoint<A: Axis>(direction: Direction, axis: &A, a: Position, b: Position) -> bool
    ensures { IsTrue result ↔ AreDisjointAt direction (A.span_of axis.now) a b }
{
    let first = direction.number_of(a);
    let second = direction.number_of(b);
    ends_by(first, axis.span(a), second) || ends_by(second, axis.span(b), first)
}

/// Whether the range at a position has no track in common with any of the others.
fn is_disjoint<A: Axis>(
    direction: Direction,
    axis: &A,
    position: Position,
    others: &[Position],
) -> bool
    ensures { IsTrue result
        ↔ All (AreDisjointAt direction (A.span_of axis.now) position) others.now }
{
    for other in others {
        if !are_disjoint(direction, axis, position, *other) {
            return false;
        }
    }
    true
}

/// Whether no two of the ranges at the positions have a track in common.
pub fn are_all_disjoint<A: Axis>(direction: Direction, axis: &A, positions: &[Position]) -> bool
    ensures { IsTrue result
        ↔ AllPairs (AreDisjointAt direction (A.span_of axis.now)) positions.now }
{
    for (i, position) in positions.iter().enumerate() {
        if !is_disjoint(direction, axis, *position, &positions[..i]) {
            return false;
        }
    }
    true
}
