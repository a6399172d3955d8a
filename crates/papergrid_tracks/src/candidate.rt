//! What a checker is given.

ghost use Rattle.std.specs.Prelude.{◌≡◌, ◌↔◌, AllPairs, IsTrue, false, nat_lt, true};
ghost use Rattle.std.specs.List.Sorted.{IsPartitionPoint};
ghost use Rattle.papergrid_tracks.specs.ForProofs.Checks.{AreDisjointAt, AreInOrder, IsCandidate};
ghost use Rattle.papergrid_values.specs.Positions.{AreRising, along, count_of};

use crate::axis::Axis;
use crate::disjoint::{are_all_disjoint, ends_by};
use papergrid_values::{Direction, Position};

/// Sizes along a direction, and the positions of cells that are to certify that they are least.
#[derive(Clone, Copy, Debug)]
pub struct Candidate<'a> {
    pub direction: Direction,
    pub sizes: &'a [usize],
    pub positions: &'a [Position],
    /// Whether each of the ranges at the positions is known to end before a later one begins:
    /// then a position is looked for by binary search, and no two ranges have a track in common.
    pub is_ordered: bool,
    /// Whether each range that begins within the sizes is known to end within them: then a cell for
    /// whose minimum size the first size of its range is enough has room, whatever its span.
    pub ends_within: bool,
}

/// Whether the range at a position ends at or before that at another begins.
fn is_before<A: Axis>(direction: Direction, axis: &A, position: Position, later: Position) -> bool
    ensures { IsTrue result ↔ AreInOrder direction (A.span_of axis.now) position later }
{
    ends_by(
        direction.number_of(position),
        axis.span(position),
        direction.number_of(later),
    )
}

/// Whether each of the ranges at the positions ends before a later one begins.
pub fn are_in_order<A: Axis>(direction: Direction, axis: &A, positions: &[Position]) -> bool
    ensures { IsTrue result ↔ AllPairs (AreInOrder direction (A.span_of axis.now)) positions.now }
{
    for i in 1..positions.len() {
        if !is_before(direction, axis, positions[i - 1], positions[i]) {
            return false;
        }
    }
    true
}

/// How often a position is listed.
fn count_all(positions: &[Position], position: Position) -> usize
    ensures { result ≡ count_of position positions.now }
{
    positions
        .iter()
        .filter(|listed| position == **listed)
        .count()
}

/// The index of the first position whose number is not below `start`, where the numbers rise. It is
/// looked for at `start` itself before, where it is if all numbers up to that one have positions.
fn index_rising(direction: Direction, positions: &[Position], start: usize) -> usize
    requires { AllPairs (AreRising direction) positions.now }
    ensures { IsPartitionPoint (λ p. nat_lt (along direction p) start ≡ true)
        (λ p. nat_lt (along direction p) start ≡ false) positions.now result }
{
    if start < positions.len() && direction.number_of(positions[start]) == start {
        return start;
    }
    positions.partition_point(
        |listed: &Position| -> bool
            ensures { result ≡ nat_lt (along direction listed.now) start }
        { direction.number_of(*listed) < start },
    )
}

/// How often a position is listed, where the numbers of the positions rise.
fn count_rising(direction: Direction, positions: &[Position], position: Position) -> usize
    requires { AllPairs (AreRising direction) positions.now }
    ensures { result ≡ count_of position positions.now }
{
    let at = index_rising(direction, positions, direction.number_of(position));
    let Some(listed) = positions.get(at) else {
        return 0;
    };
    usize::from(position == *listed)
}

/// How often a position is listed.
pub fn count_listed(candidate: &Candidate<'_>, position: Position) -> usize
    requires { candidate.now.is_ordered ≡ true →
        AllPairs (AreRising candidate.now.direction) candidate.now.positions.now }
    ensures { result ≡ count_of position candidate.now.positions.now }
{
    if candidate.is_ordered {
        count_rising(candidate.direction, candidate.positions, position)
    } else {
        count_all(candidate.positions, position)
    }
}

/// Whether no two of the ranges at the positions have a track in common.
pub fn are_disjoint<A: Axis>(candidate: &Candidate<'_>, axis: &A) -> bool
    requires { IsCandidate (A.span_of axis.now) candidate.now }
    ensures { let are_disjoint = AreDisjointAt candidate.now.direction (A.span_of axis.now) in
        IsTrue result ↔ AllPairs are_disjoint candidate.now.positions.now }
{
    if candidate.is_ordered {
        return true;
    }
    are_all_disjoint(candidate.direction, axis, candidate.positions)
}
