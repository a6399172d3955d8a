//! Checking sizes and a list of positions cell by cell, without allocating.

ghost use Rattle.std.specs.Prelude.{ℕ, Bool, ◌==◌, ◌&&◌, ◌*◌, ◌-◌, true, false, ◌≡◌, ◌+◌, ◌<◌, ◌≤◌, ◌^◌, ◌↔◌, ◌∷◌, ◌++◌, [], IfNone, IfSome, IsTrue, List, length, slice_index, sum};
ghost use Rattle.papergrid_values.specs.declared.position.Position.{Position};
ghost use Rattle.papergrid_tracks.specs.Problem.{problem_of_demands};
ghost use Rattle.papergrid_tracks.specs.declared.demand.Demand.{Demand};
ghost use Rattle.papergrid_values.specs.declared.direction.Direction.{Direction};
ghost use Rattle.papergrid_tracks.specs.ForProofs.Checks.{AreBounded, AreDistinct, Checks, ChecksFor, IsCandidate, SumsAgree, range_of};
ghost use Rattle.papergrid_tracks.specs.Answers.{IsAccepted};
ghost use Rattle.papergrid_tracks.specs.Fits.{HasRoom, IsLeast};
ghost use Rattle.papergrid_tracks.specs.Ranges.{demand_of, inner_lines};

use crate::axis::Axis;
use crate::candidate::{Candidate, are_disjoint, count_listed};
use papergrid_values::Position;

/// What is kept of the visible cells met so far: whether all of them have room in the table, and of
/// those that are listed how many they are, the sum of their minimum sizes and that of their inner
/// lines.
#[derive(Clone, Copy, Debug)]
pub struct Checked {
    pub holds: bool,
    pub found: usize,
    pub minimums: u128,
    pub inner: u128,
}

impl Checked {
    /// No cell met.
    pub fn new() -> Self
        ensures bounded { (positions : List Position) → AreBounded positions result }
        ensures checks { (line : ℕ → Bool) (sizes : List ℕ) (positions : List Position)
            (direction : Direction) (span : Position → ℕ) →
            Checks line sizes positions direction span result [] }
    {
        Checked {
            holds: true,
            found: 0,
            minimums: 0,
            inner: 0,
        }
    }
}

/// The measure with the paddings before and after it.
pub fn wide_minimum(measure: usize, before: usize, after: usize) -> u128
    ensures sum { result ≡ measure + before + after }
    ensures small { result ≤ 2 ^ 66 }
{
    measure as u128 + before as u128 + after as u128
}

/// The total of the sizes, of which there are never so many that it does not fit.
fn wide_sum(sizes: &[usize]) -> u128
    ensures sum { result ≡ sum sizes.now }
    ensures room { result < 2 ^ 124 }
{
    let mut total = 0u128;
    for size in sizes {
        total += *size as u128;
    }
    total
}

/// The lines strictly inside of a range.
fn count_inner<A: Axis>(axis: &A, start: usize, span: usize) -> usize
    requires span { 1 ≤ span }
    requires end { start + span < 2 ^ 64 }
    ensures { result ≡ inner_lines (A.line axis.now) (range_of start span 0) }
{
    let mut inner = 0usize;
    for i in start + 1..start + span {
        if axis.has_line(i) {
            inner += 1;
        }
    }
    inner
}

/// The lines inside of a range, where it lies in the table and the sizes in it and these lines come
/// to the minimum size.
fn room<A: Axis>(
    axis: &A,
    sizes: &[usize],
    start: usize,
    span: usize,
    minimum: u128,
) -> Option<usize>
    requires { 1 ≤ span }
    ensures inside { IfSome result (λ inner. start + span ≤ length sizes.now) }
    ensures inner { IfSome result (λ inner.
        inner ≡ inner_lines (A.line axis.now) (range_of start span minimum)) }
    ensures room { IfSome result (λ inner.
        HasRoom (A.line axis.now) sizes.now (range_of start span minimum)) }
    ensures none { IfNone result (start + span ≤ length sizes.now →
        HasRoom (A.line axis.now) sizes.now (range_of start span minimum) → ⊥) }
{
    if start > sizes.len() || span > sizes.len() - start {
        return None;
    }
    let inner = count_inner(axis, start, span);
    if minimum <= wide_sum(&sizes[start..start + span]) + inner as u128 {
        Some(inner)
    } else {
        None
    }
}

/// What was kept, and that a cell fails.
fn failed(checked: Checked) -> Checked
    ensures { result ≡ record checked { holds = false } }
{
    Checked {
        holds: false,
        found: checked.found,
        minimums: checked.minimums,
        inner: checked.inner,
    }
}

/// What was kept, and a cell that is listed so often, with its minimum size and its inner lines.
fn with_cell(checked: Checked, times: usize, minimum: u128, inner: usize) -> Checked
    requires holds { checked.holds ≡ true }
    requires found { checked.found + times < 2 ^ 59 }
    requires minimums { checked.minimums ≤ 2 ^ 66 * checked.found }
    requires inner { checked.inner ≤ 2 ^ 64 * checked.found }
    requires minimum { minimum ≤ 2 ^ 66 }
    ensures { result ≡ record {
      holds = true;
      found = checked.found + times;
      minimums = checked.minimums + minimum * times;
      inner = checked.inner + inner * times;
    } }
{
    if times == 0 {
        return checked;
    }
    Checked {
        holds: true,
        found: checked.found + times,
        minimums: checked.minimums + minimum * times as u128,
        inner: checked.inner + inner as u128 * times as u128,
    }
}

/// Whether a range that begins at a track has room for the minimum size whatever its span is, since
/// the size of that number has.
fn has_room_alone(candidate: &Candidate<'_>, start: usize, minimum: u128) -> bool
    ensures { IsTrue result → (candidate.now.ends_within ≡ true)
        × (start < length candidate.now.sizes.now)
        × (minimum ≤ slice_index candidate.now.sizes.now start) }
{
    candidate.ends_within
        && start < candidate.sizes.len()
        && minimum <= candidate.sizes[start] as u128
}

/// What is kept of the cells met and of one more, the visible cell at a position with its minimum
/// size. Nothing changes by a cell that has room and is not listed, nor after one that fails. Where
/// the first size of its range is room enough, its span is not looked up.
pub fn visit<A: Axis>(
    checked: Checked,
    candidate: &Candidate<'_>,
    axis: &A,
    position: Position,
    minimum: u128,
) -> Checked
    requires bounded { AreBounded candidate.now.positions.now checked }
    requires ordered { IsCandidate (A.span_of axis.now) candidate.now }
    requires minimum { minimum ≤ 2 ^ 66 }
    ensures bounded { AreBounded candidate.now.positions.now result }
    ensures checks { let checks = ChecksFor (A.line axis.now) (A.span_of axis.now) candidate.now in
        let span = A.span_of axis.now position in
        let demand = demand_of candidate.now.direction position span minimum in
        (demands : List Demand) → checks checked demands → checks result (demands ++ demand ∷ []) }
{
    let start = candidate.direction.number_of(position);
    let times = count_listed(candidate, position);
    if checked.holds && times == 0 && has_room_alone(candidate, start, minimum) {
        return checked;
    }
    let span = axis.span(position);
    if !checked.holds {
        return failed(checked);
    }
    match room(axis, candidate.sizes, start, span, minimum) {
        Some(inner) => {
            if times <= candidate.positions.len() - checked.found {
                with_cell(checked, times, minimum, inner)
            } else {
                failed(checked)
            }
        }
        None => failed(checked),
    }
}

/// Whether a visit changed nothing.
pub fn is_unchanged(before: Checked, after: Checked) -> bool
    ensures { IsTrue result ↔ (after ≡ before) }
{
    if before.holds != after.holds {
        return false;
    }
    before.found == after.found && before.minimums == after.minimums && before.inner == after.inner
}

/// Whether all cells have room, each position is a cell's, and the minimum sizes of the listed
/// cells less their inner lines add up to the sizes.
fn sums_agree(checked: Checked, sizes: &[usize], positions: &[Position]) -> bool
    requires { AreBounded positions.now checked }
    ensures { IsTrue result ↔ SumsAgree checked sizes.now positions.now }
{
    if !checked.holds {
        return false;
    }
    if checked.found != positions.len() {
        return false;
    }
    checked.minimums == wide_sum(sizes) + checked.inner
}

/// Whether the sizes of `count` tracks fit the visible cells met, of which none overflows the
/// table, and the positions are those of visible cells of disjoint ranges, whose minimum sizes less
/// their inner lines add up to the sizes. Then no other choice of sizes has a smaller total.
pub fn accepts<A: Axis>(checked: Checked, candidate: &Candidate<'_>, axis: &A, count: usize) -> bool
    requires bounded { AreBounded candidate.now.positions.now checked }
    requires ordered { IsCandidate (A.span_of axis.now) candidate.now }
    ensures exact { let checks = ChecksFor (A.line axis.now) (A.span_of axis.now) candidate.now in
        (demands : List Demand) → AreDistinct demands → checks checked demands →
        let problem = problem_of_demands (A.line axis.now) count demands in
        IsTrue result ↔ IsAccepted problem candidate.now.sizes.now candidate.now.positions.now }
    ensures least { let checks = ChecksFor (A.line axis.now) (A.span_of axis.now) candidate.now in
        (demands : List Demand) → AreDistinct demands → checks checked demands → IsTrue result →
        IsLeast (problem_of_demands (A.line axis.now) count demands) candidate.now.sizes.now }
{
    if candidate.sizes.len() != count {
        return false;
    }
    if !sums_agree(checked, candidate.sizes, candidate.positions) {
        return false;
    }
    are_disjoint(candidate, axis)
}
