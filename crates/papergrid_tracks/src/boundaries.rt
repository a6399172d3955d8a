//! The lowest and the highest positions of the boundaries, by the minimum size of each track
//! alone, and by the cells of longer ranges in the order in which these end or start.

ghost use Rattle.std.specs.Prelude.{All, IfNone, IfSome, length, slice_index, ℕ, ◌+◌, ◌<◌, ◌^◌, ◌≡◌, ◌≤◌};
ghost use Rattle.std.specs.List.Sorted.{IsNonDecreasingBy};
ghost use Rattle.papergrid_tracks.specs.Ranges.{IsInTable, end_of};
ghost use Rattle.papergrid_tracks.specs.ForProofs.Laid.{AreLaid, AreLaterFirst, AreSteps};

use crate::demand::Demand;

/// Lays the boundaries after track `from` up to `to`, each past the one before by the minimum
/// size of the track between alone; none where one does not fit.
fn lay(boundaries: &mut [usize], base: &[usize], from: usize, to: usize) -> Option<()>
    requires one_more { length boundaries.old ≡ length base.now + 1 }
    requires ordered { from ≤ to }
    requires within { to ≤ length base.now }
    ensures length { IfSome result (λ done. length boundaries.new ≡ length boundaries.old) }
    ensures before { IfSome result (λ done. (i : ℕ) → i ≤ from →
        slice_index boundaries.new i ≡ slice_index boundaries.old i) }
    ensures laid { IfSome result (λ done. (i : ℕ) → from ≤ i → i < to →
        slice_index boundaries.new (i + 1)
        ≡ slice_index boundaries.new i + slice_index base.now i) }
    ensures too_large { IfNone result ((boundary : ℕ → ℕ) →
        slice_index boundaries.old from ≤ boundary from →
        AreSteps base.now from (length base.now) boundary → 2 ^ 64 ≤ boundary (length base.now)) }
{
    for i in from..to {
        boundaries[i + 1] = boundaries[i].checked_add(base[i])?;
    }
    Some(())
}

/// Lays the lowest positions of the boundaries; none where the last does not fit.
pub fn lay_lowest(boundaries: &mut [usize], base: &[usize], cells: &[Demand]) -> Option<()>
    requires one_more { length boundaries.old ≡ length base.now + 1 }
    requires first { slice_index boundaries.old 0 ≡ 0 }
    requires table { All (IsInTable (length base.now)) cells.now }
    requires sorted { IsNonDecreasingBy end_of cells.now }
    ensures length { IfSome result (λ done. length boundaries.new ≡ length boundaries.old) }
    ensures laid { IfSome result (λ done. AreLaid base.now cells.now (slice_index boundaries.new)) }
    ensures below { IfSome result (λ done. (boundary : ℕ → ℕ) →
        AreLaid base.now cells.now boundary →
        (i : ℕ) → i ≤ length base.now → slice_index boundaries.new i ≤ boundary i) }
    ensures too_large { IfNone result ((boundary : ℕ → ℕ) → AreLaid base.now cells.now boundary →
        2 ^ 64 ≤ boundary (length base.now)) }
{
    let mut laid = 0;
    for cell in cells {
        let end = cell.start + cell.span;
        lay(boundaries, base, laid, end)?;
        boundaries[end] = boundaries[end].max(boundaries[cell.start].checked_add(cell.minimum)?);
        laid = end;
    }
    lay(boundaries, base, laid, base.len())?;
    Some(())
}

/// Lays the boundaries before track `to` down to `from`, each before the next by the minimum size
/// of the track between alone.
fn lay_back(boundaries: &mut [usize], base: &[usize], from: usize, to: usize)
    requires one_more { length boundaries.old ≡ length base.now + 1 }
    requires ordered { from ≤ to }
    requires within { to ≤ length base.now }
    requires room { (boundary : ℕ → ℕ) × AreSteps base.now from to boundary
        × (boundary to ≤ slice_index boundaries.old to) }
    ensures length { length boundaries.new ≡ length boundaries.old }
    ensures after { (i : ℕ) → to ≤ i → slice_index boundaries.new i ≡ slice_index boundaries.old i }
    ensures laid { (i : ℕ) → from ≤ i → i < to →
        slice_index boundaries.new (i + 1) ≡ slice_index boundaries.new i + slice_index base.now i }
{
    for passed in 0..to - from {
        let i = to - passed;
        boundaries[i - 1] = boundaries[i] - base[i - 1];
    }
}

/// Lays the highest positions of the boundaries before the last, which stands.
pub fn lay_highest(boundaries: &mut [usize], base: &[usize], cells: &[Demand])
    requires one_more { length boundaries.old ≡ length base.now + 1 }
    requires table { All (IsInTable (length base.now)) cells.now }
    requires sorted { AreLaterFirst cells.now }
    requires room { (boundary : ℕ → ℕ) × AreLaid base.now cells.now boundary
        × (boundary (length base.now) ≤ slice_index boundaries.old (length base.now)) }
    ensures length { length boundaries.new ≡ length boundaries.old }
    ensures last { let count = length base.now in
        slice_index boundaries.new count ≡ slice_index boundaries.old count }
    ensures laid { AreLaid base.now cells.now (slice_index boundaries.new) }
    ensures above { (boundary : ℕ → ℕ) → AreLaid base.now cells.now boundary →
        boundary (length base.now) ≤ slice_index boundaries.old (length base.now) →
        (i : ℕ) → i ≤ length base.now → boundary i ≤ slice_index boundaries.new i }
{
    let mut laid = base.len();
    for cell in cells {
        lay_back(boundaries, base, cell.start, laid);
        let end = cell.start + cell.span;
        boundaries[cell.start] = boundaries[cell.start].min(boundaries[end] - cell.minimum);
        laid = cell.start;
    }
    lay_back(boundaries, base, 0, laid);
}
