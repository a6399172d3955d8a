//! The boundaries between which those of least sizes lie.

ghost use Rattle.std.specs.Prelude.{All, IfErr, IfOk, length, slice_index, ℕ, ◌+◌, ◌<◌, ◌^◌, ◌≡◌, ◌≤◌};
ghost use Rattle.std.specs.List.Sorted.{IsNonDecreasingBy};
ghost use Rattle.papergrid_tracks.specs.ForProofs.Settled.{line_at};
ghost use Rattle.papergrid_tracks.specs.Ranges.{IsInTable, end_of};
ghost use Rattle.papergrid_tracks.specs.ForProofs.Laid.{AreLaid, AreLaterFirst};
ghost use Rattle.papergrid_tracks.specs.ForProofs.Limits.{AreAllTooLarge, AreLimitsOf, AreLowestBoundaries, AreHighestBoundaries, Refuses};

use crate::boundaries::{lay_highest, lay_lowest};
use crate::cells::{all_asking, sort_by_end, sort_later_first};
use crate::demand::Demand;
use crate::error::{LayoutError, LayoutResult};
use crate::lines::Lines;
use std::alloc::{AllocError, Global};

/// The lowest and the highest positions of the boundaries, and their total with all lines.
pub struct Limits {
    pub lowest_position: Vec<usize>,
    pub highest_position: Vec<usize>,
    pub total: usize,
}

// By hand: docs/DECISIONS.md, "Drops".
impl Drop for Limits {
    fn drop(self) {
        let Limits {
            lowest_position: _,
            highest_position: _,
            total: _,
        } = self;
    }
}

/// As many zeros, and then one more number.
fn zeros_and(alloc: Global, count: usize, last: usize) -> Result<Vec<usize>, AllocError>
    ensures length { IfOk result (λ boundaries. length boundaries.items ≡ count + 1) }
    ensures zeros { IfOk result (λ boundaries. (i : ℕ) → i < count →
        slice_index boundaries.items i ≡ 0) }
    ensures last { IfOk result (λ boundaries. slice_index boundaries.items count ≡ last) }
{
    let mut boundaries = vec![in alloc; 0; count]?;
    boundaries.push(last)?;
    Ok(boundaries)
}

/// The lowest positions of the boundaries, by the minimum size of each track alone and by
/// the cells of longer ranges.
fn lowest_of(alloc: Global, base: &[usize], cells: &[Demand]) -> LayoutResult<Vec<usize>>
    requires table { All (IsInTable (length base.now)) cells.now }
    requires sorted { IsNonDecreasingBy end_of cells.now }
    ensures lowest_position { IfOk result
        (λ boundaries. AreLowestBoundaries base.now cells.now boundaries.items) }
    ensures refused { IfErr result
        (Refuses ((boundary : ℕ → ℕ) → AreLaid base.now cells.now boundary →
        2 ^ 64 ≤ boundary (length base.now))) }
{
    let mut boundaries = zeros_and(alloc, base.len(), 0)?;
    match lay_lowest(&mut boundaries, base, cells) {
        Some(()) => Ok(boundaries),
        None => Err(LayoutError::TooLarge),
    }
}

/// The highest positions of the boundaries, where the last is at the total.
fn highest_of(
    alloc: Global,
    base: &[usize],
    cells: &[Demand],
    total: usize,
) -> Result<Vec<usize>, AllocError>
    requires table { All (IsInTable (length base.now)) cells.now }
    requires sorted { AreLaterFirst cells.now }
    requires room { (boundary : ℕ → ℕ) × AreLaid base.now cells.now boundary
        × (boundary (length base.now) ≤ total) }
    ensures { IfOk result (λ boundaries.
        AreHighestBoundaries base.now cells.now total boundaries.items) }
{
    let mut boundaries = zeros_and(alloc, base.len(), total)?;
    lay_highest(&mut boundaries, base, cells);
    Ok(boundaries)
}

/// The lowest and the highest positions of the boundaries, where the last, with all lines, fits.
pub fn limits_of(
    alloc: Global,
    lines: &Lines,
    base: &[usize],
    cells: &[Demand],
) -> LayoutResult<Limits>
    requires lines { length lines.now ≡ length base.now + 1 }
    requires table { All (IsInTable (length base.now)) cells.now }
    ensures limits { IfOk result (AreLimitsOf (line_at lines.now) base.now cells.now) }
    ensures refused { IfErr result
        (Refuses (AreAllTooLarge (line_at lines.now) base.now cells.now)) }
{
    let mut ordered = all_asking(alloc, lines, cells)?;
    sort_by_end(&mut ordered)?;
    let lowest_position = lowest_of(alloc, base, &ordered)?;
    let last = lowest_position[base.len()];
    let Some(total) = last.checked_add(lines.count()) else {
        return Err(LayoutError::TooLarge);
    };
    sort_later_first(&mut ordered)?;
    let highest_position = highest_of(alloc, base, &ordered, last)?;
    Ok(Limits {
        lowest_position,
        highest_position,
        total,
    })
}
