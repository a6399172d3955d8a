//! The least sizes, from the minimum size of each track alone and the cells of longer ranges.

ghost use Rattle.std.specs.Prelude.{All, IfErr, IfOk, fold, length, min, slice_index, ◌+◌, ◌≡◌};
ghost use Rattle.papergrid_tracks.specs.ForProofs.Settled.{line_at};
ghost use Rattle.papergrid_tracks.specs.Ranges.{IsInTable};
ghost use Rattle.papergrid_tracks.specs.Sizes.{grown_sizes, by_span};
ghost use Rattle.papergrid_tracks.specs.TrackBoundaries.{boundaries_of, sizes_between};
ghost use Rattle.papergrid_tracks.specs.ForProofs.Limits.{AreAllTooLarge, AreLimitsOf, Refuses};

use crate::demand::Demand;
use crate::error::LayoutResult;
use crate::growing_cells::grow_all;
use crate::limits::{Limits, limits_of};
use crate::lines::Lines;
use crate::lower::lower_boundaries;
use crate::settled::by_span;
use std::alloc::Global;

/// Makes of the minimum size of each track alone the sizes by shares, and of these the least ones;
/// gives the boundaries between which theirs lie.
pub fn make_least(
    alloc: Global,
    lines: &Lines,
    sizes: &mut [usize],
    cells: &[Demand],
) -> LayoutResult<Limits>
    requires lines { length lines.now ≡ length sizes.old + 1 }
    requires table { All (IsInTable (length sizes.old)) cells.now }
    ensures limits { IfOk result (AreLimitsOf (line_at lines.now) sizes.old cells.now) }
    ensures sizes { let line = line_at lines.now in
        let count = length sizes.old in
        let shares = fold (grown_sizes line) sizes.old (by_span count cells.now) in
        IfOk result (λ limits. sizes.new ≡
        sizes_between count (λ i. min (boundaries_of shares i)
        (slice_index limits.highest_position.items i))) }
    ensures refused { IfErr result
        (Refuses (AreAllTooLarge (line_at lines.now) sizes.old cells.now)) }
{
    let limits = limits_of(alloc, lines, sizes, cells)?;
    let longer = by_span(alloc, sizes.len(), cells)?;
    let _ = grow_all(alloc, sizes, lines.drawn(), &longer)?;
    lower_boundaries(sizes, &limits.highest_position);
    Ok(limits)
}
