//! The cells of longer ranges with what they ask, in the orders in which boundaries are laid.

ghost use Rattle.std.specs.Prelude.{All, IfOk, OnOk, length, map, ◌<◌, ◌^◌, ◌≡◌};
ghost use Rattle.std.specs.List.Sorted.{IsNonDecreasingBy, IsPermutation};
ghost use Rattle.papergrid_tracks.specs.ForProofs.Settled.{line_at};
ghost use Rattle.papergrid_tracks.specs.Ranges.{IsInTable, end_of};
ghost use Rattle.papergrid_tracks.specs.TrackBoundaries.{net_minimum};
ghost use Rattle.papergrid_tracks.specs.ForProofs.Laid.{AreLaterFirst, with_net_minimum};

use crate::demand::Demand;
use crate::lines::Lines;
use std::alloc::{AllocError, Global};

/// The cell with what it asks in place of its minimum size.
pub fn asking(lines: &Lines, demand: Demand) -> Demand
    requires { IsInTable (length lines.now) demand }
    ensures { result ≡ with_net_minimum (net_minimum (line_at lines.now)) demand }
{
    let minimum = demand.minimum.saturating_sub(lines.within(demand));
    Demand { minimum, ..demand }
}

/// The cells with what they ask in place of their minimum sizes.
pub fn all_asking(
    alloc: Global,
    lines: &Lines,
    demands: &[Demand],
) -> Result<Vec<Demand>, AllocError>
    requires { All (IsInTable (length lines.now)) demands.now }
    ensures { IfOk result (λ cells.
        cells.items ≡ map (with_net_minimum (net_minimum (line_at lines.now))) demands.now) }
{
    let mut cells = Vec::new(alloc);
    for demand in demands {
        cells.push(asking(lines, *demand))?;
    }
    Ok(cells)
}

/// Sorts the cells by where their ranges end.
pub fn sort_by_end(cells: &mut Vec<Demand>) -> Result<(), AllocError>
    requires { All (λ d. end_of d < 2 ^ 64) cells.old.items }
    ensures permutation { OnOk result (IsPermutation cells.old.items cells.new.items) }
    ensures sorted { OnOk result (IsNonDecreasingBy end_of cells.new.items) }
{
    cells.sort_by_key(|cell| cell.start.saturating_add(cell.span))?;
    Ok(())
}

/// Sorts the cells by where their ranges start, the last first.
pub fn sort_later_first(cells: &mut Vec<Demand>) -> Result<(), AllocError>
    requires { All (λ d. end_of d < 2 ^ 64) cells.old.items }
    ensures permutation { OnOk result (IsPermutation cells.old.items cells.new.items) }
    ensures sorted { OnOk result (AreLaterFirst cells.new.items) }
{
    cells.sort_by_key(|cell| usize::MAX - cell.start)?;
    Ok(())
}
