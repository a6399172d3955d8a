//! The certificate that sizes are least.

ghost use Rattle.std.specs.Prelude.{◌≡◌, ◌↔◌, All, IfOk, IsTrue, false, true};
ghost use Rattle.papergrid_tracks.specs.Problem.{Problem};
ghost use Rattle.papergrid_tracks.specs.Sizings.{Certifies};
ghost use Rattle.papergrid_tracks.specs.declared.sizing.Sizing.TheVariants as sizings;
ghost use Rattle.papergrid_tracks.specs.ForProofs.LastCells.{IsLaminarInOrder};
ghost use Rattle.papergrid_tracks.specs.Ranges.{IsInTable};
ghost use Rattle.papergrid_tracks.specs.ForProofs.Demands.{AreGathered};
ghost use Rattle.papergrid_tracks.specs.ForProofs.Settled.{AreGrown};

use crate::certificate_cells::certifying_positions;
use crate::demand::Demand;
use crate::demands::Demands;
use crate::last_cells::are_laminar;
use papergrid_values::Position;
use std::alloc::{AllocError, Global};

/// Whether the range of each of the cells of a table of `count` tracks is part of those of all
/// later cells that it meets.
fn is_laminar_in_order(alloc: Global, count: usize, cells: &[Demand]) -> Result<bool, AllocError>
    requires { All (IsInTable count) cells.now }
    ensures { IfOk result (λ yes. IsTrue yes ↔ IsLaminarInOrder cells.now) }
{
    if cells.is_empty() {
        return Ok(true);
    }
    let mut last = vec![in alloc; None; count]?;
    Ok(are_laminar(&mut last, cells))
}

/// The certificate of the sizes, where it is asked for: the positions of the cells that certify
/// that they are least, by the starts of their ranges; none where two longer ranges are neither
/// nested nor disjoint.
pub fn certificate_of(
    alloc: Global,
    certify: bool,
    kept: &Demands,
    sizes: &[usize],
    cells: &[Demand],
    growing_cells: &[Demand],
) -> Result<Option<Vec<Position>>, AllocError>
    requires { (problem : Problem) × AreGathered problem.count kept.now problem.demands
        × AreGrown problem sizes.now cells.now growing_cells.now }
    ensures asked { (problem : Problem) → AreGathered problem.count kept.now problem.demands →
        AreGrown problem sizes.now cells.now growing_cells.now →
        certify ≡ true → IfOk result (Certifies sizings.ByShares problem) }
    ensures unasked { certify ≡ false → IfOk result (λ certificate. certificate ≡ None) }
{
    if !certify {
        return Ok(None);
    }
    if !is_laminar_in_order(alloc, sizes.len(), cells)? {
        return Ok(None);
    }
    let positions = certifying_positions(alloc, &kept.single_span, growing_cells, sizes)?;
    Ok(Some(positions))
}
