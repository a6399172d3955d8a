//! The least sizes of the tracks of a table, and the cells that certify them.

ghost use Rattle.std.specs.Prelude.{IfOk, None, false, true, ◌≡◌};
ghost use Rattle.papergrid_tracks.specs.ForProofs.Demands.{AreGathered, StandInOrder};
ghost use Rattle.papergrid_tracks.specs.Problem.{Problem};
ghost use Rattle.papergrid_tracks.specs.ForProofs.LeastSettled.{AreLowestPositions, IsCriticalPathInOrder};
ghost use Rattle.papergrid_tracks.specs.LeastAnswers.{AreCriticalPath};

use crate::axis::Axis;
use crate::critical_path::{follow, mark_tight_cells};
use crate::demands::Demands;
use crate::error::LayoutResult;
use crate::least_sizes::make_least;
use crate::lines::Lines;
use crate::settled::begin;
use crate::solution::{Solved, Solver};
use papergrid_values::Position;
use std::alloc::{AllocError, Global};

/// The positions of the cells of the critical path, by the starts of their ranges.
fn critical_path_positions(
    alloc: Global,
    kept: &Demands,
    lines: &Lines,
    lowest_position: &[usize],
) -> Result<Vec<Position>, AllocError>
    requires small { kept.now.is_large ≡ false }
    requires lowest_position { (problem : Problem)
        × AreGathered problem.count kept.now problem.demands
        × AreLowestPositions problem lines.now lowest_position.now }
    ensures { (problem : Problem) → AreGathered problem.count kept.now problem.demands →
        AreLowestPositions problem lines.now lowest_position.now → StandInOrder problem.demands →
        IfOk result (λ positions. AreCriticalPath problem positions.items) }
{
    let mut tight_cells = vec![in alloc; None; lowest_position.len()]?;
    mark_tight_cells(&mut tight_cells, lowest_position, lines, &kept.rest);
    let mut positions = follow(alloc, lowest_position, &kept.single_span, &tight_cells)?;
    positions.reverse();
    Ok(positions)
}

/// The certificate of least sizes, where it is asked for.
fn certificate_of(
    alloc: Global,
    certify: bool,
    kept: &Demands,
    lines: &Lines,
    lowest_position: &[usize],
) -> Result<Option<Vec<Position>>, AllocError>
    requires small { kept.now.is_large ≡ false }
    requires lowest_position { (problem : Problem)
        × AreGathered problem.count kept.now problem.demands
        × AreLowestPositions problem lines.now lowest_position.now }
    ensures asked { (problem : Problem) → AreGathered problem.count kept.now problem.demands →
        AreLowestPositions problem lines.now lowest_position.now →
        certify ≡ true → IfOk result (IsCriticalPathInOrder problem) }
    ensures unasked { certify ≡ false → IfOk result (λ certificate. certificate ≡ None) }
{
    if !certify {
        return Ok(None);
    }
    let positions = critical_path_positions(alloc, kept, lines, lowest_position)?;
    Ok(Some(positions))
}

/// With the least total: there are no sizes only where none with room for each cell come with all lines
/// to at most the greatest `usize`. There always is a certificate.
#[derive(Clone, Debug, PartialEq, Drop)]
pub struct ByLeastTotal {}

impl Solver for ByLeastTotal {
    ghost use Rattle.papergrid_tracks.specs.declared.sizing.Sizing.TheVariants.{Least};

    ghost sizing = { Least };

    fn solve<A: Axis>(
        alloc: Global,
        count: usize,
        kept: &Demands,
        axis: &A,
        certify: bool,
    ) -> LayoutResult<Solved> {
        let (mut sizes, drawn) = begin(alloc, count, kept, axis)?;
        let lines = Lines::of(alloc, drawn)?;
        let limits = make_least(alloc, &lines, &mut sizes, &kept.rest)?;
        let certificate = certificate_of(alloc, certify, kept, &lines, &limits.lowest_position)?;
        Ok(Solved {
            sizes,
            total: limits.total,
            certificate,
        })
    }
}
