//! The answer for a direction of a configuration, once all cells are kept.

ghost use Rattle.std.specs.Prelude.{List};
ghost use Rattle.papergrid_tracks.specs.Sizings.{Answers, IsSolvedBy};
ghost use Rattle.papergrid_tracks.specs.declared.sizing.Sizing.{Sizing};
ghost use Rattle.papergrid_tracks.specs.Problem.{problem_of_demands};
ghost use Rattle.papergrid_tracks.specs.declared.demand.Demand.{Demand};
ghost use Rattle.papergrid_tracks.specs.ForProofs.Demands.{AreGathered};
ghost use Rattle.papergrid_tracks.specs.ForProofs.LeastSettled.{CertifiesInOrder};

use crate::axis::Axis;
use crate::certificate::certificate_of;
use crate::demands::Demands;
use crate::error::{LayoutError, LayoutResult};
use crate::growing_cells::{checked_total, grow_all};
use crate::settled::{begin, by_span};
use papergrid_values::Position;
use std::alloc::Global;

/// What a solver finds of a table along a direction: the sizes of the tracks, their total with all
/// lines, and, where it is asked for, the certificate: the positions of the cells that show that no
/// sizes with room for each cell have a smaller total, by the starts of their ranges.
#[derive(Debug, Drop)]
pub struct Solved {
    pub sizes: Vec<usize>,
    pub total: usize,
    pub certificate: Option<Vec<Position>>,
}

/// A way to find sizes.
pub trait Solver {
    // How the sizes that it finds are chosen.
    ghost sizing: { Sizing };

    /// What the kept cells of a table of `count` tracks come to, with the lines of the axis.
    ///
    /// # Errors
    ///
    /// `OutOfTable` with the position of the first cell that overflows the table, else `TooLarge`
    /// where the sizes that are looked for come, with all lines, to more than the greatest `usize`.
    fn solve<A: Axis>(
        alloc: Global,
        count: usize,
        kept: &Demands,
        axis: &A,
        certify: bool,
    ) -> LayoutResult<Solved>
        requires { (demands : List Demand) × AreGathered count kept.now demands }
        ensures { (demands : List Demand) → AreGathered count kept.now demands →
            let problem = problem_of_demands (A.line axis.now) count demands in
            Answers sizing (IsSolvedBy sizing (CertifiesInOrder sizing) certify) problem result };
}

/// By shares: the deficit of a cell of a longer range is distributed evenly over it. There is
/// no certificate where two longer ranges are neither nested nor disjoint.
#[derive(Clone, Debug, PartialEq, Drop)]
pub struct ByShares {}

impl Solver for ByShares {
    ghost use Rattle.papergrid_tracks.specs.declared.sizing.Sizing.TheVariants as sizings;

    ghost sizing = { sizings.ByShares };

    fn solve<A: Axis>(
        alloc: Global,
        count: usize,
        kept: &Demands,
        axis: &A,
        certify: bool,
    ) -> LayoutResult<Solved> {
        let (mut sizes, lines) = begin(alloc, count, kept, axis)?;
        let cells = by_span(alloc, count, &kept.rest)?;
        let growing_cells = grow_all(alloc, &mut sizes, &lines, &cells)?;
        let Some(total) = checked_total(&sizes, &lines) else {
            return Err(LayoutError::TooLarge);
        };
        let certificate = certificate_of(alloc, certify, kept, &sizes, &cells, &growing_cells)?;
        Ok(Solved {
            sizes,
            total,
            certificate,
        })
    }
}
