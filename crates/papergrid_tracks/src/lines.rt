//! The lines of a table along a direction, counted.

ghost use Rattle.std.specs.Prelude.{IfOk, count_by, length, ◌≡◌};
ghost use Rattle.papergrid_tracks.specs.ForProofs.Settled.{line_at};
ghost use Rattle.papergrid_tracks.specs.Ranges.{IsInTable, inner_lines};
ghost use Rattle.papergrid_tracks.specs.ForProofs.Counts.{AreCountsBefore};

use crate::demand::Demand;
use std::alloc::{AllocError, Global};
use std::marker::Model;

/// Whether there is a line before each number and after the last. Those inside of a range are counted by a look at its
/// ends.
#[derive(Drop)]
pub struct Lines {
    drawn: Vec<bool>,
    /// How many there are before each number, and in all.
    counts: Vec<usize>,
}

impl Model for Lines {
    ghost use Rattle.std.specs.Prelude.{Bool, List};
    ghost use Rattle.papergrid_tracks.specs.ForProofs.Counts.{AreCountsBefore};

    ghost Value = { List Bool };

    ghost view = { λ lines. lines.drawn.items };

    ghost invariant = { λ lines. AreCountsBefore lines.drawn.items lines.counts.items };
}

/// How many lines there are before each number, and in all.
fn counts_of(alloc: Global, drawn: &[bool]) -> Result<Vec<usize>, AllocError>
    ensures { IfOk result (λ counts. AreCountsBefore drawn.now counts.items) }
{
    let mut counts = Vec::new(alloc);
    let mut count = 0;
    for is_drawn in drawn {
        counts.push(count)?;
        if *is_drawn {
            count += 1;
        }
    }
    counts.push(count)?;
    Ok(counts)
}

impl Lines {
    /// These lines.
    pub fn of(alloc: Global, drawn: Vec<bool>) -> Result<Lines, AllocError>
        ensures { IfOk result (λ lines. lines ≡ drawn.items) }
    {
        let counts = counts_of(alloc, &drawn)?;
        Ok(Lines { drawn, counts })
    }

    /// Whether there is one before each number and after the last.
    pub fn drawn(&self) -> &[bool]
        ensures { result.now ≡ self.now }
    {
        &self.drawn
    }

    /// How many there are strictly inside of the range of a cell.
    pub fn within(&self, demand: Demand) -> usize
        requires { IsInTable (length self.now) demand }
        ensures { result ≡ inner_lines (line_at self.now) demand }
    {
        self.counts[demand.start + demand.span] - self.counts[demand.start + 1]
    }

    /// How many there are in all.
    pub fn count(&self) -> usize
        ensures { result ≡ count_by (λ drawn. drawn) self.now }
    {
        self.counts[self.drawn.len()]
    }
}
