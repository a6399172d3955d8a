//! A filter of positions: most of those that are not among given ones are told at once.

ghost use Rattle.std.specs.Prelude.{◌≡◌, ◌<◌, ◌≤◌, All, IfOk, length, slice_index_or, false, true};
ghost use Rattle.papergrid_walk.specs.ForProofs.Filters.{passes, slot};

use papergrid_values::Position;
use std::alloc::{AllocError, Global};

// Marks for each position that is given: the more, the fewer others share one of theirs.
const MARKS: usize = 8;

/// Marks of given positions. A position whose mark is not set is none of them; another one may be (a Bloom
/// filter of one hash).
#[derive(Drop)]
pub struct PositionFilter {
    pub marks: Vec<bool>,
}

impl PositionFilter {
    /// The filter that these positions pass. For none it does not allocate, and nothing passes.
    pub fn new(alloc: Global, positions: &[Position]) -> Result<PositionFilter, AllocError>
        ensures { IfOk result (λ filter. All (λ p. passes filter p ≡ true) positions.now) }
    {
        let mut marks = vec![in alloc; false; positions.len().saturating_mul(MARKS)]?;
        set_marks(&mut marks, positions);
        Ok(PositionFilter { marks })
    }

    /// Whether the position passes.
    pub fn passes(&self, position: Position) -> bool
        ensures { result ≡ passes self.now position }
    {
        if self.marks.is_empty() {
            return false;
        }
        self.marks[slot(self.marks.len(), position)]
    }
}

/// Which of so many marks is that of a position.
fn slot(count: usize, position: Position) -> usize
    requires { 0 < count }
    ensures value { result ≡ slot count position }
    ensures within { result < count }
{
    position.row.wrapping_mul(31).wrapping_add(position.col) % count
}

/// Sets the marks of the positions.
fn set_marks(marks: &mut [bool], positions: &[Position])
    requires { length positions.now ≤ length marks.old }
    ensures length { length marks.new ≡ length marks.old }
    ensures set { All (λ p.
        slice_index_or marks.new (slot (length marks.new) p) false ≡ true) positions.now }
{
    for position in positions {
        let at = slot(marks.len(), *position);
        marks[at] = true;
    }
}
