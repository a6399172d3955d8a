//! The greatest end over each column, where ranges of columns are raised: each raise and each
//! look in time of the logarithm of the columns.

ghost use Rattle.std.specs.Prelude.{◌&&◌, ◌==◌, ◌≡◌, ℕ, ◌+◌, ◌/◌, ◌<◌, ◌≤◌, IfOk, if◌then◌else◌, length, slice_index, vec_len};
ghost use Rattle.papergrid_walk.specs.ForProofs.MaxTree.{end_at, HasLevels, greater, is_side, raised_end};

use std::alloc::{AllocError, Global};

/// The first level has an end for each column, the next one for each two columns, and so on. The
/// end of a column is the greatest of those that the levels have over it.
#[derive(Drop)]
pub enum MaxTree {
    Top,
    Level(Vec<usize>, Box<MaxTree>),
}

impl MaxTree {
    /// The end 0 over each of so many columns. It takes memory for twice as many numbers at most.
    pub fn new(alloc: Global, columns: usize) -> Result<MaxTree, AllocError>
        ensures fits { IfOk result (λ max_tree. HasLevels max_tree columns) }
        ensures empty { IfOk result (λ max_tree. (column : ℕ) → end_at max_tree column ≡ 0) }
    {
        if columns == 0 {
            return Ok(MaxTree::Top);
        }
        let ends = vec![in alloc; 0; columns]?;
        let above = MaxTree::new(alloc, columns / 2)?;
        Ok(MaxTree::Level(ends, Box::new(alloc, above)?))
    }

    /// The greatest end over the column, or 0.
    pub fn end_at(&self, column: usize) -> usize
        ensures { result ≡ end_at self.now column }
    {
        match self {
            MaxTree::Top => 0,
            MaxTree::Level(ends, above) => {
                let end = if column < ends.len() { ends[column] } else { 0 };
                greater(end, above.end_at(column / 2))
            }
        }
    }

    /// Raises the columns from `first` to before `last` to `end`, where they were below it.
    pub fn raise(&mut self, first: usize, last: usize, end: usize)
        requires { HasLevels self.old last }
        ensures raised { (column : ℕ) →
            end_at self.new column ≡ raised_end first last end (end_at self.old column) column }
        ensures fits { (columns : ℕ) → HasLevels self.old columns → HasLevels self.new columns }
    {
        match self {
            MaxTree::Top => {}
            MaxTree::Level(ends, above) => {
                if first < last {
                    raise_sides(ends, first, last, end);
                    above.raise(first / 2 + first % 2, last / 2, end);
                }
            }
        }
    }
}

// Raises the columns at the two sides of the range that the pairs of the next level leave out.
fn raise_sides(ends: &mut Vec<usize>, first: usize, last: usize, end: usize)
    requires { last ≤ vec_len ends.old }
    ensures length { vec_len ends.new ≡ vec_len ends.old }
    ensures sides { (column : ℕ) → let old = slice_index ends.old.items column in
        slice_index ends.new.items column ≡
        (if is_side first last column then greater old end else old) }
{
    if first < last {
        raise_side(ends, first % 2 == 1, first, end);
        raise_side(ends, last % 2 == 1, last - 1, end);
    }
}

// Raises a column, where the pairs leave it out.
#[inline(always)]
fn raise_side(ends: &mut Vec<usize>, is_left_out: bool, side: usize, end: usize)
    requires { side < vec_len ends.old }
    ensures length { vec_len ends.new ≡ vec_len ends.old }
    ensures side { (column : ℕ) → let old = slice_index ends.old.items column in
        slice_index ends.new.items column ≡
        (if is_left_out && column == side then greater old end else old) }
{
    if is_left_out {
        ends[side] = greater(ends[side], end);
    }
}

// The greater of two.
fn greater(a: usize, b: usize) -> usize
    ensures { result ≡ greater a b }
{
    if a < b { b } else { a }
}
