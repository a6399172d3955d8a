//! The sizes that a dimension keeps along a direction.

ghost use Rattle.std.specs.Prelude.{◌≡◌, ◌<◌, [], Err, MatchResult, Ok, length, slice_index};

use crate::error::LayoutResult;
use crate::solution::Solved;
use papergrid_values::PerDirection;
use std::alloc::{AllocError, Global};
use std::marker::Model;

/// A size for each track.
#[derive(Debug, Drop)]
pub struct SizeList {
    sizes: Vec<usize>,
}

impl Model for SizeList {
    ghost use Rattle.std.specs.Prelude.{List, ℕ};

    ghost Value = { List ℕ };

    ghost view = { λ s. s.sizes.items };
}

impl SizeList {
    /// No sizes. It does not allocate.
    pub fn new(alloc: Global) -> SizeList
        ensures { result ≡ [] }
    {
        SizeList {
            sizes: Vec::new(alloc),
        }
    }

    pub fn of(sizes: Vec<usize>) -> SizeList
        ensures { result ≡ sizes.items }
    {
        SizeList { sizes }
    }

    pub fn get(&self, index: usize) -> usize
        requires { index < length self.now }
        ensures { result ≡ slice_index self.now index }
    {
        self.sizes[index]
    }

    pub fn into_vec(self) -> Vec<usize>
        ensures { result.items ≡ self }
    {
        let SizeList { sizes } = self;
        sizes
    }
}

impl Clone for SizeList {
    ghost is_clone = { λ x y. y ≡ x };

    fn clone(&self) -> Result<SizeList, AllocError> {
        Ok(SizeList {
            sizes: self.sizes.clone()?,
        })
    }
}

impl PartialEq for SizeList {
    ghost use Rattle.std.specs.Prelude.{nat_eq};
    ghost use Rattle.std.specs.Cmp.{nat_eq_equiv, partial_equiv_from_equiv};
    ghost use Rattle.std.specs.Cmp.Lexicographic.{lists_per, pointwise};

    ghost eq = { pointwise nat_eq };

    ghost laws = { lists_per (partial_equiv_from_equiv nat_eq_equiv) };

    fn eq(&self, other: &SizeList) -> bool {
        self.sizes == other.sizes
    }
}

/// Takes the sizes that were found of the columns and of the rows.
///
/// # Errors
///
/// That of `found`, where there are no sizes. The widths and heights stay as they are then.
pub fn replace_sizes(
    widths: &mut SizeList,
    heights: &mut SizeList,
    found: LayoutResult<PerDirection<Solved>>,
) -> LayoutResult<()>
    ensures { MatchResult found
        (λ sizes. (result ≡ Ok tt) × (widths.new ≡ sizes.columns.sizes.items)
        × (heights.new ≡ sizes.rows.sizes.items))
        (λ error. (result ≡ Err error) × (widths.new ≡ widths.old) × (heights.new ≡ heights.old)) }
{
    match found {
        Ok(found) => {
            let PerDirection { columns, rows } = found;
            *widths = SizeList::of(columns.sizes);
            *heights = SizeList::of(rows.sizes);
            Ok(())
        }
        Err(error) => Err(error),
    }
}
