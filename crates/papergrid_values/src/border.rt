//! The border of a cell. Source: `config/border.rs`.

ghost use Rattle.std.specs.Prelude.{◌≡◌, ◌↔◌, ◌∷◌, [], Some, None, map, option_copied, true, IsTrue, IsOk, IfOk};
ghost use Rattle.std.specs.List.{AllByRecursion, AllPairs, AllZip};
ghost use Rattle.std.specs.Option.{option_eq};
ghost use Rattle.papergrid_values.specs.Parts.{any_set, none_set, EachSet, PartsGive};
ghost use Rattle.papergrid_values.specs.Borders.{border_parts};

use crate::parts::{clone_part, cloned_part};
use std::alloc::AllocError;

/// The four edges and four corners of a cell, each of which is set or not.
#[derive(Copy, Debug, Default, PartialEq, Eq, PartialOrd, Ord, Hash, Drop)]
pub struct Border<T> {
    pub top: Option<T>,
    pub bottom: Option<T>,
    pub left: Option<T>,
    pub right: Option<T>,
    pub left_top_corner: Option<T>,
    pub left_bottom_corner: Option<T>,
    pub right_top_corner: Option<T>,
    pub right_bottom_corner: Option<T>,
}

impl<T> Border<T> {
    /// The border with these parts, in the order of the fields.
    pub fn new(
        top: Option<T>,
        bottom: Option<T>,
        left: Option<T>,
        right: Option<T>,
        left_top_corner: Option<T>,
        left_bottom_corner: Option<T>,
        right_top_corner: Option<T>,
        right_bottom_corner: Option<T>,
    ) -> Border<T>
        ensures { result ≡ record {
          top = top;
          bottom = bottom;
          left = left;
          right = right;
          left_top_corner = left_top_corner;
          left_bottom_corner = left_bottom_corner;
          right_top_corner = right_top_corner;
          right_bottom_corner = right_bottom_corner;
        } }
    {
        Border {
            top,
            bottom,
            left,
            right,
            left_top_corner,
            left_bottom_corner,
            right_top_corner,
            right_bottom_corner,
        }
    }

    /// The border with each part set: the edges, the two corners at the top, and the two at the
    /// bottom.
    pub fn full(
        top: T,
        bottom: T,
        left: T,
        right: T,
        top_left: T,
        top_right: T,
        bottom_left: T,
        bottom_right: T,
    ) -> Border<T>
        ensures { result ≡ record {
          top = Some top;
          bottom = Some bottom;
          left = Some left;
          right = Some right;
          left_top_corner = Some top_left;
          left_bottom_corner = Some bottom_left;
          right_top_corner = Some top_right;
          right_bottom_corner = Some bottom_right;
        } }
    {
        Border {
            top: Some(top),
            bottom: Some(bottom),
            left: Some(left),
            right: Some(right),
            left_top_corner: Some(top_left),
            left_bottom_corner: Some(bottom_left),
            right_top_corner: Some(top_right),
            right_bottom_corner: Some(bottom_right),
        }
    }

    /// The border with no part set.
    pub fn empty() -> Border<T>
        ensures { AllByRecursion (λ part. part ≡ None) (border_parts result) }
    {
        Border::new(None, None, None, None, None, None, None, None)
    }

    /// The border with each part set to the same value.
    pub fn filled(value: T) -> Border<T>
    where
        T: Copy,
        ensures { AllByRecursion (λ part. part ≡ Some value) (border_parts result) }
    {
        Border::full(value, value, value, value, value, value, value, value)
    }

    /// Whether no part is set.
    pub fn is_empty(&self) -> bool
        ensures { result ≡ none_set (border_parts self.now) }
    {
        self.top.is_none()
            && self.bottom.is_none()
            && self.left.is_none()
            && self.right.is_none()
            && self.left_top_corner.is_none()
            && self.left_bottom_corner.is_none()
            && self.right_top_corner.is_none()
            && self.right_bottom_corner.is_none()
    }

    /// Whether all parts are equal, each to each.
    pub fn is_same(&self) -> bool
    where
        T: PartialEq,
        ensures { IsTrue result ↔
            AllPairs (λ a b. option_eq T.eq a b ≡ true) (border_parts self.now) }
    {
        self.top == self.bottom
            && self.top == self.left
            && self.top == self.right
            && self.top == self.left_top_corner
            && self.top == self.left_bottom_corner
            && self.top == self.right_top_corner
            && self.top == self.right_bottom_corner
    }

    /// Whether the upper edge or one of its two corners is set.
    pub fn has_top(&self) -> bool
        ensures { result
            ≡ any_set (self.now.top ∷ self.now.left_top_corner ∷ self.now.right_top_corner ∷ []) }
    {
        self.top.is_some() || self.left_top_corner.is_some() || self.right_top_corner.is_some()
    }

    /// Whether the lower edge or one of its two corners is set.
    pub fn has_bottom(&self) -> bool
        ensures { result ≡ any_set
            (self.now.bottom ∷ self.now.left_bottom_corner ∷ self.now.right_bottom_corner ∷ []) }
    {
        self.bottom.is_some()
            || self.left_bottom_corner.is_some()
            || self.right_bottom_corner.is_some()
    }

    /// Whether the left edge or one of its two corners is set.
    pub fn has_left(&self) -> bool
        ensures { result ≡ any_set
            (self.now.left ∷ self.now.left_top_corner ∷ self.now.left_bottom_corner ∷ []) }
    {
        self.left.is_some() || self.left_top_corner.is_some() || self.left_bottom_corner.is_some()
    }

    /// Whether the right edge or one of its two corners is set.
    pub fn has_right(&self) -> bool
        ensures { result ≡ any_set
            (self.now.right ∷ self.now.right_top_corner ∷ self.now.right_bottom_corner ∷ []) }
    {
        self.right.is_some()
            || self.right_top_corner.is_some()
            || self.right_bottom_corner.is_some()
    }

    /// The border with what `f` answers at each part that is set. Condition: `f` may be called
    /// there.
    pub fn map<F: Fn(T) -> U, U>(self, f: F) -> Border<U>
        requires { EachSet (F.pre f) (border_parts self) }
        ensures { PartsGive (F.post f) (border_parts self) (border_parts result) }
    {
        Border {
            top: self.top.map(&f),
            bottom: self.bottom.map(&f),
            left: self.left.map(&f),
            right: self.right.map(&f),
            left_top_corner: self.left_top_corner.map(&f),
            left_bottom_corner: self.left_bottom_corner.map(&f),
            right_top_corner: self.right_top_corner.map(&f),
            right_bottom_corner: self.right_bottom_corner.map(&f),
        }
    }

    /// The border with each part that is set converted.
    pub fn convert<B: From<T>>(self) -> Border<B>
        ensures { PartsGive B.from_gives (border_parts self) (border_parts result) }
    {
        self.map(
            |part: T| -> B
                ensures { B.from_gives part result }
            { B::from(part) },
        )
    }
}

// By hand: docs/DECISIONS.md, "Clones".
impl<T: Clone> Clone for Border<T> {
    ghost is_clone = { λ x y.
        AllZip ⟦<Option<T> as Clone>⟧.is_clone (border_parts x) (border_parts y) };

    ghost is_infallible = { λ x. EachSet T.is_infallible (border_parts x) };

    fn clone(&self) -> Result<Border<T>, AllocError> {
        let mut is_refused = false;
        let copy = Border {
            top: clone_part(&self.top, &mut is_refused),
            bottom: clone_part(&self.bottom, &mut is_refused),
            left: clone_part(&self.left, &mut is_refused),
            right: clone_part(&self.right, &mut is_refused),
            left_top_corner: clone_part(&self.left_top_corner, &mut is_refused),
            left_bottom_corner: clone_part(&self.left_bottom_corner, &mut is_refused),
            right_top_corner: clone_part(&self.right_top_corner, &mut is_refused),
            right_bottom_corner: clone_part(&self.right_bottom_corner, &mut is_refused),
        };
        if is_refused {
            drop(copy);
            return Err(AllocError);
        }
        Ok(copy)
    }
}

impl<T> Border<&T> {
    /// The border with a copy of each part that is lent.
    pub fn copied(&self) -> Border<T>
    where
        T: Copy,
        ensures { border_parts result ≡ map option_copied (border_parts self.now) }
    {
        Border {
            top: self.top.copied(),
            bottom: self.bottom.copied(),
            left: self.left.copied(),
            right: self.right.copied(),
            left_top_corner: self.left_top_corner.copied(),
            left_bottom_corner: self.left_bottom_corner.copied(),
            right_top_corner: self.right_top_corner.copied(),
            right_bottom_corner: self.right_bottom_corner.copied(),
        }
    }

    /// The border with a clone of each part that is lent, or out of memory where a clone is.
    /// It equals the parts lent where clones of them do.
    pub fn cloned(&self) -> Result<Border<T>, AllocError>
    where
        T: Clone,
        ensures clones { IfOk result (λ border.
            PartsGive (λ part copy. T.is_clone part.now copy)
            (border_parts self.now) (border_parts border)) }
        ensures equal { ((x y : T) → T.is_clone x y → y ≡ x) →
            IfOk result (λ border.
            border_parts border ≡ map option_copied (border_parts self.now)) }
        ensures succeeds { EachSet (λ part. T.is_infallible part.now) (border_parts self.now) →
            IsOk result }
    {
        let mut is_refused = false;
        let copy = Border {
            top: cloned_part(self.top, &mut is_refused),
            bottom: cloned_part(self.bottom, &mut is_refused),
            left: cloned_part(self.left, &mut is_refused),
            right: cloned_part(self.right, &mut is_refused),
            left_top_corner: cloned_part(self.left_top_corner, &mut is_refused),
            left_bottom_corner: cloned_part(self.left_bottom_corner, &mut is_refused),
            right_top_corner: cloned_part(self.right_top_corner, &mut is_refused),
            right_bottom_corner: cloned_part(self.right_bottom_corner, &mut is_refused),
        };
        if is_refused {
            drop(copy);
            return Err(AllocError);
        }
        Ok(copy)
    }
}
