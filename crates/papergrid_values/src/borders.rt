//! The frame of a table. Source: `config/borders.rs`.

ghost use Rattle.std.specs.Prelude.{◌≡◌, Some, None};
ghost use Rattle.std.specs.List.{AllZip};
ghost use Rattle.papergrid_values.specs.Parts.{none_set, EachSet, PartsGive};
ghost use Rattle.papergrid_values.specs.Borders as frame;

use crate::parts::clone_part;
use std::alloc::AllocError;

/// The parts of a table's frame, each of which is set or not: its edges and corners, the lines
/// inside, and where they cross each other and the edges.
#[derive(Copy, Debug, Default, PartialEq, Eq, PartialOrd, Ord, Hash, Drop)]
pub struct Borders<T> {
    pub top: Option<T>,
    pub top_left: Option<T>,
    pub top_right: Option<T>,
    pub top_intersection: Option<T>,
    pub bottom: Option<T>,
    pub bottom_left: Option<T>,
    pub bottom_right: Option<T>,
    pub bottom_intersection: Option<T>,
    pub horizontal: Option<T>,
    pub vertical: Option<T>,
    pub intersection: Option<T>,
    pub left: Option<T>,
    pub left_intersection: Option<T>,
    pub right: Option<T>,
    pub right_intersection: Option<T>,
}

impl<T> Borders<T> {
    /// The frame with no part set.
    pub fn empty() -> Borders<T>
        ensures { result ≡ frame.frame_with None }
    {
        Borders {
            top: None,
            top_left: None,
            top_right: None,
            top_intersection: None,
            bottom: None,
            bottom_left: None,
            bottom_right: None,
            bottom_intersection: None,
            horizontal: None,
            vertical: None,
            intersection: None,
            left: None,
            left_intersection: None,
            right: None,
            right_intersection: None,
        }
    }

    /// The frame with each part set to the same value.
    pub fn filled(value: T) -> Borders<T>
    where
        T: Copy,
        ensures { result ≡ frame.frame_with (Some value) }
    {
        Borders {
            top: Some(value),
            top_left: Some(value),
            top_right: Some(value),
            top_intersection: Some(value),
            bottom: Some(value),
            bottom_left: Some(value),
            bottom_right: Some(value),
            bottom_intersection: Some(value),
            horizontal: Some(value),
            vertical: Some(value),
            intersection: Some(value),
            left: Some(value),
            left_intersection: Some(value),
            right: Some(value),
            right_intersection: Some(value),
        }
    }

    /// Whether no part is set.
    pub fn is_empty(&self) -> bool
        ensures { result ≡ none_set (frame.frame_parts self.now) }
    {
        self.top.is_none()
            && self.top_left.is_none()
            && self.top_right.is_none()
            && self.top_intersection.is_none()
            && self.bottom.is_none()
            && self.bottom_left.is_none()
            && self.bottom_right.is_none()
            && self.bottom_intersection.is_none()
            && self.horizontal.is_none()
            && self.vertical.is_none()
            && self.intersection.is_none()
            && self.left.is_none()
            && self.left_intersection.is_none()
            && self.right.is_none()
            && self.right_intersection.is_none()
    }

    /// Whether something is set on the left of the table.
    pub fn has_left(&self) -> bool
        ensures { result ≡ frame.has_left self.now }
    {
        self.left.is_some()
            || self.left_intersection.is_some()
            || self.top_left.is_some()
            || self.bottom_left.is_some()
    }

    /// Whether something is set on the right of the table.
    pub fn has_right(&self) -> bool
        ensures { result ≡ frame.has_right self.now }
    {
        self.right.is_some()
            || self.right_intersection.is_some()
            || self.top_right.is_some()
            || self.bottom_right.is_some()
    }

    /// Whether something is set at the top of the table.
    pub fn has_top(&self) -> bool
        ensures { result ≡ frame.has_top self.now }
    {
        self.top.is_some()
            || self.top_intersection.is_some()
            || self.top_left.is_some()
            || self.top_right.is_some()
    }

    /// Whether something is set at the bottom of the table.
    pub fn has_bottom(&self) -> bool
        ensures { result ≡ frame.has_bottom self.now }
    {
        self.bottom.is_some()
            || self.bottom_intersection.is_some()
            || self.bottom_left.is_some()
            || self.bottom_right.is_some()
    }

    /// Whether something is set between two rows.
    pub fn has_horizontal(&self) -> bool
        ensures { result ≡ frame.has_horizontal self.now }
    {
        self.horizontal.is_some()
            || self.left_intersection.is_some()
            || self.right_intersection.is_some()
            || self.intersection.is_some()
    }

    /// Whether something is set between two columns.
    pub fn has_vertical(&self) -> bool
        ensures { result ≡ frame.has_vertical self.now }
    {
        self.vertical.is_some()
            || self.top_intersection.is_some()
            || self.bottom_intersection.is_some()
            || self.intersection.is_some()
    }

    /// The frame with each part that is set converted.
    pub fn convert_into<U>(self) -> Borders<U>
    where
        U: From<T>,
        ensures { PartsGive U.from_gives (frame.frame_parts self) (frame.frame_parts result) }
    {
        self.map(
            |part: T| -> U
                ensures { U.from_gives part result }
            { U::from(part) },
        )
    }

    /// The frame with what `f` answers at each part that is set. Condition: `f` may be called
    /// there.
    pub fn map<F: Fn(T) -> U, U>(self, f: F) -> Borders<U>
        requires { EachSet (F.pre f) (frame.frame_parts self) }
        ensures { PartsGive (F.post f) (frame.frame_parts self) (frame.frame_parts result) }
    {
        Borders {
            top: self.top.map(&f),
            top_left: self.top_left.map(&f),
            top_right: self.top_right.map(&f),
            top_intersection: self.top_intersection.map(&f),
            bottom: self.bottom.map(&f),
            bottom_left: self.bottom_left.map(&f),
            bottom_right: self.bottom_right.map(&f),
            bottom_intersection: self.bottom_intersection.map(&f),
            horizontal: self.horizontal.map(&f),
            vertical: self.vertical.map(&f),
            intersection: self.intersection.map(&f),
            left: self.left.map(&f),
            left_intersection: self.left_intersection.map(&f),
            right: self.right.map(&f),
            right_intersection: self.right_intersection.map(&f),
        }
    }
}

// By hand: docs/DECISIONS.md, "Clones".
impl<T: Clone> Clone for Borders<T> {
    ghost is_clone = { λ x y.
        AllZip ⟦<Option<T> as Clone>⟧.is_clone (frame.frame_parts x) (frame.frame_parts y) };

    ghost is_infallible = { λ x. EachSet T.is_infallible (frame.frame_parts x) };

    fn clone(&self) -> Result<Borders<T>, AllocError> {
        let mut is_refused = false;
        let copy = Borders {
            top: clone_part(&self.top, &mut is_refused),
            top_left: clone_part(&self.top_left, &mut is_refused),
            top_right: clone_part(&self.top_right, &mut is_refused),
            top_intersection: clone_part(&self.top_intersection, &mut is_refused),
            bottom: clone_part(&self.bottom, &mut is_refused),
            bottom_left: clone_part(&self.bottom_left, &mut is_refused),
            bottom_right: clone_part(&self.bottom_right, &mut is_refused),
            bottom_intersection: clone_part(&self.bottom_intersection, &mut is_refused),
            horizontal: clone_part(&self.horizontal, &mut is_refused),
            vertical: clone_part(&self.vertical, &mut is_refused),
            intersection: clone_part(&self.intersection, &mut is_refused),
            left: clone_part(&self.left, &mut is_refused),
            left_intersection: clone_part(&self.left_intersection, &mut is_refused),
            right: clone_part(&self.right, &mut is_refused),
            right_intersection: clone_part(&self.right_intersection, &mut is_refused),
        };
        if is_refused {
            drop(copy);
            return Err(AllocError);
        }
        Ok(copy)
    }
}
