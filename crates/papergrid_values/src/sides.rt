//! A value for each side. Source: `config/sides.rs`.

ghost use Rattle.std.specs.Prelude.{◌≡◌, [], ◌∷◌};
ghost use Rattle.papergrid_values.specs.Keys.{sides_parts};
ghost use Rattle.papergrid_values.specs.Parts.{none_set};
ghost use Rattle.papergrid_values.specs.Folds.{CanFold, Folds};

/// A value for each of the four sides.
#[derive(Clone, Copy, Debug, Default, PartialEq, Eq, PartialOrd, Ord, Hash, Drop)]
pub struct Sides<T> {
    pub top: T,
    pub bottom: T,
    pub left: T,
    pub right: T,
}

impl<T> Sides<T> {
    /// The sides with these values, left and right first.
    pub fn new(left: T, right: T, top: T, bottom: T) -> Sides<T>
        ensures { result ≡ record { top = top; bottom = bottom; left = left; right = right } }
    {
        Sides {
            top,
            bottom,
            left,
            right,
        }
    }

    /// The same value on each side.
    pub fn filled(value: T) -> Sides<T>
    where
        T: Copy,
        ensures { result ≡ record { top = value; bottom = value; left = value; right = value } }
    {
        Sides::new(value, value, value, value)
    }

    /// The sides with each value converted.
    pub fn convert_into<U>(self) -> Sides<U>
    where
        T: Into<U>,
        ensures left { T.converts self.left result.left }
        ensures right { T.converts self.right result.right }
        ensures top { T.converts self.top result.top }
        ensures bottom { T.converts self.bottom result.bottom }
    {
        Sides::new(
            self.left.into(),
            self.right.into(),
            self.top.into(),
            self.bottom.into(),
        )
    }

    /// The sides with what `f` answers at each value. Condition: `f` may be called there.
    pub fn map<F: Fn(T) -> U, U>(self, f: F) -> Sides<U>
        requires left { F.pre f self.left }
        requires right { F.pre f self.right }
        requires top { F.pre f self.top }
        requires bottom { F.pre f self.bottom }
        ensures left { F.post f self.left result.left }
        ensures right { F.post f self.right result.right }
        ensures top { F.post f self.top result.top }
        ensures bottom { F.post f self.bottom result.bottom }
    {
        Sides::new(f(self.left), f(self.right), f(self.top), f(self.bottom))
    }

    /// What `f` answers in the end: at the first value and left, and then at each answer and the
    /// next of right, top and bottom. Condition: `f` may be called at each of these steps.
    pub fn fold<B, F: FnMut(B, T) -> B>(self, first: B, mut f: F) -> B
        requires { CanFold F.pre F.step f first
            (self.left ∷ self.right ∷ self.top ∷ self.bottom ∷ []) }
        ensures { Folds F.step f first
            (self.left ∷ self.right ∷ self.top ∷ self.bottom ∷ []) result }
    {
        let after_left = f(first, self.left);
        let after_right = f(after_left, self.right);
        let after_top = f(after_right, self.top);
        f(after_top, self.bottom)
    }
}

impl<T> Sides<Option<T>> {
    /// Whether no side is set.
    pub fn is_empty(&self) -> bool
        ensures { result ≡ none_set (sides_parts self.now) }
    {
        self.top.is_none() && self.bottom.is_none() && self.left.is_none() && self.right.is_none()
    }
}
