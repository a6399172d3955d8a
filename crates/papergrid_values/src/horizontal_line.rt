//! A line between rows. Source: `config/horizontal_line.rs`.

ghost use Rattle.std.specs.Prelude.{◌≡◌, Some, None};
ghost use Rattle.papergrid_values.specs.Parts.{none_set};
ghost use Rattle.papergrid_values.specs.Lines.{horizontal_parts, horizontal_with};

/// The parts of a line between rows, each of which is set or not.
#[derive(Clone, Copy, Debug, Default, PartialEq, Eq, PartialOrd, Ord, Hash, Drop)]
pub struct HorizontalLine<T> {
    /// The line itself.
    pub main: Option<T>,
    /// Where a line between columns crosses it.
    pub intersection: Option<T>,
    /// Its left end.
    pub left: Option<T>,
    /// Its right end.
    pub right: Option<T>,
}

impl<T> HorizontalLine<T> {
    /// The line with these parts.
    pub fn new(
        main: Option<T>,
        intersection: Option<T>,
        left: Option<T>,
        right: Option<T>,
    ) -> HorizontalLine<T>
        ensures { result ≡ record {
          main = main;
          intersection = intersection;
          left = left;
          right = right;
        } }
    {
        HorizontalLine {
            main,
            intersection,
            left,
            right,
        }
    }

    /// The line with each part set.
    pub fn full(main: T, intersection: T, left: T, right: T) -> HorizontalLine<T>
        ensures { result ≡ record {
          main = Some main;
          intersection = Some intersection;
          left = Some left;
          right = Some right;
        } }
    {
        HorizontalLine::new(Some(main), Some(intersection), Some(left), Some(right))
    }

    /// The line with each part set to the same value.
    pub fn filled(value: T) -> HorizontalLine<T>
    where
        T: Copy,
        ensures { result ≡ horizontal_with (Some value) }
    {
        HorizontalLine::full(value, value, value, value)
    }

    /// The line with no part set.
    pub fn empty() -> HorizontalLine<T>
        ensures { result ≡ horizontal_with None }
    {
        HorizontalLine::new(None, None, None, None)
    }

    /// Whether no part is set.
    pub fn is_empty(&self) -> bool
        ensures { result ≡ none_set (horizontal_parts self.now) }
    {
        self.main.is_none()
            && self.intersection.is_none()
            && self.left.is_none()
            && self.right.is_none()
    }
}
