//! A line between columns. Source: `config/vertical_line.rs`.

ghost use Rattle.std.specs.Prelude.{◌≡◌, Some, None};
ghost use Rattle.papergrid_values.specs.Parts.{none_set};
ghost use Rattle.papergrid_values.specs.Lines.{vertical_parts, vertical_with};

/// The parts of a line between columns, each of which is set or not.
#[derive(Clone, Copy, Debug, Default, PartialEq, Eq, PartialOrd, Ord, Hash, Drop)]
pub struct VerticalLine<T> {
    /// The line itself.
    pub main: Option<T>,
    /// Where a line between rows crosses it.
    pub intersection: Option<T>,
    /// Its upper end.
    pub top: Option<T>,
    /// Its lower end.
    pub bottom: Option<T>,
}

impl<T> VerticalLine<T> {
    /// The line with these parts.
    pub fn new(
        main: Option<T>,
        intersection: Option<T>,
        top: Option<T>,
        bottom: Option<T>,
    ) -> VerticalLine<T>
        ensures { result ≡ record {
          main = main;
          intersection = intersection;
          top = top;
          bottom = bottom;
        } }
    {
        VerticalLine {
            main,
            intersection,
            top,
            bottom,
        }
    }

    /// The line with each part set.
    pub fn full(main: T, intersection: T, top: T, bottom: T) -> VerticalLine<T>
        ensures { result ≡ record {
          main = Some main;
          intersection = Some intersection;
          top = Some top;
          bottom = Some bottom;
        } }
    {
        VerticalLine::new(Some(main), Some(intersection), Some(top), Some(bottom))
    }

    /// The line with each part set to the same value.
    pub fn filled(value: T) -> VerticalLine<T>
    where
        T: Copy,
        ensures { result ≡ vertical_with (Some value) }
    {
        VerticalLine::full(value, value, value, value)
    }

    /// The line with no part set.
    pub fn empty() -> VerticalLine<T>
        ensures { result ≡ vertical_with None }
    {
        VerticalLine::new(None, None, None, None)
    }

    /// Whether no part is set.
    pub fn is_empty(&self) -> bool
        ensures { result ≡ none_set (vertical_parts self.now) }
    {
        self.main.is_none()
            && self.intersection.is_none()
            && self.top.is_none()
            && self.bottom.is_none()
    }
}
