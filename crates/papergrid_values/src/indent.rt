//! Room on one side of a cell or of the table. Source: `config/indent.rs`.

ghost use Rattle.std.specs.Prelude.{◌≡◌, ◌↔◌, IsTrue};

/// A fill character, and how many times it stands there.
#[derive(Clone, Copy, Debug, PartialEq, Eq, PartialOrd, Ord, Hash)]
pub struct Indent {
    pub fill: char,
    /// How many columns of a terminal (left, right) or lines (top, bottom) the fill takes.
    pub size: usize,
}

impl Indent {
    /// So many times this character.
    pub fn new(size: usize, fill: char) -> Indent
        ensures { result ≡ record { fill = fill; size = size } }
    {
        Indent { fill, size }
    }

    /// So many spaces.
    pub fn spaced(size: usize) -> Indent
        ensures { result ≡ record { fill = 32; size = size } }
    {
        Indent::new(size, ' ')
    }

    /// No room, with a space as its fill.
    pub fn zero() -> Indent
        ensures { result ≡ record { fill = 32; size = 0 } }
    {
        Indent::spaced(0)
    }

    /// Whether it takes no room.
    pub fn is_empty(&self) -> bool
        ensures { IsTrue result ↔ (self.now.size ≡ 0) }
    {
        self.size == 0
    }
}

impl Default for Indent {
    ghost is_default = { λ indent. indent ≡ record { fill = 32; size = 0 } };

    fn default() -> Indent {
        Indent::zero()
    }
}
