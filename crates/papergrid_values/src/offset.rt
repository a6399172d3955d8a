//! An offset in a text, counted from one of its ends. Source: `config/offset.rs`.

ghost use Rattle.std.specs.Prelude.{◌≡◌};
ghost use Rattle.papergrid_values.specs.Offsets.{offset_of};
ghost use Rattle.papergrid_values.specs.declared.offset.Offset.TheVariants.{Start};

/// An offset from the start of a text, or from its end.
///
/// A signed number is one from the start where it is 0 or more, and else one from the end, of its
/// magnitude.
#[derive(Clone, Copy, Debug, PartialEq, Eq, PartialOrd, Ord, Hash)]
pub enum Offset {
    /// So far from the start.
    Start(usize),
    /// So far from the end.
    End(usize),
}

impl From<isize> for Offset {
    ghost from_gives = { λ number offset. offset ≡ offset_of number };

    fn from(number: isize) -> Offset {
        Offset::from(number as i64)
    }
}

impl From<i32> for Offset {
    ghost from_gives = { λ number offset. offset ≡ offset_of number };

    fn from(number: i32) -> Offset {
        Offset::from(i64::from(number))
    }
}

impl From<i64> for Offset {
    ghost from_gives = { λ number offset. offset ≡ offset_of number };

    fn from(number: i64) -> Offset {
        if number >= 0 {
            Offset::Start(number as usize)
        } else {
            Offset::End(number.unsigned_abs() as usize)
        }
    }
}

impl From<usize> for Offset {
    ghost from_gives = { λ number offset. offset ≡ Start number };

    fn from(number: usize) -> Offset {
        Offset::Start(number)
    }
}
