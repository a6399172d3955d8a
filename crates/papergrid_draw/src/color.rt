//! A colour that lends both of its texts.

ghost use Rattle.std.specs.Prelude.{◌≡◌, ℕ, List, []};
ghost use Rattle.papergrid_values.specs.Colors.{texts_of};

use papergrid_values::{ANSIBuf, ANSIStr, NoColor};

/// A colour that lends the text before what is coloured, and the one after it.
pub trait AsANSIStr {
    // Both texts.
    ghost texts: { Self → List ℕ × List ℕ };

    /// Both texts.
    fn as_ansi_str(&self) -> ANSIStr<'_>
        ensures { texts_of result ≡ texts self.now };
}

impl AsANSIStr for ANSIBuf {
    ghost texts = { λ color. color };

    fn as_ansi_str(&self) -> ANSIStr<'_> {
        self.as_ref()
    }
}

impl AsANSIStr for ANSIStr<'_> {
    ghost texts = { λ color. texts_of color };

    fn as_ansi_str(&self) -> ANSIStr<'_> {
        *self
    }
}

impl AsANSIStr for NoColor {
    ghost texts = { λ _. ([], []) };

    fn as_ansi_str(&self) -> ANSIStr<'_> {
        ANSIStr::empty()
    }
}

impl<C: AsANSIStr> AsANSIStr for &C {
    ghost texts = { λ color. C.texts color.now };

    fn as_ansi_str(&self) -> ANSIStr<'_> {
        C::as_ansi_str(*self)
    }
}
