//! Writing a colour. Source: `ansi/mod.rs`.

ghost use Rattle.std.specs.Prelude.{List, ℕ, Option, Some, None, OnOk, IfSome};
ghost use Rattle.papergrid_values.specs.Colors.{reset_text, WritesOrResets};

use std::fmt;

/// A colour that writes a text before what is coloured, and one after it.
///
/// A type that has a suffix of its own tells it as `suffix_text`: `None` claims nothing.
pub trait ANSIFmt {
    // The text that the prefix writes in one piece, where the type tells it.
    ghost prefix_text: { Self → Option (List ℕ) } = { λ _. None };

    // The same of the suffix.
    ghost suffix_text: { Self → Option (List ℕ) } = { λ _. Some reset_text };

    /// Writes what stands before.
    fn fmt_ansi_prefix<W: fmt::Write>(&self, f: &mut W) -> fmt::Result
        ensures { OnOk result
            (IfSome (prefix_text self.now) (λ text. W.write_str_gives f.old text f.new)) };

    /// Writes what stands after: ESC and `[0m` for a type that has no suffix of its own.
    ///
    /// Since that body serves every type, all types share a contract that allows it.
    fn fmt_ansi_suffix<W: fmt::Write>(&self, f: &mut W) -> fmt::Result
        ensures allowed { OnOk result
            (WritesOrResets W.write_str_gives f.old (suffix_text self.now) f.new) }
    {
        f.write_str("\u{1b}[0m")
    }
}

impl<C: ANSIFmt> ANSIFmt for &C {
    ghost prefix_text = { λ color. C.prefix_text color.now };

    ghost suffix_text = { λ color. C.suffix_text color.now };

    fn fmt_ansi_prefix<W: fmt::Write>(&self, f: &mut W) -> fmt::Result {
        C::fmt_ansi_prefix(*self, f)
    }

    fn fmt_ansi_suffix<W: fmt::Write>(&self, f: &mut W) -> fmt::Result {
        C::fmt_ansi_suffix(*self, f)
    }
}
