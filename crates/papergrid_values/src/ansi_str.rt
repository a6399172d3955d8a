//! A borrowed colour. Source: `ansi/ansi_str.rs`.

ghost use Rattle.std.specs.Prelude.{◌≡◌, ◌↔◌, [], Some, IsTrue, OnOk};
ghost use Rattle.papergrid_values.specs.Colors.{texts_of, WritesOrResets};

use crate::ansi_fmt::ANSIFmt;
use std::fmt;

/// A colour as two texts, which are borrowed. What they say is not checked.
#[derive(Clone, Copy, Debug, Default, PartialEq, Eq, PartialOrd, Ord, Hash)]
pub struct ANSIStr<'a> {
    prefix: &'a str,
    suffix: &'a str,
}

impl<'a> ANSIStr<'a> {
    /// The colour with these texts.
    pub fn new(prefix: &'a str, suffix: &'a str) -> ANSIStr<'a>
        ensures { texts_of result ≡ (prefix.now, suffix.now) }
    {
        ANSIStr { prefix, suffix }
    }

    /// The colour with two empty texts.
    pub fn empty() -> ANSIStr<'a>
        ensures { texts_of result ≡ ([], []) }
    {
        ANSIStr::new("", "")
    }

    /// Whether both texts are empty.
    pub fn is_empty(&self) -> bool
        ensures { IsTrue result ↔ (texts_of self.now ≡ ([], [])) }
    {
        self.prefix.is_empty() && self.suffix.is_empty()
    }

    /// The text before what is coloured.
    pub fn get_prefix(&self) -> &'a str
        ensures { result.now ≡ (texts_of self.now).0 }
    {
        self.prefix
    }

    /// The text after what is coloured.
    pub fn get_suffix(&self) -> &'a str
        ensures { result.now ≡ (texts_of self.now).1 }
    {
        self.suffix
    }
}

impl ANSIFmt for ANSIStr<'_> {
    ghost prefix_text = { λ color. Some (texts_of color).0 };

    ghost suffix_text = { λ color. Some (texts_of color).1 };

    fn fmt_ansi_prefix<W: fmt::Write>(&self, f: &mut W) -> fmt::Result {
        f.write_str(self.prefix)
    }

    fn fmt_ansi_suffix<W: fmt::Write>(&self, f: &mut W) -> fmt::Result
        ensures allowed { OnOk result
            (WritesOrResets W.write_str_gives f.old (Some (texts_of self.now).1) f.new) }
        ensures own { OnOk result (W.write_str_gives f.old (texts_of self.now).1 f.new) }
    {
        f.write_str(self.suffix)
    }
}
