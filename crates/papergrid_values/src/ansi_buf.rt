//! A colour that owns its texts. Source: `ansi/ansi_buf.rs`.

ghost use Rattle.std.specs.Prelude.{◌≡◌, ◌↔◌, [], ◌++◌, Some, IsTrue, IfOk, OnOk};
ghost use Rattle.std.specs.Ordering.{as_partial_cmp};
ghost use Rattle.std.specs.Cmp.{partial_order_from_own_ties};
ghost use Rattle.std.specs.Cmp.Rules.{comparing, hashing};
ghost use Rattle.std.specs.Hash as fed;
ghost use Rattle.std.proofs.Common.{rules};
ghost use Rattle.papergrid_values.specs.Colors.{texts_of, same_texts, texts_cmp, WritesOrResets};

use crate::ansi_fmt::ANSIFmt;
use crate::ansi_str::ANSIStr;
use std::alloc::{AllocError, Global};
use std::cmp::Ordering;
use std::fmt;
use std::hash::{Hash, Hasher};
use std::marker::Model;

/// A colour as two texts: the one before what is coloured, and the one after it. What they say is
/// not checked. A contract sees the pair of them.
#[derive(Debug)]
pub struct ANSIBuf {
    prefix: String,
    suffix: String,
}

// By hand: docs/DECISIONS.md, "Drops".
impl Drop for ANSIBuf {
    fn drop(self) {
        let ANSIBuf {
            prefix: _,
            suffix: _,
        } = self;
    }
}

impl Model for ANSIBuf {
    ghost use Rattle.std.specs.Prelude.{List, ℕ, string_bytes};

    ghost Value = { List ℕ × List ℕ };

    ghost view = { λ color. (string_bytes color.prefix, string_bytes color.suffix) };
}

impl ANSIBuf {
    /// The colour with copies of these texts, or out of memory.
    pub fn new(alloc: Global, prefix: &str, suffix: &str) -> Result<ANSIBuf, AllocError>
        ensures { IfOk result (λ color. color ≡ (prefix.now, suffix.now)) }
    {
        Ok(ANSIBuf {
            prefix: String::from_str(alloc, prefix)?,
            suffix: String::from_str(alloc, suffix)?,
        })
    }

    /// The colour with copies of a borrowed one's texts, or out of memory.
    pub fn copy_of(alloc: Global, color: ANSIStr<'_>) -> Result<ANSIBuf, AllocError>
        ensures { IfOk result (λ copy. copy ≡ texts_of color.entry) }
    {
        ANSIBuf::new(alloc, color.get_prefix(), color.get_suffix())
    }

    /// Whether both texts are empty.
    pub fn is_empty(&self) -> bool
        ensures { IsTrue result ↔ (self.now ≡ ([], [])) }
    {
        self.prefix.is_empty() && self.suffix.is_empty()
    }

    /// The text before what is coloured.
    pub fn get_prefix(&self) -> &str
        ensures { result.now ≡ self.now.0 }
    {
        self.prefix.as_str()
    }

    /// The text after what is coloured.
    pub fn get_suffix(&self) -> &str
        ensures { result.now ≡ self.now.1 }
    {
        self.suffix.as_str()
    }

    /// The colour, borrowed.
    pub fn as_ref(&self) -> ANSIStr<'_>
        ensures { texts_of result ≡ self.now }
    {
        ANSIStr::new(self.prefix.as_str(), self.suffix.as_str())
    }
}

impl Clone for ANSIBuf {
    ghost is_clone = { λ color copy. copy ≡ color };

    fn clone(&self) -> Result<ANSIBuf, AllocError> {
        Ok(ANSIBuf {
            prefix: self.prefix.clone()?,
            suffix: self.suffix.clone()?,
        })
    }
}

impl PartialEq for ANSIBuf {
    ghost eq = { same_texts };

    ghost laws = { Prim.search (comparing, rules) };

    fn eq(&self, other: &ANSIBuf) -> bool {
        self.prefix == other.prefix && self.suffix == other.suffix
    }
}

impl Eq for ANSIBuf {
    ghost laws = { Prim.search (comparing, rules) };
}

impl PartialOrd for ANSIBuf {
    ghost partial_cmp = { as_partial_cmp texts_cmp };

    ghost laws = { partial_order_from_own_ties (Prim.search (comparing, rules)) (Prim.search (comparing, rules)) };

    fn partial_cmp(&self, other: &ANSIBuf) -> Option<Ordering> {
        Some(self.cmp(other))
    }
}

impl Ord for ANSIBuf {
    ghost cmp = { texts_cmp };

    ghost total = { Prim.search (comparing, rules) };

    ghost matches_partial_cmp = { Prim.search (comparing, rules) };

    ghost matches_eq = { Prim.search (comparing, rules) };

    fn cmp(&self, other: &ANSIBuf) -> Ordering {
        self.prefix
            .cmp(&other.prefix)
            .then(self.suffix.cmp(&other.suffix))
    }
}

impl Hash for ANSIBuf {
    ghost hash_input = { λ color. fed.str color.0 ++ fed.str color.1 };

    ghost respects_eq = { Prim.search (hashing, rules) };

    fn hash<H: Hasher>(&self, state: &mut H) {
        self.prefix.hash(state);
        self.suffix.hash(state);
    }
}

impl ANSIFmt for ANSIBuf {
    ghost prefix_text = { λ color. Some color.0 };

    ghost suffix_text = { λ color. Some color.1 };

    fn fmt_ansi_prefix<W: fmt::Write>(&self, f: &mut W) -> fmt::Result {
        f.write_str(self.prefix.as_str())
    }

    fn fmt_ansi_suffix<W: fmt::Write>(&self, f: &mut W) -> fmt::Result
        ensures allowed { OnOk result
            (WritesOrResets W.write_str_gives f.old (Some self.now.1) f.new) }
        ensures own { OnOk result (W.write_str_gives f.old self.now.1 f.new) }
    {
        f.write_str(self.suffix.as_str())
    }
}
