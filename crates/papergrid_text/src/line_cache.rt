//! The lines that a `Text` keeps. Source: `records/vec_records/text.rs`.

ghost use Rattle.std.specs.Prelude.{◌≡◌, ◌≢◌, ◌<◌, [], length, IfOk, slice_index_or};
ghost use Rattle.std.specs.Cow.{cow_str_bytes};
ghost use Rattle.papergrid_text.specs.LineCache.{AreInside, given_line, cached_lines};

use std::alloc::AllocError;
use std::borrow::CowStr;

/// A text with its width, in columns of a terminal.
#[derive(Clone, PartialEq, Eq, PartialOrd, Ord, Hash, Debug, Drop)]
pub struct StrWithWidth<'a> {
    text: CowStr<'a>,
    width: usize,
}

impl<'a> StrWithWidth<'a> {
    /// The text with a width that the caller says it has.
    pub fn new(text: CowStr<'a>, width: usize) -> StrWithWidth<'a>
        ensures { given_line result ≡ (cow_str_bytes text.entry, width) }
    {
        StrWithWidth { text, width }
    }
}

// Where a line lies in a text, in bytes, and its width.
#[derive(Clone, Copy, Debug)]
pub(crate) struct LineRange {
    pub(crate) start: usize,
    pub(crate) end: usize,
    pub(crate) width: usize,
}

// The lines, as places in the text that keeps them or as texts of their own.
#[derive(Clone, Debug)]
pub(crate) enum LineCache {
    Ranges(Vec<LineRange>),
    Given(Vec<StrWithWidth<'static>>),
}

// By hand: docs/DECISIONS.md, "Drops".
impl Drop for LineCache {
    fn drop(self) {
        match self {
            LineCache::Ranges(_) | LineCache::Given(_) => {}
        }
    }
}

impl LineCache {
    pub(crate) fn len(&self, text: &str) -> usize
        ensures { result ≡ length (cached_lines text.now self.now) }
    {
        match self {
            LineCache::Ranges(ranges) => ranges.len(),
            LineCache::Given(given) => given.len(),
        }
    }

    // The line at a place.
    pub(crate) fn line<'a>(&'a self, text: &'a str, line: usize) -> &'a str
        requires inside { AreInside text.now self.now }
        requires there { line < length (cached_lines text.now self.now) }
        ensures { result.now ≡ (slice_index_or (cached_lines text.now self.now) line ([], 0)).0 }
    {
        match self {
            LineCache::Ranges(ranges) => {
                let range = ranges[line];
                &text[range.start..range.end]
            }
            LineCache::Given(given) => given[line].text.as_str(),
        }
    }

    // The width of the line at a place.
    pub(crate) fn width(&self, text: &str, line: usize) -> usize
        requires { line < length (cached_lines text.now self.now) }
        ensures { result ≡ (slice_index_or (cached_lines text.now self.now) line ([], 0)).1 }
    {
        match self {
            LineCache::Ranges(ranges) => ranges[line].width,
            LineCache::Given(given) => given[line].width,
        }
    }

    // The lines for a clone of the text `old`: the same ones if the clone is the same text, and else none.
    pub(crate) fn clone_for(&self, old: &str, new: &str) -> Result<LineCache, AllocError>
        requires { AreInside old.now self.now }
        ensures inside { IfOk result (AreInside new.now) }
        ensures same { new.now ≡ old.now → IfOk result (λ lines.
            cached_lines new.now lines ≡ cached_lines old.now self.now) }
        ensures other { new.now ≢ old.now → IfOk result (λ lines. cached_lines new.now lines ≡ []) }
    {
        if new == old {
            let lines = self.clone()?;
            return Ok(lines);
        }
        let alloc = match self {
            LineCache::Ranges(ranges) => *ranges.allocator(),
            LineCache::Given(given) => *given.allocator(),
        };
        Ok(LineCache::Ranges(Vec::new(alloc)))
    }
}
