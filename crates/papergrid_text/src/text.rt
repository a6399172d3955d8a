//! A cell that keeps its lines and widths. Source: `records/vec_records/text.rs`.

ghost use Rattle.std.specs.Prelude.{◌≡◌, ◌≢◌, ◌<◌, [], length, map, fold, IfOk, IsOk, slice_index_or};
ghost use Rattle.std.proofs.Common.{refl};
ghost use Rattle.papergrid_text.specs.LineCache.{AreInside, cached_lines, given_line, answered_lines, line_of_range};
ghost use Rattle.papergrid_text.specs.Measured.{measured_text};
ghost use Rattle.papergrid_text.specs.Text.{greatest_width, with_width, split_lines};
ghost use Rattle.papergrid_text.specs.TextOrder.{line_eq, line_cmp, line_hash, key, key_eq, key_cmp, key_hash};
ghost use Rattle.papergrid_text.specs.ForProofs.TextLaws.{key_equiv, key_total, key_ties, key_alike};
ghost use Rattle.papergrid_text.specs.declared.line_cache.LineCache.TheVariants.{Ranges};
ghost use Rattle.std.specs.Cmp.{on_per, on_equiv, on_total, on_po, po, partial_equiv_from_equiv};
ghost use Rattle.std.specs.Cmp.Lexicographic.{pointwise, slice_cmp};
ghost use Rattle.std.specs.Hash as fed;
ghost use Rattle.std.specs.Hash.{on_Alike};
ghost use Rattle.std.specs.Ordering.{on, as_partial_cmp};

use crate::cell::Cell;
use crate::line_cache::{LineCache, LineRange, StrWithWidth};
use crate::string::{count_lines, get_line_width, get_lines};
use std::alloc::{AllocError, Global};
use std::cmp::Ordering;
use std::convert::AsStr;
use std::fmt;
use std::fmt::{Display, Formatter, Write};
use std::hash::{Hash, Hasher};
use std::marker::Model;

/// A text that was measured once: it keeps its lines and their widths.
#[derive(Debug, Drop)]
pub struct Text<S: AsStr> {
    text: S,
    width: usize,
    lines: LineCache,
}

// Its lines, however they are kept, are texts with widths.
impl<S: AsStr> Model for Text<S> {
    ghost use Rattle.papergrid_text.specs.Measured.{Measured};
    ghost use Rattle.papergrid_text.specs.LineCache.{AreInside, cached_lines};

    ghost Value = { Measured S };

    ghost view = { λ t. record {
      text = t.text;
      width = t.width;
      lines = cached_lines (S.text t.text) t.lines;
    } };

    ghost invariant = { λ t. AreInside (S.text t.text) t.lines };
}

impl<S: AsStr> Text<S> {
    /// Keeps the text with the width, in columns of a terminal, and the lines that are given. Nothing is
    /// measured or checked. Where no line is given the text is its one line.
    pub fn exact(text: S, width: usize, lines: Vec<StrWithWidth<'static>>) -> Text<S>
        ensures { result
            ≡ record { text = text; width = width; lines = map given_line lines.entry.items } }
    {
        Text {
            text,
            width,
            lines: LineCache::Given(lines),
        }
    }

    /// Measures the text, and keeps where its lines are. Where there is one line it keeps none, and
    /// does not allocate.
    pub fn new(alloc: Global, text: S) -> Result<Text<S>, AllocError>
    where
        S: Drop,
        ensures value { IfOk result (λ t. t ≡ measured_text S.text text) }
        // As a cell it has the lines of the text, each with its width.
        ensures lines { IfOk result (λ t. answered_lines (S.text text) t.width t.lines
            ≡ map with_width (split_lines (S.text text))) }
        ensures takes_no_memory { length (split_lines (S.text text)) < 2 → IsOk result }
    {
        let whole = text.as_str();
        let count = count_lines(whole);
        if count < 2 {
            let width = get_line_width(whole);
            let lines = LineCache::Ranges(Vec::new(alloc));
            return Ok(Text { text, width, lines });
        }
        let (ranges, width) = measure_lines(alloc, whole, count)?;
        let lines = LineCache::Ranges(ranges);
        Ok(Text { text, width, lines })
    }

    /// The text alone.
    pub fn into_inner(self) -> S
        ensures { result ≡ self.text }
    {
        let Text {
            text,
            width: _,
            lines: _,
        } = self;
        text
    }

    fn cached_count(&self) -> usize
        ensures { result ≡ length self.now.lines }
    {
        self.lines.len(self.text.as_str())
    }

    fn cached_line(&self, line: usize) -> &str
        requires { line < length self.now.lines }
        ensures { result.now ≡ (slice_index_or self.now.lines line ([], 0)).0 }
    {
        self.lines.line(self.text.as_str(), line)
    }

    fn kept_width(&self, line: usize) -> usize
        requires { line < length self.now.lines }
        ensures { result ≡ (slice_index_or self.now.lines line ([], 0)).1 }
    {
        self.lines.width(self.text.as_str(), line)
    }
}

impl<S: AsStr> AsStr for Text<S> {
    ghost text = { λ t. S.text t.text };

    fn as_str(&self) -> &str {
        self.text.as_str()
    }
}

impl<S: AsStr> Cell for Text<S> {
    ghost text = { λ t. S.text t.text };

    ghost lines = { λ t. answered_lines (S.text t.text) t.width t.lines };

    ghost width = { λ t. t.width };

    fn text(&self) -> &str {
        self.text.as_str()
    }

    fn line(&self, line: usize) -> &str {
        if self.cached_count() == 0 {
            return self.text.as_str();
        }
        self.cached_line(line)
    }

    fn count_lines(&self) -> usize {
        self.cached_count().max(1)
    }

    fn width(&self) -> usize {
        self.width
    }

    fn line_width(&self, line: usize) -> usize {
        if self.cached_count() == 0 {
            return self.width;
        }
        self.kept_width(line)
    }
}

// A clone has the width of the original, and its lines where it has its text. That is tested, since
// nothing is known of what `S` clones to, and lines kept as places may not lie in another text.
impl<S: AsStr + Clone> Clone for Text<S> {
    ghost is_clone = { λ a b. S.is_clone a.text b.text × (b.width ≡ a.width)
        × (S.text b.text ≡ S.text a.text → b.lines ≡ a.lines)
        × (S.text b.text ≢ S.text a.text → b.lines ≡ []) };

    fn clone(&self) -> Result<Text<S>, AllocError> {
        let text = self.text.clone()?;
        let lines = self.lines.clone_for(self.text.as_str(), text.as_str())?;
        Ok(Text {
            text,
            width: self.width,
            lines,
        })
    }
}

impl<S: AsStr + Display> Display for Text<S> {
    ghost output = { λ t. S.output t.text };

    fn fmt<W: Write>(&self, f: &mut Formatter<W>) -> fmt::Result {
        self.text.fmt(f)
    }
}

// ---- equality, order and hash: by the text that is lent, the width, and the lines kept

impl<S: AsStr> Text<S> {
    fn compare_line(&self, other: &Text<S>, line: usize) -> Ordering
        requires here { line < length self.now.lines }
        requires there { line < length other.now.lines }
        ensures { result ≡ line_cmp
            (slice_index_or self.now.lines line ([], 0))
            (slice_index_or other.now.lines line ([], 0)) }
    {
        let texts = self.cached_line(line).cmp(other.cached_line(line));
        texts.then(self.kept_width(line).cmp(&other.kept_width(line)))
    }

    fn compare_lines(&self, other: &Text<S>) -> Ordering
        ensures { result ≡ slice_cmp line_cmp self.now.lines other.now.lines }
    {
        let (ours, theirs) = (self.cached_count(), other.cached_count());
        for line in 0..ours.min(theirs) {
            let found = self.compare_line(other, line);
            if found.is_ne() {
                return found;
            }
        }
        ours.cmp(&theirs)
    }

    fn has_same_lines(&self, other: &Text<S>) -> bool
        ensures { result ≡ pointwise line_eq self.now.lines other.now.lines }
    {
        self.compare_lines(other).is_eq()
    }

    fn hash_lines<H: Hasher>(&self, state: &mut H)
        ensures { state.new ≡ fold H.write state.old (fed.slice line_hash self.now.lines) }
    {
        let count = self.cached_count();
        count.hash(state);
        for line in 0..count {
            self.cached_line(line).hash(state);
            self.kept_width(line).hash(state);
        }
    }
}

impl<S: AsStr> PartialEq for Text<S> {
    ghost eq = { on (key S.text) key_eq };

    ghost laws = { on_per (key S.text) (partial_equiv_from_equiv key_equiv) };

    fn eq(&self, other: &Text<S>) -> bool {
        self.text.as_str() == other.text.as_str()
            && self.width == other.width
            && self.has_same_lines(other)
    }
}

impl<S: AsStr> Eq for Text<S> {
    ghost laws = { on_equiv (key S.text) key_equiv };
}

impl<S: AsStr> PartialOrd for Text<S> {
    ghost partial_cmp = { on (key S.text) (as_partial_cmp key_cmp) };

    ghost laws = { on_po (key S.text) (po key_total key_ties) };

    fn partial_cmp(&self, other: &Text<S>) -> Option<Ordering> {
        Some(self.cmp(other))
    }
}

impl<S: AsStr> Ord for Text<S> {
    ghost cmp = { on (key S.text) key_cmp };

    ghost total = { on_total (key S.text) key_total };

    ghost matches_partial_cmp = { λ x y. refl };

    ghost matches_eq = { λ x y. key_ties (key S.text x) (key S.text y) };

    fn cmp(&self, other: &Text<S>) -> Ordering {
        let texts = self.text.as_str().cmp(other.text.as_str());
        let widths = self.width.cmp(&other.width);
        texts.then(widths).then_with(|| self.compare_lines(other))
    }
}

impl<S: AsStr> Hash for Text<S> {
    ghost hash_input = { λ t. key_hash (key S.text t) };

    ghost respects_eq = { (on_Alike (key S.text) key_alike).fed };

    fn hash<H: Hasher>(&self, state: &mut H) {
        self.text.as_str().hash(state);
        self.width.hash(state);
        self.hash_lines(state);
    }
}

// Where the lines of a text lie, with their widths, and the greatest width. There is room for `count`
// lines from the start.
fn measure_lines(
    alloc: Global,
    text: &str,
    count: usize,
) -> Result<(Vec<LineRange>, usize), AllocError>
    ensures inside { IfOk result (λ r. AreInside text.now (Ranges r.0)) }
    ensures lines { IfOk result (λ r.
        map (line_of_range text.now) r.0.items ≡ map with_width (split_lines text.now)) }
    ensures width { IfOk result (λ r. r.1 ≡ greatest_width (split_lines text.now)) }
{
    let mut ranges = Vec::with_capacity(alloc, count)?;
    let mut greatest = 0usize;
    let mut start = 0usize;
    'lines: for line in get_lines(text) {
        let width = get_line_width(line);
        greatest = greatest.max(width);
        let end = start + line.len();
        ranges.push(LineRange { start, end, width })?;
        start = end + 1;
    }
    Ok((ranges, greatest))
}
