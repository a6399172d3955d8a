//! Lines by number, with how many of them have each end set.

ghost use Rattle.std.specs.Prelude.{◌≡◌, ◌+◌, ◌<◌, ◌≤◌, ◌^◌, ◌==◌, ◌&&◌, ◌||◌, [], ℕ, Bool, Some, None, OnOk, OnErr, IfOk, is_some, nat_eq, option_copied};
ghost use Rattle.std.specs.HashMap.{IsUnchanged, Updates, get as map_get};
ghost use Rattle.papergrid_tables.specs.ForProofs.CountedLines.{AreEndsCounted, is_end_set, reaches};
ghost use Rattle.papergrid_tables.specs.ForProofs.Counts.{one_if};

use papergrid_values::{HorizontalLine, VerticalLine};
use std::alloc::{AllocError, Global};
use std::collections::HashMap;

/// Which ends of a line are set: its left and its right one, or its top and its bottom one.
#[derive(Clone, Copy)]
pub(crate) struct Ends {
    first: bool,
    last: bool,
}

impl Ends {
    // Of no line.
    const NONE: Ends = Ends {
        first: false,
        last: false,
    };

    fn of<T>(first: &Option<T>, last: &Option<T>) -> Ends
        ensures first { result.first ≡ is_some first.now }
        ensures last { result.last ≡ is_some last.now }
    {
        Ends {
            first: first.is_some(),
            last: last.is_some(),
        }
    }
}

/// A line with two ends.
pub(crate) trait Ended {
    ghost has_first: { Self → Bool };

    ghost has_last: { Self → Bool };

    /// Which ends are set.
    fn ends(&self) -> Ends
        ensures first { result.first ≡ has_first self.now }
        ensures last { result.last ≡ has_last self.now };
}

impl<T> Ended for HorizontalLine<T> {
    ghost has_first = { λ l. is_some l.left };

    ghost has_last = { λ l. is_some l.right };

    fn ends(&self) -> Ends {
        Ends::of(&self.left, &self.right)
    }
}

impl<T> Ended for VerticalLine<T> {
    ghost has_first = { λ l. is_some l.top };

    ghost has_last = { λ l. is_some l.bottom };

    fn ends(&self) -> Ends {
        Ends::of(&self.top, &self.bottom)
    }
}

/// Lines by number, and how many of them have their first end set, and how many their last end.
#[derive(Debug, Clone)]
pub(crate) struct Lines<L> {
    pub(crate) values: HashMap<usize, L>,
    first_ends: usize,
    last_ends: usize,
}

// By hand: docs/DECISIONS.md, "Drops".
impl<L: Drop> Drop for Lines<L> {
    fn drop(self) {
        let Lines {
            values: _,
            first_ends: _,
            last_ends: _,
        } = self;
    }
}

impl<L> Lines<L> {
    /// No line. It does not allocate.
    pub(crate) fn new(alloc: Global) -> Self
        ensures empty { result.values.entries ≡ [] }
        ensures counted { (has_first has_last : L → Bool) →
            AreEndsCounted has_first has_last result }
    {
        Lines {
            values: HashMap::new(alloc),
            first_ends: 0,
            last_ends: 0,
        }
    }

    /// Whether a line that ends at an index has that end set: the first ends stand at 0, the last
    /// ones at the count.
    pub(crate) fn reach(&self, index: usize, count: usize) -> bool
        ensures { result ≡ reaches index count self.now }
    {
        (index == 0 && self.first_ends > 0) || (index == count && self.last_ends > 0)
    }

    // Counts the ends of a line in place of those of an old one.
    fn recount(&mut self, old: Ends, new: Ends)
        requires stored_first { one_if old.first ≤ self.old.first_ends + one_if new.first }
        requires stored_last { one_if old.last ≤ self.old.last_ends + one_if new.last }
        requires small { (self.old.first_ends + 1 < 2 ^ 64) × (self.old.last_ends + 1 < 2 ^ 64) }
        ensures values { self.new.values ≡ self.old.values }
        ensures first { self.new.first_ends + one_if old.first
            ≡ self.old.first_ends + one_if new.first }
        ensures last { self.new.last_ends + one_if old.last ≡ self.old.last_ends + one_if new.last }
    {
        self.first_ends = replaced(self.first_ends, old.first, new.first);
        self.last_ends = replaced(self.last_ends, old.last, new.last);
    }
}

impl<L: Clone> Lines<L> {
    /// All lines, or out of memory. Condition: a clone of a line equals it.
    pub(crate) fn all(&self) -> Result<HashMap<usize, L>, AllocError>
        requires { (x y : L) → L.is_clone x y → y ≡ x }
        ensures { IfOk result (λ all. (n : ℕ) →
            map_get nat_eq all n ≡ map_get nat_eq self.now.values n) }
    {
        self.values.clone()
    }
}

impl<L: Ended + Drop> Lines<L> {
    /// Writes a line, or leaves all as it was where an allocation fails.
    pub(crate) fn put(&mut self, number: usize, line: L) -> Result<(), AllocError>
        requires { AreEndsCounted L.has_first L.has_last self.old }
        ensures ok { OnOk result
            (Updates nat_eq self.old.values self.new.values number (Some line)) }
        ensures err { OnErr result (IsUnchanged self.old.values self.new.values) }
        ensures counted { AreEndsCounted L.has_first L.has_last self.new }
    {
        // No count is greater than the length, which is told here.
        let _ = self.values.len();
        let new = line.ends();
        let old = self.values.insert(number, line)?;
        self.recount(ends_of(old.as_ref()), new);
        Ok(())
    }

    /// Drops a line.
    pub(crate) fn take(&mut self, number: usize)
        requires { AreEndsCounted L.has_first L.has_last self.old }
        ensures taken { Updates nat_eq self.old.values self.new.values number None }
        ensures counted { AreEndsCounted L.has_first L.has_last self.new }
    {
        // No count is greater than the length, which is told here.
        let _ = self.values.len();
        let old = self.values.remove(&number);
        self.recount(ends_of(old.as_ref()), Ends::NONE);
    }
}

// Which ends of a line are set, if there is one.
fn ends_of<L: Ended>(line: Option<&L>) -> Ends
    ensures first { result.first ≡ is_end_set L.has_first (option_copied line.entry) }
    ensures last { result.last ≡ is_end_set L.has_last (option_copied line.entry) }
{
    match line {
        Some(line) => line.ends(),
        None => Ends::NONE,
    }
}

fn replaced(count: usize, old: bool, new: bool) -> usize
    requires stored { one_if old ≤ count + one_if new }
    requires small { count + 1 < 2 ^ 64 }
    ensures { result + one_if old ≡ count + one_if new }
{
    count + usize::from(new) - usize::from(old)
}
