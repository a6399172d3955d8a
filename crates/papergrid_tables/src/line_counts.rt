//! Counts by the number of a line.

ghost use Rattle.std.specs.Prelude.{◌≡◌, ◌↔◌, ◌+◌, ◌<◌, ◌≤◌, ◌^◌, ◌==◌, ℕ, IsTrue, OnOk, length, nat_lt};
ghost use Rattle.std.specs.HashMap.{spare};
ghost use Rattle.papergrid_tables.specs.ForProofs.Counts.{line_count_of, one_if};

use papergrid_values::hashed::{look_up, put};
use std::alloc::{AllocError, Global};
use std::collections::HashMap;

/// How many of something stand on each line. A line on which none is left may keep the count 0.
#[derive(Debug, Drop, Clone)]
pub(crate) struct LineCounts {
    pub(crate) counts: HashMap<usize, usize>,
}

impl LineCounts {
    /// None on any line. It does not allocate.
    pub(crate) fn new(alloc: Global) -> Self
        ensures { (n : ℕ) → line_count_of result.counts n ≡ 0 }
    {
        LineCounts {
            counts: HashMap::new(alloc),
        }
    }

    /// Makes room for the counts of so many more lines.
    pub(crate) fn reserve(&mut self, additional: usize) -> Result<(), AllocError>
        ensures same { (n : ℕ) → line_count_of self.new.counts n ≡ line_count_of self.old.counts n }
        ensures room { OnOk result (additional ≤ spare self.new.counts) }
    {
        self.counts.reserve(additional)
    }

    /// One more on a line, where there is room.
    pub(crate) fn add(&mut self, line: usize)
        requires room { 0 < spare self.old.counts }
        requires small { line_count_of self.old.counts line + 1 < 2 ^ 64 }
        ensures one_more { (n : ℕ) →
            line_count_of self.new.counts n ≡ line_count_of self.old.counts n + one_if (line == n) }
        ensures spare { spare self.old.counts ≤ spare self.new.counts + 1 }
    {
        let stored = self.counts.get(&line).copied().unwrap_or(0);
        put(&mut self.counts, line, stored + 1);
    }

    /// One less on a line. Condition: there is one.
    pub(crate) fn remove(&mut self, line: usize)
        requires { 0 < line_count_of self.old.counts line }
        ensures { (n : ℕ) →
            line_count_of self.new.counts n + one_if (line == n) ≡ line_count_of self.old.counts n }
    {
        if let Some(stored) = self.counts.get_mut(&line) {
            *stored -= 1;
        }
    }

    /// Whether no count is kept at all, not even one that is 0.
    pub(crate) fn is_bare(&self) -> bool
        ensures kept { IsTrue result ↔ (length self.now.counts.entries ≡ 0) }
        ensures none { IsTrue result → (n : ℕ) → line_count_of self.now.counts n ≡ 0 }
    {
        self.counts.is_empty()
    }

    /// Whether there is one on a line.
    pub(crate) fn holds(&self, line: usize) -> bool
        ensures { result ≡ nat_lt 0 (line_count_of self.now.counts line) }
    {
        look_up(&self.counts, line).is_some_and(|stored| *stored > 0)
    }
}
