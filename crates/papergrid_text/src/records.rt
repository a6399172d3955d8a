//! Rows of cells that are walked once. Source: `records/mod.rs`, `records/into_records.rs`,
//! `records/exact_records.rs`.
//!
//! Records are lawful where their walk ends, with fewer than 2^64 rows and fewer than 2^64 cells in
//! each. What takes records asks for it. `laws` has what an implementation over std's slices and
//! vectors needs to show it.

ghost use Rattle.std.specs.Prelude.{◌≡◌, List, ℕ, ⊤, Option, map, length};
ghost use Rattle.papergrid_text.specs.Records.{WalkIsShort, GivesRows};

use std::iter::{IntoIterator, Iterator};

/// What can be walked as rows of cells.
///
/// An implementation says which of its values are lawful, and which rows of cells a walk over them may
/// tell. It owes that of a lawful value the walk over the rows, and that over the cells of each row, may
/// begin, ends, and is shorter than 2^64; and that the rows of cells that a walk gives are told.
pub trait IntoRecords: Sized {
    type Cell;

    type IterColumns: IntoIterator<Item = Self::Cell>;

    type IterRows: IntoIterator<Item = Self::IterColumns>;

    // Holds of the values whose walk ends, with fewer than 2 ^ 64 rows and cells in each.
    ghost is_lawful: { Self → Type 0 };

    // Holds of a value and the rows of cells that its walk gives.
    ghost tells: { Self → List (List Self.Cell) → Type 0 };

    /// The rows. Of lawful records, the walk over them and that over the cells of each end.
    fn iter_rows(self) -> Self::IterRows
        ensures finite { is_lawful self →
            WalkIsShort Self.IterRows.into_iter_gives Self.IterRows.IntoIter.can_next
            Self.IterRows.IntoIter.remaining Self.IterRows.IntoIter.next_gives
            (WalkIsShort Self.IterColumns.into_iter_gives Self.IterColumns.IntoIter.can_next
            Self.IterColumns.IntoIter.remaining Self.IterColumns.IntoIter.next_gives (λ _. ⊤))
            result }
        ensures told { (cells : List (List Self.Cell)) →
            GivesRows Self.IterRows.into_iter_gives Self.IterRows.IntoIter.next_gives
            Self.IterColumns.into_iter_gives Self.IterColumns.IntoIter.next_gives result cells
            → tells self cells };
}

/// Rows of cells, with a number of columns.
///
/// An implementation owes what one of `IntoRecords` does, and that each count is one that the value
/// alone decides. A row may have more or fewer cells than there are columns.
pub trait Records: Sized {
    type Iter: IntoRecords;

    // Holds of the values whose walk ends, with fewer than 2 ^ 64 rows and cells in each.
    ghost is_lawful: { Self → Type 0 };

    // Holds of a value and the rows of cells that its walk gives.
    ghost tells: { Self → List (List Self.Iter.Cell) → Type 0 };

    // The number of columns.
    ghost columns: { Self → ℕ };

    // The number of rows, where it is told beforehand. Nothing rests on it.
    ghost hint: { Self → Option ℕ };

    /// The rows. Of lawful records, the walk over them and that over the cells of each end.
    fn iter_rows(self) -> <Self::Iter as IntoRecords>::IterRows
        ensures finite { is_lawful self →
            WalkIsShort Self.Iter.IterRows.into_iter_gives Self.Iter.IterRows.IntoIter.can_next
            Self.Iter.IterRows.IntoIter.remaining Self.Iter.IterRows.IntoIter.next_gives
            (WalkIsShort Self.Iter.IterColumns.into_iter_gives
            Self.Iter.IterColumns.IntoIter.can_next Self.Iter.IterColumns.IntoIter.remaining
            Self.Iter.IterColumns.IntoIter.next_gives (λ _. ⊤))
            result }
        ensures told { (cells : List (List Self.Iter.Cell)) →
            GivesRows Self.Iter.IterRows.into_iter_gives Self.Iter.IterRows.IntoIter.next_gives
            Self.Iter.IterColumns.into_iter_gives Self.Iter.IterColumns.IntoIter.next_gives
            result cells → tells self cells };

    /// The number of columns.
    fn count_columns(&self) -> usize
        ensures { result ≡ columns self.now };

    /// The number of rows, where it is told beforehand. It may be false: no answer rests on it.
    fn hint_count_rows(&self) -> Option<usize>
        ensures { result ≡ hint self.now };
}

/// Records that tell their number of rows. An implementation owes a number that the value alone decides.
pub trait ExactRecords {
    ghost rows: { Self → ℕ };

    /// The number of rows.
    fn count_rows(&self) -> usize
        ensures { result ≡ rows self.now };
}

impl<T: ExactRecords> ExactRecords for &T {
    ghost rows = { λ s. T.rows s.now };

    fn count_rows(&self) -> usize {
        T::count_rows(*self)
    }
}

impl<T> ExactRecords for Vec<T> {
    ghost rows = { λ s. length s.items };

    fn count_rows(&self) -> usize {
        self.len()
    }
}

impl<T> ExactRecords for &[T] {
    ghost rows = { λ s. length s.now };

    fn count_rows(&self) -> usize {
        self.len()
    }
}

impl<T: Drop> IntoRecords for Vec<Vec<T>> {
    type Cell = T;

    type IterColumns = Vec<T>;

    type IterRows = Vec<Vec<T>>;

    ghost is_lawful = { λ _. ⊤ };

    ghost tells = { λ s cells. cells ≡ map (λ row. row.items) s.items };

    fn iter_rows(self) -> Vec<Vec<T>> {
        self
    }
}

impl<'a, T> IntoRecords for &'a Vec<Vec<T>> {
    type Cell = &'a T;

    type IterColumns = &'a Vec<T>;

    type IterRows = &'a [Vec<T>];

    ghost is_lawful = { λ _. ⊤ };

    ghost tells = { λ s cells. map (map (λ cell. cell.now)) cells ≡ map (λ row. row.items) s.now.items };

    fn iter_rows(self) -> &'a [Vec<T>] {
        self.as_slice()
    }
}

impl<'a, T> IntoRecords for &'a [Vec<T>] {
    type Cell = &'a T;

    type IterColumns = &'a Vec<T>;

    type IterRows = &'a [Vec<T>];

    ghost is_lawful = { λ _. ⊤ };

    ghost tells = { λ s cells. map (map (λ cell. cell.now)) cells ≡ map (λ row. row.items) s.now };

    fn iter_rows(self) -> &'a [Vec<T>] {
        self
    }
}

impl<'a, T> IntoRecords for Vec<&'a [T]> {
    type Cell = &'a T;

    type IterColumns = &'a [T];

    type IterRows = Vec<&'a [T]>;

    ghost is_lawful = { λ _. ⊤ };

    ghost tells = { λ s cells. map (map (λ cell. cell.now)) cells ≡ map (λ row. row.now) s.items };

    fn iter_rows(self) -> Vec<&'a [T]> {
        self
    }
}
