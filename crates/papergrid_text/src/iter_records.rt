//! Records over any row iterator. Source: `records/iter_records.rs`.

ghost use Rattle.std.specs.Prelude.{◌≡◌, ⊤};
ghost use Rattle.std.specs.Borrow.{Bor};
ghost use Rattle.papergrid_text.specs.Records.{WalkIsShort, GivesRows};

use crate::records::{IntoRecords, Records};
use std::iter::{IntoIterator, Iterator};

/// Rows that come from an iterator, whose items can be walked.
#[derive(Clone, Debug, Drop)]
pub struct RowIter<I> {
    iter: I,
}

impl<I> RowIter<I> {
    /// The rows that the iterator gives. They are lawful where it may be called and ends, with fewer than
    /// 2^64 items, and so does the walk over each item.
    pub fn new(iter: I) -> RowIter<I>
        ensures { result.iter ≡ iter }
    {
        RowIter { iter }
    }
}

impl<I> IntoRecords for RowIter<I>
where
    I: Iterator,
    <I as Iterator>::Item: IntoIterator,
{
    type Cell = <<I as Iterator>::Item as IntoIterator>::Item;

    type IterColumns = <I as Iterator>::Item;

    type IterRows = I;

    ghost is_lawful = { λ s. WalkIsShort (λ w it. it ≡ w) I.can_next I.remaining I.next_gives
        (WalkIsShort I.Item.into_iter_gives I.Item.IntoIter.can_next I.Item.IntoIter.remaining
        I.Item.IntoIter.next_gives (λ _. ⊤))
        s.iter };

    ghost tells = { λ s cells. GivesRows (λ w it. it ≡ w) I.next_gives I.Item.into_iter_gives
        I.Item.IntoIter.next_gives s.iter cells };

    fn iter_rows(self) -> I {
        self.iter
    }
}

/// Records of what can be walked, with the counts that the caller tells.
#[derive(Clone, Copy, PartialEq, Eq, PartialOrd, Ord, Debug)]
pub struct IterRecords<I> {
    iter: I,
    count_columns: usize,
    count_rows: Option<usize>,
}

impl<I> IterRecords<I> {
    /// Records with this number of columns, and a number of rows where one is known. They are lawful where
    /// what is walked is. Neither number is checked.
    pub fn new(iter: I, count_columns: usize, count_rows: Option<usize>) -> IterRecords<I>
        ensures { result
            ≡ record { iter = iter; count_columns = count_columns; count_rows = count_rows } }
    {
        IterRecords {
            iter,
            count_columns,
            count_rows,
        }
    }
}

impl<I: IntoRecords + Drop> IntoRecords for IterRecords<I> {
    type Cell = I::Cell;

    type IterColumns = I::IterColumns;

    type IterRows = I::IterRows;

    ghost is_lawful = { λ s. I.is_lawful s.iter };

    ghost tells = { λ s cells. I.tells s.iter cells };

    fn iter_rows(self) -> I::IterRows {
        self.iter.iter_rows()
    }
}

impl<I: IntoRecords + Drop> Records for IterRecords<I> {
    type Iter = I;

    ghost is_lawful = { λ s. I.is_lawful s.iter };

    ghost tells = { λ s cells. I.tells s.iter cells };

    ghost columns = { λ s. s.count_columns };

    ghost hint = { λ s. s.count_rows };

    fn iter_rows(self) -> <I as IntoRecords>::IterRows {
        self.iter.iter_rows()
    }

    fn count_columns(&self) -> usize {
        self.count_columns
    }

    fn hint_count_rows(&self) -> Option<usize> {
        self.count_rows
    }
}

impl<'a, I> Records for &'a IterRecords<I>
where
    &'a I: IntoRecords,
{
    type Iter = &'a I;

    ghost is_lawful = { λ s. (lent : Bor I) → lent.now ≡ s.now.iter →
        ⟦<&'a I as IntoRecords>⟧.is_lawful lent };

    ghost tells = { λ s cells. (lent : Bor I) × (lent.now ≡ s.now.iter)
        × ⟦<&'a I as IntoRecords>⟧.tells lent cells };

    ghost columns = { λ s. s.now.count_columns };

    ghost hint = { λ s. s.now.count_rows };

    fn iter_rows(self) -> <&'a I as IntoRecords>::IterRows {
        (&self.iter).iter_rows()
    }

    fn count_columns(&self) -> usize {
        self.count_columns
    }

    fn hint_count_rows(&self) -> Option<usize> {
        self.count_rows
    }
}
