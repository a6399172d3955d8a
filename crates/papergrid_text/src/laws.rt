//! Laws of the definitions, each the contract of a function that does nothing. A function that calls one
//! may cite it in its proof.

ghost use Rattle.std.specs.Prelude.{◌≡◌, ◌==◌, ◌<◌, ◌≤◌, ◌+◌, ◌^◌, ◌∷◌, ◌++◌, [], ⊤, List, Vec, count_by, length, map, nat_eq, true, ℕ};
ghost use Rattle.std.specs.Hash as fed;
ghost use Rattle.std.specs.List.{list_all};
ghost use Rattle.std.specs.Option.{option_cmp, option_eq};
ghost use Rattle.std.specs.Ordering.{nat_cmp, ordering_then};
ghost use Rattle.std.specs.Borrow.{Bor};
ghost use Rattle.std.specs.Str.{trim};
ghost use Rattle.std.specs.Slice.Iter.{iter_rest, chunks_rest, chunks_size, chunks_exact_rest, chunks_exact_size};
ghost use Rattle.std.specs.declared.alloc.Global.{Global};
ghost use Rattle.std.specs.declared.slice.Chunks.{Chunks};
ghost use Rattle.std.specs.declared.slice.ChunksExact.{ChunksExact};
ghost use Rattle.std.specs.declared.slice.Iter.{Iter};
ghost use Rattle.papergrid_text.specs.declared.iter_records.IterRecords.{IterRecords};
ghost use Rattle.papergrid_text.specs.declared.iter_records.RowIter.{RowIter};
ghost use Rattle.papergrid_text.specs.declared.line_cache.StrWithWidth.{StrWithWidth};
ghost use Rattle.papergrid_text.specs.declared.string.Lines.{Lines};
ghost use Rattle.papergrid_text.specs.declared.vec_records.VecRecords.{VecRecords};
ghost use Rattle.papergrid_text.specs.Cut.{cut_rows, cut_whole_rows};
ghost use Rattle.papergrid_text.specs.HeldRows.{column_count, row_count, rows_held};
ghost use Rattle.papergrid_text.specs.LineCache.{given_line};
ghost use Rattle.papergrid_text.specs.Records.{WalkIsShort, Gives};
ghost use Rattle.papergrid_text.specs.Separators.{IsSeparator, is_separator};
ghost use Rattle.papergrid_text.specs.Text.{HasNoCrLf, IsLines, split_lines, text_dimension, text_width, width_of};
ghost use Rattle.papergrid_text.specs.TextOrder.{line_cmp, line_eq, line_hash};

use crate::iter_records::{IterRecords, RowIter};
use crate::line_cache::StrWithWidth;
use crate::records::IntoRecords;
use crate::string::Lines;
use crate::vec_records::VecRecords;
use std::hash::Hash;
use std::iter::{IntoIterator, Iterator};
use std::slice::{Chunks, ChunksExact, Iter};

/// The lines of a text are the one list of parts without a newline that joins to it by newlines.
/// There is one more of them than newlines.
pub fn lines_join_to_text()
    ensures is_split { (text : List ℕ) → IsLines text (split_lines text) }
    ensures is_only { (text : List ℕ) (parts : List (List ℕ)) →
        IsLines text parts → parts ≡ split_lines text }
    ensures count { (text : List ℕ) →
        length (split_lines text) ≡ count_by (λ b. b == 10) text + 1 }
{}

/// Where no carriage return stands right before a newline, the dimension of a text is the number of
/// its lines and its width.
pub fn dimension_without_carriage_returns()
    ensures { (text : List ℕ) → HasNoCrLf text →
        text_dimension text ≡ (length (split_lines text), text_width text) }
{}

/// A text is no wider without the white space at both ends.
pub fn trimmed_no_wider()
    ensures { (text : List ℕ) → width_of (trim text) ≤ width_of text }
{}

/// At the blank, at the lines of boxes (U+2500 to U+257F), and at printable ASCII but `#`, `*` and the
/// digits, the widths of what stands before and after add up.
pub fn separators()
    ensures { (c : ℕ) → is_separator c ≡ true → IsSeparator c }
{}

// ---- records, and the lines of texts, as values

/// A clone of records equals its original, or holds the same rows and counts, where clones of their
/// parts equal theirs.
pub fn equal_clones<T: Clone>()
    requires { (x y : T) → T.is_clone x y → y ≡ x }
    ensures walked { (x y : RowIter T) → ⟦<RowIter<T> as Clone>⟧.is_clone x y → y ≡ x }
    ensures counted { (x y : IterRecords T) → ⟦<IterRecords<T> as Clone>⟧.is_clone x y → y ≡ x }
    ensures held { (x y : VecRecords T) → ⟦<VecRecords<T> as Clone>⟧.is_clone x y →
        map (λ row. row.items) (rows_held y).items ≡ map (λ row. row.items) (rows_held x).items }
    ensures row_count { (x y : VecRecords T) →
        ⟦<VecRecords<T> as Clone>⟧.is_clone x y → row_count y ≡ row_count x }
    ensures column_count { (x y : VecRecords T) →
        ⟦<VecRecords<T> as Clone>⟧.is_clone x y → column_count y ≡ column_count x }
{}

/// A clone of a walk over lines equals its original, and one of a measured line has its text and
/// its width.
pub fn equal_clones_of_lines()
    ensures lines { (x y : Lines) → ⟦<Lines<'static> as Clone>⟧.is_clone x y → y ≡ x }
    ensures measured { (x y : StrWithWidth) →
        ⟦<StrWithWidth<'static> as Clone>⟧.is_clone x y → given_line y ≡ given_line x }
{}

/// Measured lines are equal where their texts and their widths are. They are ordered by the text
/// and then by the width, and hash the text and then the width.
pub fn lines_by_fields()
    ensures equal { (x y : StrWithWidth) →
        ⟦<StrWithWidth<'static> as PartialEq>⟧.eq x y ≡ line_eq (given_line x) (given_line y) }
    ensures ordered { (x y : StrWithWidth) →
        ⟦<StrWithWidth<'static> as Ord>⟧.cmp x y ≡ line_cmp (given_line x) (given_line y) }
    ensures hashed { (x : StrWithWidth) →
        ⟦<StrWithWidth<'static> as Hash>⟧.hash_input x ≡ line_hash (given_line x) }
{}

/// Records are equal where what gives their rows is, and each number that they tell.
pub fn equal_by_fields<T: PartialEq>()
    ensures held { (x y : VecRecords T) →
        ⟦<VecRecords<T> as PartialEq>⟧.eq x y ≡ list_all (λ same. same) (
        ⟦<Vec<Vec<T>> as PartialEq>⟧.eq (rows_held x) (rows_held y)
        ∷ nat_eq (row_count x) (row_count y) ∷ nat_eq (column_count x) (column_count y) ∷ []) }
    ensures counted { (x y : IterRecords T) →
        ⟦<IterRecords<T> as PartialEq>⟧.eq x y ≡ list_all (λ same. same) (
        T.eq x.iter y.iter
        ∷ nat_eq x.count_columns y.count_columns
        ∷ option_eq nat_eq x.count_rows y.count_rows ∷ []) }
{}

/// Records are ordered by what gives their rows and then by the numbers that they tell: those that
/// hold their rows by the number of rows and then that of columns, others the other way round.
pub fn ordered_by_fields<T: Ord>()
    ensures held { (x y : VecRecords T) →
        ⟦<VecRecords<T> as Ord>⟧.cmp x y
        ≡ ordering_then (⟦<Vec<Vec<T>> as Ord>⟧.cmp (rows_held x) (rows_held y))
        (ordering_then (nat_cmp (row_count x) (row_count y))
        (nat_cmp (column_count x) (column_count y))) }
    ensures counted { (x y : IterRecords T) →
        ⟦<IterRecords<T> as Ord>⟧.cmp x y
        ≡ ordering_then (T.cmp x.iter y.iter)
        (ordering_then (nat_cmp x.count_columns y.count_columns)
        (option_cmp nat_cmp x.count_rows y.count_rows)) }
{}

/// Records that hold their rows hash the rows, then the number of rows and that of columns.
pub fn hashed_by_fields<T: Hash>()
    ensures { (x : VecRecords T) →
        ⟦<VecRecords<T> as Hash>⟧.hash_input x
        ≡ ⟦<Vec<Vec<T>> as Hash>⟧.hash_input (rows_held x)
        ++ fed.usize (row_count x) ++ fed.usize (column_count x) }
{}

// ---- walks, as an implementation of records of one's own has to tell them

/// The cells of a row that is a slice, lent: they can be walked, and are the items of the slice.
pub fn slice_tells_cells<'a, T: 'a>()
    ensures finite { (row : Bor (List T)) →
        WalkIsShort ⟦<&'a [T] as IntoIterator>⟧.into_iter_gives
        ⟦<Iter<'a, T> as Iterator>⟧.can_next ⟦<Iter<'a, T> as Iterator>⟧.remaining
        ⟦<Iter<'a, T> as Iterator>⟧.next_gives (λ _. ⊤) row }
    ensures told { (row : Bor (List T)) (cells : List (Bor T)) →
        Gives ⟦<&'a [T] as IntoIterator>⟧.into_iter_gives ⟦<Iter<'a, T> as Iterator>⟧.next_gives
        row cells → map (λ cell. cell.now) cells ≡ row.now }
{}

/// The cells of a row that is a vector, lent: they can be walked, and are the items of the vector.
pub fn vector_tells_cells<'a, T: 'a>()
    ensures finite { (row : Bor (Vec T Global)) →
        WalkIsShort ⟦<&'a Vec<T> as IntoIterator>⟧.into_iter_gives
        ⟦<Iter<'a, T> as Iterator>⟧.can_next ⟦<Iter<'a, T> as Iterator>⟧.remaining
        ⟦<Iter<'a, T> as Iterator>⟧.next_gives (λ _. ⊤) row }
    ensures told { (row : Bor (Vec T Global)) (cells : List (Bor T)) →
        Gives ⟦<&'a Vec<T> as IntoIterator>⟧.into_iter_gives ⟦<Iter<'a, T> as Iterator>⟧.next_gives
        row cells → map (λ cell. cell.now) cells ≡ row.now.items }
{}

/// Rows that an iterator over a slice of vectors gives are lawful where fewer than 2^64 are left. Their
/// cells are those of the vectors that are left.
pub fn vectors_tell_rows<'a, T: 'a>()
    ensures lawful { (iter : Iter (Vec T Global)) → length (iter_rest iter) < 2 ^ 64 →
        ⟦<RowIter<Iter<'a, Vec<T>>> as IntoRecords>⟧.is_lawful (record { iter = iter }) }
    ensures told { (iter : Iter (Vec T Global)) (cells : List (List (Bor T))) →
        ⟦<RowIter<Iter<'a, Vec<T>>> as IntoRecords>⟧.tells (record { iter = iter }) cells →
        map (map (λ cell. cell.now)) cells ≡ map (λ row. row.items) (iter_rest iter) }
{}

/// Rows that are the chunks of a slice, of a size above 0, are lawful where fewer than 2^64 items are
/// left. Their cells are the items that are left, cut into rows of that size, the last of which may be
/// shorter.
pub fn chunks_tell_rows<'a, T: 'a>()
    ensures lawful { (chunks : Chunks T) →
        0 < chunks_size chunks → length (chunks_rest chunks) < 2 ^ 64 →
        ⟦<RowIter<Chunks<'a, T>> as IntoRecords>⟧.is_lawful (record { iter = chunks }) }
    ensures told { (chunks : Chunks T) (cells : List (List (Bor T))) →
        0 < chunks_size chunks →
        ⟦<RowIter<Chunks<'a, T>> as IntoRecords>⟧.tells (record { iter = chunks }) cells →
        map (map (λ cell. cell.now)) cells
        ≡ cut_rows (chunks_size chunks) (chunks_rest chunks) }
{}

/// Rows that are the exact chunks of a slice, of a size above 0, are lawful where fewer than 2^64 items
/// are left. Their cells are the items that are left, cut into rows of that size. Those at the end that
/// fill no row are not told.
pub fn exact_chunks_tell_rows<'a, T: 'a>()
    ensures lawful { (chunks : ChunksExact T) →
        0 < chunks_exact_size chunks → length (chunks_exact_rest chunks) < 2 ^ 64 →
        ⟦<RowIter<ChunksExact<'a, T>> as IntoRecords>⟧.is_lawful (record { iter = chunks }) }
    ensures told { (chunks : ChunksExact T) (cells : List (List (Bor T))) →
        0 < chunks_exact_size chunks →
        ⟦<RowIter<ChunksExact<'a, T>> as IntoRecords>⟧.tells (record { iter = chunks }) cells →
        map (map (λ cell. cell.now)) cells
        ≡ cut_whole_rows (chunks_exact_size chunks) (chunks_exact_rest chunks) }
{}
