//! Records that hold their rows. Source: `records/vec_records/mod.rs`.

ghost use Rattle.std.specs.Prelude.{◌≡◌, map, length, ⊤, Some};
ghost use Rattle.papergrid_text.specs.Held.{HasCell, cell_at, first_length};
ghost use Rattle.papergrid_text.specs.HeldRows.{vec_records_of, rows_held, row_count, column_count};

use crate::cell::Cell;
use crate::peekable::PeekableRecords;
use crate::records::{ExactRecords, IntoRecords, Records};
use papergrid_values::Position;
use std::convert::From;
use std::iter::{IntoIterator, Iterator};
use std::ops::{Deref, DerefMut};

/// Rows of cells, with counts that may differ from the rows held.
#[derive(Clone, PartialEq, Eq, PartialOrd, Ord, Hash, Debug, Drop)]
pub struct VecRecords<T> {
    rows: Vec<Vec<T>>,
    count_rows: usize,
    count_cols: usize,
}

impl<T> VecRecords<T> {
    /// Records of these rows, with as many columns as the first row has cells, 0 where there is no row.
    pub fn new(rows: Vec<Vec<T>>) -> VecRecords<T>
        ensures { result ≡ vec_records_of rows (length rows.items) (first_length rows.items) }
    {
        let count_cols = match rows.first() {
            Some(row) => row.len(),
            None => 0,
        };
        let count_rows = rows.len();
        VecRecords::with_size(rows, count_rows, count_cols)
    }

    /// Records of these rows, with these counts.
    pub fn with_size(rows: Vec<Vec<T>>, count_rows: usize, count_cols: usize) -> VecRecords<T>
        ensures { result ≡ vec_records_of rows count_rows count_cols }
    {
        VecRecords {
            rows,
            count_rows,
            count_cols,
        }
    }

    // The cell at a position.
    fn cell(&self, position: Position) -> &T
        requires { HasCell (rows_held self.now).items position }
        ensures { cell_at (rows_held self.now).items position ≡ Some result.now }
    {
        &self.rows[position.row][position.col]
    }
}

impl<T: Drop> Records for VecRecords<T> {
    type Iter = Vec<Vec<T>>;

    ghost is_lawful = { λ _. ⊤ };

    ghost tells = { λ s cells. cells ≡ map (λ row. row.items) (rows_held s).items };

    ghost columns = { λ s. column_count s };

    ghost hint = { λ s. Some (row_count s) };

    fn iter_rows(self) -> Vec<Vec<T>> {
        let VecRecords {
            rows,
            count_rows: _,
            count_cols: _,
        } = self;
        rows.iter_rows()
    }

    fn count_columns(&self) -> usize {
        self.count_cols
    }

    fn hint_count_rows(&self) -> Option<usize> {
        Some(self.count_rows)
    }
}

impl<'a, T> Records for &'a VecRecords<T> {
    type Iter = &'a [Vec<T>];

    ghost is_lawful = { λ _. ⊤ };

    ghost tells = { λ s cells. map (map (λ cell. cell.now)) cells ≡ map (λ row. row.items) (rows_held s.now).items };

    ghost columns = { λ s. column_count s.now };

    ghost hint = { λ s. Some (row_count s.now) };

    fn iter_rows(self) -> &'a [Vec<T>] {
        self.rows.as_slice().iter_rows()
    }

    fn count_columns(&self) -> usize {
        self.count_cols
    }

    fn hint_count_rows(&self) -> Option<usize> {
        Some(self.count_rows)
    }
}

impl<T> ExactRecords for VecRecords<T> {
    ghost rows = { λ s. row_count s };

    fn count_rows(&self) -> usize {
        self.count_rows
    }
}

// The rows held, whatever the counts tell, have the cells that may be read. A line may be read where the
// cell has it.
impl<T: Cell> PeekableRecords for VecRecords<T> {
    ghost use Rattle.std.specs.Prelude.{◌≡◌, ◌<◌, [], length, slice_index_or};
    ghost use Rattle.papergrid_text.specs.Held.{HasCell, HoldsOfCell, IsPlainCell, cell_text};
    ghost use Rattle.papergrid_text.specs.HeldRows.{rows_held};

    ghost has = { λ s p. HasCell (rows_held s).items p };

    ghost has_line = { λ s p n.
        HoldsOfCell (λ cell. n < length (T.lines cell)) (rows_held s).items p };

    ghost text = { λ s p. cell_text T.text (rows_held s).items p };

    // The cells have lines and widths of their own, which may be those of their texts.
    ghost is_plain = { λ _. ⊥ };

    ghost is_plain_at = { λ s p.
        HoldsOfCell (IsPlainCell T.text T.lines T.width) (rows_held s).items p };

    fn get_text(&self, position: Position) -> &str {
        self.cell(position).text()
    }

    fn get_line(&self, position: Position, line: usize) -> &str
        requires at { HasCell (rows_held self.now).items position }
        requires there { HoldsOfCell (λ cell. line < length (T.lines cell))
            (rows_held self.now).items position }
        ensures { HoldsOfCell (λ cell. result.now ≡ (slice_index_or (T.lines cell) line ([], 0)).0)
            (rows_held self.now).items position }
    {
        self.cell(position).line(line)
    }

    fn count_lines(&self, position: Position) -> usize
        requires { HasCell (rows_held self.now).items position }
        ensures { HoldsOfCell (λ cell. result ≡ length (T.lines cell))
            (rows_held self.now).items position }
    {
        self.cell(position).count_lines()
    }

    fn get_width(&self, position: Position) -> usize
        requires { HasCell (rows_held self.now).items position }
        ensures { HoldsOfCell (λ cell. result ≡ T.width cell) (rows_held self.now).items position }
    {
        self.cell(position).width()
    }

    fn get_line_width(&self, position: Position, line: usize) -> usize
        requires at { HasCell (rows_held self.now).items position }
        requires there { HoldsOfCell (λ cell. line < length (T.lines cell))
            (rows_held self.now).items position }
        ensures { HoldsOfCell (λ cell. result ≡ (slice_index_or (T.lines cell) line ([], 0)).1)
            (rows_held self.now).items position }
    {
        self.cell(position).line_width(line)
    }
}

impl<T> Deref for VecRecords<T> {
    type Target = Vec<Vec<T>>;

    ghost deref_gives = { λ s r. r ≡ rows_held s };

    fn deref(&self) -> &Vec<Vec<T>> {
        &self.rows
    }
}

// What is written to the rows is held. The counts stay.
impl<T> DerefMut for VecRecords<T> {
    ghost use Rattle.std.specs.Prelude.{◌≡◌};
    ghost use Rattle.std.specs.Borrow.{Lends, sem};
    ghost use Rattle.papergrid_text.specs.HeldRows.{column_count, row_count, rows_held, vec_records_of};
    ghost use Rattle.papergrid_text.specs.Rows.{rows_row};
    ghost use Rattle.papergrid_text.specs.contracts.vec_records.VecRecords.{the_row};

    ghost deref_mut_gives = { λ s r. r ≡ rows_held s };

    fn deref_mut(&mut self) -> &mut Vec<Vec<T>>
        ensures* writes_back { sem 𝓛
            (Lends (the_row T.row) (rows_row T.row) self.entry result
            (λ rows. vec_records_of rows (row_count self.old) (column_count self.old))) }
        ensures shows { result.now ≡ rows_held self.old }
    {
        &mut self.rows
    }
}

impl<T: Drop> From<VecRecords<T>> for Vec<Vec<T>> {
    ghost from_gives = { λ s r. r ≡ rows_held s };

    fn from(records: VecRecords<T>) -> Vec<Vec<T>> {
        let VecRecords {
            rows,
            count_rows: _,
            count_cols: _,
        } = records;
        rows
    }
}

impl<T> From<Vec<Vec<T>>> for VecRecords<T> {
    ghost from_gives = { λ rows r. r ≡ vec_records_of rows (length rows.items) (first_length rows.items) };

    fn from(rows: Vec<Vec<T>>) -> VecRecords<T> {
        VecRecords::new(rows)
    }
}
