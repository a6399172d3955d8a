//! Tables whose cells are held, as the printers over records draw them. What makes them stands apart (`holding`), so that
//! an edit of a run can be tried without it.

ghost use Rattle.std.specs.Prelude.{◌≡◌, length};

use papergrid_config::SpannedConfig;
use papergrid_draw::TextCells;
use std::alloc::Global;

/// The cells of each row of a table, and how many columns it has.
#[derive(Drop)]
pub struct HeldTable<T> {
    pub rows: Vec<Vec<T>>,
    pub columns: usize,
}

impl<T> HeldTable<T> {
    /// The number of rows, and that of columns.
    pub fn shape(&self) -> (usize, usize)
        ensures { result ≡ (length self.now.rows.items, self.now.columns) }
    {
        (self.rows.len(), self.columns)
    }

    /// The cells as texts, with these colours.
    pub fn texts<'s, C>(&'s self, alloc: Global, colors: &'s C) -> TextCells<'s, Vec<T>, C>
        ensures rows { result.rows.now ≡ self.now.rows.items }
        ensures colors { result.colors.now ≡ colors.now }
    {
        TextCells {
            alloc,
            rows: self.rows.as_slice(),
            colors,
        }
    }
}

/// A configuration, the cells, and how high each row is.
pub struct CompactTable<T> {
    pub config: SpannedConfig,
    pub held: HeldTable<T>,
    pub height: usize,
}

// By hand: docs/DECISIONS.md, "Drops".
impl<T: Drop> Drop for CompactTable<T> {
    fn drop(self) {
        let CompactTable {
            config: _,
            held: _,
            height: _,
        } = self;
    }
}
