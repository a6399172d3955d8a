//! What the lines of a script have said so far.

ghost use Rattle.std.specs.Prelude.{◌≡◌, IfOk, OnOk, Some};
ghost use Rattle.papergrid_script.specs.Spelling.{Row, Cell};
ghost use Rattle.papergrid_script.specs.ForProofs.Read.{empty_table, table_with_line};
ghost use Rattle.papergrid_script.specs.ForProofs.Drafts.{Takes, table_so_far, with_last};
ghost use Rattle.papergrid_script.specs.Seen.{rows_seen, table_seen, row_texts_of};

use crate::script::Script;
use crate::script_setting::ScriptSetting;
use bumpalo::Bump;
use std::alloc::{AllocError, Global};

/// What the lines of a script have said so far. The cells of the last row are gathered apart, and moved
/// to the arena at its end, so that no row has a block of memory of its own.
pub struct Draft<'a> {
    /// The number of columns.
    pub columns: usize,
    /// The settings, oldest first.
    pub settings: Vec<ScriptSetting>,
    /// The texts of the cells of each row; the last row has its place here, and its cells in `last`.
    pub rows: Vec<&'a [&'a str]>,
    /// The texts of the cells of the last row.
    pub last: Vec<&'a str>,
    /// Where texts with escapes are kept, and the rows that have ended.
    pub arena: &'a Bump,
}

// By hand: docs/DECISIONS.md, "Drops".
impl Drop for Draft<'_> {
    fn drop(self) {
        let Draft {
            columns: _,
            settings: _,
            rows: _,
            last: _,
            arena: _,
        } = self;
    }
}

impl<'a> Draft<'a> {
    /// What no lines say.
    pub fn new(alloc: Global, arena: &'a Bump) -> Draft<'a>
        ensures { table_so_far result ≡ empty_table }
    {
        Draft {
            columns: 0,
            settings: Vec::new(alloc),
            rows: Vec::new(alloc),
            last: Vec::new(alloc),
            arena,
        }
    }

    /// Begins a row.
    pub fn add_row(&mut self) -> Result<(), AllocError>
        ensures { OnOk result
            (table_with_line (table_so_far self.old) Row ≡ Some (table_so_far self.new)) }
    {
        end_row(self.arena, &mut self.rows, self.last.as_slice())?;
        self.rows.push(&[])?;
        self.last.clear();
        Ok(())
    }

    /// Adds a cell to the last row; false where there is none.
    pub fn add_cell(&mut self, text: &'a str) -> Result<bool, AllocError>
        ensures { IfOk result (λ fits. Takes self.old (Some (Cell text.now)) fits self.new) }
    {
        if self.rows.is_empty() {
            return Ok(false);
        }
        self.last.push(text)?;
        Ok(true)
    }

    /// The script of all lines.
    pub fn finish(self) -> Result<Script<'a>, AllocError>
        ensures { IfOk result (λ script. table_seen script ≡ table_so_far self.entry) }
    {
        let Draft {
            columns,
            settings,
            mut rows,
            last,
            arena,
        } = self;
        end_row(arena, &mut rows, last.as_slice())?;
        Ok(Script {
            columns,
            settings,
            rows,
        })
    }
}

/// Puts the cells of the last row in its place, if there is one.
fn end_row<'a>(
    arena: &'a Bump,
    rows: &mut Vec<&'a [&'a str]>,
    cells: &[&'a str],
) -> Result<(), AllocError>
    ensures { OnOk result (rows_seen rows.new.items
        ≡ with_last (rows_seen rows.old.items) (row_texts_of cells.now)) }
{
    match rows.last_mut() {
        None => Ok(()),
        Some(row) => {
            *row = arena.try_alloc_slice_copy(cells)?;
            Ok(())
        }
    }
}
