//! The one walk over records: a visitor takes each cell with its position.

ghost use Rattle.std.specs.Prelude.{◌≡◌, ℕ, ◌+◌, ◌++◌, ◌-◌, ◌<◌, ◌^◌, ◌∷◌, [], ⊤, IfOk, List, OnErr, OnOk, length};
ghost use Rattle.papergrid_text.specs.Records.{Gives, TellsRows, WalkIsShort};
ghost use Rattle.papergrid_values.specs.declared.position.Position.{Position};
ghost use Rattle.papergrid_walk.specs.Cells.{positioned_cells, placed_row};

use papergrid_text::{IntoRecords, Records};
use papergrid_values::Position;
use std::alloc::AllocError;
use std::iter::{IntoIterator, Iterator};

/// What takes the cells of records, by row and then by column.
///
/// An implementation says where it stands, and what holds of it before and after a visit to some cells;
/// it owes that this is kept from visit to visit.
pub trait Visitor<C> {
    // Holds where it may take the cell at a row and a column, and those after it.
    ghost ready: { Self → ℕ → ℕ → Type 0 };

    // Holds of it before and after it took these cells, by row and then by column.
    ghost consumed: { Self → Self → List (Position × C) → Type 0 };

    // Holds where a visit may fail to allocate.
    ghost may_fail: { Type 0 };

    /// Takes a cell.
    fn visit(&mut self, position: Position, cell: &C) -> Result<(), AllocError>
        requires ready { ready self.old position.row position.col }
        requires row_in { position.row < 2 ^ 64 - 1 }
        requires col_in { position.col < 2 ^ 64 - 1 }
        ensures consumed { OnOk result (consumed self.old self.new ((position, cell.now) ∷ [])) }
        ensures ready { OnOk result (ready self.new position.row (position.col + 1)) }
        ensures fails { OnErr result may_fail };

    // It took no cell yet.
    ghost empty: { (v : Self) → consumed v v [] };

    // It took some cells, and then more of them.
    ghost append: { (u v w : Self) (cells further : List (Position × C)) →
        consumed u v cells → consumed v w further → consumed u w (cells ++ further) };

    // After a row comes the next one.
    ghost next_row: { (v : Self) (row column : ℕ) → ready v row column → ready v (row + 1) 0 };
}

/// Visits the cells of a row.
fn walk_row<W: IntoIterator, V: Visitor<<W as IntoIterator>::Item>>(
    visitor: &mut V,
    number: usize,
    row: W,
) -> Result<(), AllocError>
where
    <W as IntoIterator>::Item: Drop,
    requires short { WalkIsShort W.into_iter_gives W.IntoIter.can_next W.IntoIter.remaining
        W.IntoIter.next_gives (λ _. ⊤) row }
    requires ready { V.ready visitor.old number 0 }
    requires row_in { number < 2 ^ 64 - 1 }
    ensures consumed { OnOk result ((cells : List W.Item)
        × Gives W.into_iter_gives W.IntoIter.next_gives row cells
        × V.consumed visitor.old visitor.new (placed_row number 0 cells)) }
    ensures ready { OnOk result (V.ready visitor.new (number + 1) 0) }
    ensures fails { OnErr result V.may_fail }
{
    let mut column = 0usize;
    for cell in row {
        let position = Position {
            row: number,
            col: column,
        };
        visitor.visit(position, &cell)?;
        column += 1;
    }
    Ok(())
}

/// Visits the cells of the records, and answers the number of rows.
pub fn walk<R: Records + Drop, V: Visitor<<<R as Records>::Iter as IntoRecords>::Cell>>(
    records: R,
    visitor: &mut V,
) -> Result<usize, AllocError>
where
    <<R as Records>::Iter as IntoRecords>::Cell: Drop,
    requires lawful { R.is_lawful records }
    requires ready { V.ready visitor.old 0 0 }
    ensures consumed { IfOk result
        (λ rows. TellsRows R.tells records (λ cells.
        V.consumed visitor.old visitor.new (positioned_cells cells) × (rows ≡ length cells))) }
    ensures fails { OnErr result V.may_fail }
{
    let mut count = 0usize;
    for row in records.iter_rows() {
        walk_row(visitor, count, row)?;
        count += 1;
    }
    Ok(count)
}
