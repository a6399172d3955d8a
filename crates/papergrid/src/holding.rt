//! Makes a table that holds the cells of records, row by row.

ghost use Rattle.std.specs.Prelude.{◌≡◌, ⊤, IfOk, map};
ghost use Rattle.papergrid_text.specs.Records.{Gives, WalkIsShort};

use crate::held::HeldTable;
use papergrid_text::{IntoRecords, Records};
use std::alloc::{AllocError, Global};
use std::iter::{IntoIterator, Iterator};

/// The cells of a row.
fn held_row<W: IntoIterator>(
    alloc: Global,
    row: W,
) -> Result<Vec<<W as IntoIterator>::Item>, AllocError>
where
    <W as IntoIterator>::Item: Drop,
    requires { WalkIsShort W.into_iter_gives W.IntoIter.can_next W.IntoIter.remaining
        W.IntoIter.next_gives (λ _. ⊤) row }
    ensures { IfOk result (λ held. Gives W.into_iter_gives W.IntoIter.next_gives row held.items) }
{
    let mut held = Vec::new(alloc);
    for cell in row {
        held.push(cell)?;
    }
    Ok(held)
}

/// The cells of each row of the records.
fn held_rows<R: Records + Drop>(
    alloc: Global,
    records: R,
) -> Result<Vec<Vec<<<R as Records>::Iter as IntoRecords>::Cell>>, AllocError>
where
    <<R as Records>::Iter as IntoRecords>::Cell: Drop,
    requires { R.is_lawful records }
    ensures { IfOk result (λ held. R.tells records (map (λ row. row.items) held.items)) }
{
    let mut held = Vec::new(alloc);
    for row in records.iter_rows() {
        held.push(held_row(alloc, row)?)?;
    }
    Ok(held)
}

/// The table of these records.
pub fn held_table<R: Records + Drop>(
    alloc: Global,
    records: R,
) -> Result<HeldTable<<<R as Records>::Iter as IntoRecords>::Cell>, AllocError>
where
    <<R as Records>::Iter as IntoRecords>::Cell: Drop,
    requires { R.is_lawful records }
    ensures told { IfOk result (λ held. R.tells records
        (map (λ row. row.items) held.rows.items)) }
    ensures columns { IfOk result (λ held. held.columns ≡ R.columns records) }
{
    let columns = records.count_columns();
    let rows = held_rows(alloc, records)?;
    Ok(HeldTable { rows, columns })
}
