//! A consumer of any lawful records: their contracts suffice for an exact answer.

ghost use Rattle.std.specs.Prelude.{◌≡◌, map, IfOk};
ghost use Rattle.papergrid_layout_checks.specs.ColumnWidths.{greatest_widths, raised_widths};
ghost use Rattle.papergrid_text.specs.Text.{text_width};
ghost use Rattle.papergrid_text.specs.Records.{TellsRows};

use papergrid_text::records::{IntoRecords, Records};
use papergrid_text::string::get_text_width;
use std::alloc::{AllocError, Global};
use std::convert::AsStr;
use std::iter::{IntoIterator, Iterator};

// The greatest width of each column.
pub fn widest<R: Records + Drop>(alloc: Global, records: R) -> Result<Vec<usize>, AllocError>
where
    <<R as Records>::Iter as IntoRecords>::Cell: AsStr + Drop,
    requires { R.is_lawful records }
    ensures { IfOk result (λ widths. TellsRows R.tells records (λ cells.
        (widths.items ≡ greatest_widths (R.columns records)
        (map (map (λ cell. text_width (R.Iter.Cell.text cell))) cells)))) }
{
    let columns = records.count_columns();
    let mut widths = vec![in alloc; 0usize; columns]?;
    'rows: for row in records.iter_rows() {
        let mut column = 0usize;
        'cells: for cell in row {
            raise(&mut widths, column, get_text_width(cell.as_str()));
            column += 1;
        }
    }
    Ok(widths)
}

#[tactic(auto, using(crate::proofs::ColumnWidths::raise_rules))]
fn raise(widths: &mut Vec<usize>, column: usize, width: usize)
    ensures { widths.new.items ≡ raised_widths widths.old.items column width }
{
    if column < widths.len() {
        if widths[column] < width {
            widths[column] = width;
        }
    }
}
