//! Rows as they are drawn.

ghost use Rattle.std.specs.Prelude.{◌≡◌, [], IfOk, OnOk, map};
ghost use Rattle.std.specs.List.{AllZip};
ghost use Rattle.papergrid_csv.specs.Cutting.{IsCut};
ghost use Rattle.papergrid_csv.specs.Rows.{row_texts, held_texts};

use crate::cutting::cut;
use bumpalo::Bump;
use std::alloc::{AllocError, Global};

/// The rows with each field cut to so many columns of a terminal, as by `cut`, in an arena.
///
/// # Errors
///
/// `AllocError` where a growth is refused.
pub fn cut_rows<'t>(
    alloc: Global,
    texts: &'t Bump,
    columns: usize,
    rows: &[Vec<&'t str>],
) -> Result<Vec<Vec<&'t str>>, AllocError>
    ensures { IfOk result (λ shown. AllZip (AllZip (IsCut columns))
        (map row_texts rows.now) (held_texts shown)) }
{
    let mut shown = Vec::with_capacity(alloc, rows.len())?;
    push_rows(alloc, texts, columns, rows, &mut shown)?;
    Ok(shown)
}

/// Adds them to rows of which there are none.
fn push_rows<'t>(
    alloc: Global,
    texts: &'t Bump,
    columns: usize,
    rows: &[Vec<&'t str>],
    shown: &mut Vec<Vec<&'t str>>,
) -> Result<(), AllocError>
    requires { shown.old.items ≡ [] }
    ensures { OnOk result (AllZip (AllZip (IsCut columns))
        (map row_texts rows.now) (held_texts shown.new)) }
{
    for row in rows {
        shown.push(cut_row(alloc, texts, columns, row)?)?;
    }
    Ok(())
}

/// A row with each field cut.
fn cut_row<'t>(
    alloc: Global,
    texts: &'t Bump,
    columns: usize,
    row: &[&'t str],
) -> Result<Vec<&'t str>, AllocError>
    ensures { IfOk result (λ shown. AllZip (IsCut columns)
        (map (λ field. field.now) row.now) (row_texts shown)) }
{
    let mut shown = Vec::with_capacity(alloc, row.len())?;
    push_fields(texts, columns, row, &mut shown)?;
    Ok(shown)
}

/// Adds them to a row that is empty.
fn push_fields<'t>(
    texts: &'t Bump,
    columns: usize,
    row: &[&'t str],
    shown: &mut Vec<&'t str>,
) -> Result<(), AllocError>
    requires { shown.old.items ≡ [] }
    ensures { OnOk result (AllZip (IsCut columns)
        (map (λ field. field.now) row.now) (row_texts shown.new)) }
{
    for field in row {
        shown.push(cut(texts, columns, *field)?)?;
    }
    Ok(())
}
