//! The rows of a text, as messages name them.

ghost use Rattle.std.specs.Prelude.{◌≡◌, ◌≢◌, ℕ, [], IfOk, IfSome, List, MatchOption, option_map, unwrap_or};
ghost use Rattle.papergrid_csv.specs.Judging.{field_at};
ghost use Rattle.papergrid_csv.specs.Rows.{AreRowsOf, IsUnread, held_texts};
ghost use Rattle.papergrid_csv.specs.Shown.{AreCut};
ghost use Rattle.papergrid_csv.specs.declared.reading.RowsError.{RowsError};
ghost use Rattle.papergrid_csv.specs.declared.reading.RowsError.TheVariants.{Memory};

use bumpalo::Bump;
use papergrid_csv::{Request, Rows, RowsError, cut_rows, read_rows};
use papergrid_values::Position;
use std::alloc::{AllocError, Global};

/// The rows of a text, each field cut where that is asked, if it has any.
pub fn shown_rows<'t>(
    alloc: Global,
    texts: &'t Bump,
    request: &Request,
    input: &[u8],
) -> Result<Option<Rows<'t>>, AllocError>
    ensures { IfOk result (λ found. IfSome found (λ rows. (whole : List (List (List ℕ)))
        × AreRowsOf request.now.reading input.now rows.columns whole
        × AreCut request.now.cut whole (held_texts rows.rows))) }
{
    let mut shown = whole_rows(alloc, texts, request, input)?;
    if let (Some(rows), Some(columns)) = (&mut shown, request.cut) {
        rows.rows = cut_rows(alloc, texts, columns, &rows.rows)?;
    }
    Ok(shown)
}

/// The rows of a text, each field whole, if it has any.
pub fn whole_rows<'t>(
    alloc: Global,
    texts: &'t Bump,
    request: &Request,
    input: &[u8],
) -> Result<Option<Rows<'t>>, AllocError>
    ensures { IfOk result (λ found. MatchOption found
        ((error : RowsError) × (error ≢ Memory) × IsUnread request.now.reading input.now error)
        (λ rows. AreRowsOf request.now.reading input.now rows.columns (held_texts rows.rows))) }
{
    match read_rows(alloc, texts, request.reading, input) {
        Ok(rows) => Ok(Some(rows)),
        Err(RowsError::Memory) => Err(AllocError),
        Err(_) => Ok(None),
    }
}

/// The text at a position, where its row has one.
pub fn text_at<'r>(rows: &Rows<'r>, position: Position) -> Option<&'r str>
    ensures { unwrap_or (option_map (λ text. text.now) result) []
        ≡ field_at (held_texts rows.now.rows) position }
{
    rows.rows.get(position.row)?.get(position.col).copied()
}
