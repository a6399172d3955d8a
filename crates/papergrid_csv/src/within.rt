//! The run of a CSV text whose fields are cut so that its table is no wider than it may be.

ghost use Rattle.std.specs.Prelude.{◌≡◌, ◌↔◌, ℕ, IsTrue};
ghost use Rattle.papergrid_csv.specs.Pictures.{WritesCsv};
ghost use Rattle.papergrid_csv.specs.Rows.{held_texts};
ghost use Rattle.papergrid_csv.specs.Within.{IsGreatestCut, IsRunWithin, cut_request};
ghost use Rattle.papergrid_csv.specs.ForProofs.Within.{IsFirstCut};
ghost use Rattle.papergrid_csv.specs.declared.run.CsvEnd.TheVariants.{TooWide};

use crate::reading::{Rows, read_rows};
use crate::request::Request;
use crate::run::{CsvEnd, draw_rows, end_unread};
use crate::widest::widest_line;
use bumpalo::Bump;
use papergrid_script::reading::RunFault;
use papergrid_text::transfer::Sink;
use std::alloc::Global;

/// Like `draw_csv`, with each field cut by the greatest cut of at most so many columns by which the table is no wider than
/// that, or as it is where the table is no wider so. The cut and the greatest width of the request are not looked at. The
/// request has those that were found then, also where the run broke off. The end is `TooWide`, and nothing is written, only
/// where not even a cut of one column will do.
///
/// The rows are read once. Cuts are tried from the widest line of a field downwards, or from `width` where that is less, each
/// by an estimate of the table. So it takes time that grows with them too.
///
/// Errors: as those of `draw_csv`.
pub fn draw_csv_within<W: Sink>(
    alloc: Global,
    width: usize,
    request: &mut Request,
    input: &[u8],
    writer: &mut W,
) -> Result<CsvEnd, RunFault>
    // The picture of its table, with fields cut as the request says now, was written, or nothing where it has none. Or which fault
    // comes, and what it leaves of the writer.
    ensures runs { WritesCsv W.contents W.has_failed W.has_stalled
        (IsRunWithin request.old width input.now request.new.cut)
        writer.old writer.new result }
    // No greater cut will do than the one that the request has now, however the run ended.
    ensures greatest { IsGreatestCut request.old width input.now request.new.cut }
    // The request has the cut that was found, and is else as it was but for the width.
    ensures request { request.new ≡ cut_request request.old width request.new.cut }
{
    request.max_width = Some(width);
    request.cut = None;
    let texts = Bump::new(alloc);
    let rows = match read_rows(alloc, &texts, request.reading, input) {
        Ok(rows) => rows,
        Err(error) => return end_unread(error),
    };
    let mut end = draw_rows(alloc, request, &rows, writer)?;
    let mut next = first_cut(width, &rows);
    while 0 < next && is_too_wide(end) {
        request.cut = Some(next);
        end = draw_rows(alloc, request, &rows, writer)?;
        next -= 1;
    }
    Ok(end)
}

/// The first cut to try, of at most so many columns: each greater one of those changes no field.
fn first_cut(width: usize, rows: &Rows<'_>) -> usize
    ensures { IsFirstCut width (held_texts rows.now.rows) result }
{
    width.min(widest_line(&rows.rows).saturating_sub(1).max(1))
}

/// Whether a run ended since its table is too wide.
fn is_too_wide(end: CsvEnd) -> bool
    ensures { IsTrue result ↔ ((found : ℕ) × (end ≡ TooWide found)) }
{
    match end {
        CsvEnd::TooWide(_) => true,
        _ => false,
    }
}
