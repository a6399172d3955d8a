//! Tables of CSV texts.

ghost use Rattle.std.specs.Prelude.{◌≡◌, ◌⊎◌, IfOk, IfSome, IsErrOf, IsSome, List, MatchBool, OnErr, Some, false, true, ℕ};
ghost use Rattle.std.specs.Io.KnownBytes.{Appends};
ghost use Rattle.papergrid_values.specs.declared.per_direction.PerDirection.{PerDirection};
ghost use Rattle.papergrid_tracks.specs.declared.solution.Solved.{Solved};
ghost use Rattle.papergrid_csv.specs.Certified.{HasNoPicture, HasPicture, IsCsvCertified};
ghost use Rattle.papergrid_csv.specs.Pictures.{IsCsvRun};
ghost use Rattle.papergrid_csv.specs.Requests.{IsSeparating};
ghost use Rattle.papergrid_csv.specs.Within.{IsRunWithin, cut_request};
ghost use Rattle.papergrid_csv.specs.declared.request.Alignment.TheVariants.{Auto};
ghost use Rattle.papergrid_csv.specs.declared.run.CsvEnd.TheVariants.{Drawn};
ghost use Rattle.papergrid_csv.specs.declared.style.Style.TheVariants.{Plain};
ghost use Rattle.papergrid_checks.specs.Written.{AppendsBeginning};

use papergrid::{ByteSink, RunFault, Sink, Source, read_all};
use papergrid_csv::{
    Alignment, CsvEnd, Request, Style, certify_csv, draw_csv, draw_csv_within, has_picture,
};
use papergrid_layout::{PerDirection, Solved};
use papergrid_values::Position;
use std::alloc::{AllocError, Global};

/// A request for a table in a style, with columns of numbers on the right.
pub fn aligned(alloc: Global, style: Style) -> Request
    ensures separators { IsSeparating result }
    ensures apart { (style ≡ Plain) ⊎ (IsSome result.frame.vertical) }
    ensures alignment { result.alignment ≡ Auto }
{
    let mut request = Request::in_style(alloc, style);
    request.alignment = Alignment::Auto;
    request
}

/// Reads a CSV text to its end, writes its table by a request, and answers how that ended.
pub fn csv_table<S: Source, W: Sink>(
    alloc: Global,
    request: &Request,
    reader: &mut S,
    writer: &mut W,
) -> Result<CsvEnd, RunFault>
    ensures written { IfOk result (λ end. IfSome (S.remaining reader.old) (λ text.
        (output : List ℕ) × IsCsvRun request.now text end output
        × Appends (W.contents writer.old) (W.contents writer.new) output)) }
    ensures beginning { OnErr result (IfSome (S.remaining reader.old) (λ text.
        AppendsBeginning (IsCsvRun request.now text Drawn)
        (W.contents writer.old) (W.contents writer.new))) }
    ensures write { IsErrOf result RunFault.Write → (W.has_failed writer.new ≡ true)
        ⊎ (W.has_stalled writer.old ≡ false → W.has_stalled writer.new ≡ true) }
{
    let text = read_all(alloc, reader)?;
    draw_csv(alloc, request, text.as_slice(), writer)
}

/// The table of a CSV text by a request, in memory, and how that ended.
pub fn csv_table_in_memory(
    alloc: Global,
    request: &Request,
    text: &[u8],
) -> Result<(CsvEnd, Vec<u8>), RunFault>
    ensures { IfOk result (λ drawn. IsCsvRun request.now text.now drawn.0 drawn.1.items) }
{
    let mut sink = ByteSink::new(alloc);
    let end = draw_csv(alloc, request, text, &mut sink)?;
    Ok((end, sink.into_bytes()))
}

/// The same with each field cut, where the table is wider than so many columns. The request has the cut that was found then.
pub fn csv_table_within(
    alloc: Global,
    width: usize,
    request: &mut Request,
    text: &[u8],
) -> Result<(CsvEnd, Vec<u8>), RunFault>
    ensures drawn { IfOk result (λ drawn.
        IsRunWithin request.old width text.now request.new.cut drawn.0 drawn.1.items) }
    ensures request { request.new ≡ cut_request request.old width request.new.cut }
{
    let mut sink = ByteSink::new(alloc);
    let end = draw_csv_within(alloc, width, request, text, &mut sink)?;
    Ok((end, sink.into_bytes()))
}

/// How many columns of a terminal the table of a CSV text takes, and the cells that show that none with room for all its texts is
/// narrower. Nothing where it has no table, or no such cells.
pub fn csv_width(
    alloc: Global,
    request: &Request,
    text: &[u8],
) -> Result<Option<(usize, Vec<Position>)>, AllocError>
    ensures { IfOk result (λ found. IfSome found (λ (width, positions).
        (both : PerDirection Solved) × IsCsvCertified request.now text.now both
        × (width ≡ both.columns.total) × (both.columns.certificate ≡ Some positions))) }
{
    let Some(both) = certify_csv(alloc, request, text)? else {
        return Ok(None);
    };
    let PerDirection { columns, .. } = both;
    let Solved {
        total,
        certificate,
        ..
    } = columns;
    match certificate {
        Some(positions) => Ok(Some((total, positions))),
        None => Ok(None),
    }
}

/// Whether the table of a CSV text has a picture of at most so many columns.
pub fn csv_fits(
    alloc: Global,
    width: usize,
    request: &mut Request,
    text: &[u8],
) -> Result<bool, AllocError>
    ensures { IfOk result (λ fits. MatchBool fits
        (HasPicture (record request.old { max_width = Some width }) text.now)
        (HasNoPicture (record request.old { max_width = Some width }) text.now)) }
{
    request.max_width = Some(width);
    has_picture(alloc, request, text)
}
