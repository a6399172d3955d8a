//! The picture of an input, of a text, a script or a document.

ghost use Rattle.std.specs.Prelude.{◌≡◌, OnOk, false, ⊤};
ghost use Rattle.papergrid_script.specs.Runs.{Runs};
ghost use Rattle.papergrid_script.specs.Writing.{WritesOutput};
ghost use Rattle.papergrid_table.specs.Pictures.{IsCutOf, IsRunOf};

use crate::arguments::{Kind, Wanted};
use crate::document::{DocumentEnd, draw_text};
use papergrid::{RunEnd, RunFault, Sink, Source, draw_script, read_all};
use papergrid_csv::{CsvEnd, draw_csv, draw_csv_within};
use std::alloc::Global;

/// How a run ended, of a text, of a script or of a document.
#[derive(Clone, Copy)]
pub enum End {
    OfText(CsvEnd),
    OfScript(RunEnd),
    OfDocument(DocumentEnd),
}

/// Writes the picture of the input that is read, keeps the input, and answers how that ended.
pub fn run_input<S: Source, W: Sink>(
    alloc: Global,
    wanted: &mut Wanted,
    reader: &mut S,
    writer: &mut W,
    input: &mut Vec<u8>,
) -> Result<End, RunFault>
    requires reader { S.has_failed reader.old ≡ false }
    requires writer { W.has_failed writer.old ≡ false }
    ensures runs { Runs S.remaining S.has_failed W.contents W.has_failed W.has_stalled
        reader.old reader.new writer.old writer.new input.old input.new
        (IsRunOf wanted.old.kind wanted.old wanted.new.request.cut input.new.items) result }
    ensures wanted { OnOk result (IsCutOf wanted.old.kind wanted.old wanted.new) }
{
    *input = read_all(alloc, reader)?;
    draw_input(alloc, wanted, input.as_slice(), writer)
}

/// Writes the picture of an input, and answers how that ended.
fn draw_input<W: Sink>(
    alloc: Global,
    wanted: &mut Wanted,
    input: &[u8],
    writer: &mut W,
) -> Result<End, RunFault>
    ensures written { WritesOutput W.contents W.has_failed W.has_stalled (λ _. ⊤)
        (IsRunOf wanted.old.kind wanted.old wanted.new.request.cut input.now)
        writer.old writer.new result }
    ensures wanted { IsCutOf wanted.old.kind wanted.old wanted.new }
{
    let sizing = wanted.request.sizing;
    match wanted.kind {
        Kind::Script => draw_script(alloc, sizing, input, writer).map(End::OfScript),
        Kind::Json => draw_text(alloc, sizing, input, writer).map(End::OfDocument),
        Kind::Csv | Kind::Tsv => match wanted.width {
            None => draw_csv(alloc, &wanted.request, input, writer).map(End::OfText),
            Some(width) => {
                draw_csv_within(alloc, width, &mut wanted.request, input, writer).map(End::OfText)
            }
        },
    }
}
