//! Tables of JSON documents.

ghost use Rattle.std.specs.Prelude.{◌≡◌, Err, IfErr, List, OnErr, OnOk, ℕ};
ghost use Rattle.std.specs.Io.KnownBytes.{Appends};
ghost use Rattle.papergrid_checks.specs.Documents.{IsOfDocument};
ghost use Rattle.papergrid_checks.specs.Written.{AppendsBeginning};
ghost use Rattle.papergrid_checks.specs.declared.documents.TableError.TheVariants.{Undrawn, Unread};
ghost use Rattle.papergrid_draw.specs.declared.error.DrawError.{DrawError};
ghost use Rattle.papergrid_draw.specs.Sinks.{IsRefusal};
ghost use Rattle.papergrid_json.specs.Documents.{IsDocumentRead};
ghost use Rattle.papergrid_json.specs.declared.error.DocumentError.{DocumentError};

use crate::documents::TableError;
use papergrid::{Sink, Sizing};
use papergrid_json::{draw_document, read_document};
use std::alloc::Global;

/// Writes the picture of the table that a JSON text describes.
pub fn json_table<W: Sink>(alloc: Global, text: &[u8], writer: &mut W) -> Result<(), TableError>
    ensures picture { OnOk result ((output : List ℕ) × IsOfDocument text.now output
        × Appends (W.contents writer.old) (W.contents writer.new) output) }
    ensures unread { IfErr result (λ e. (error : DocumentError) →
        e ≡ Unread error → (writer.new ≡ writer.old) × IsDocumentRead text.now (Err error)) }
    ensures undrawn { IfErr result (λ e. (error : DrawError) →
        e ≡ Undrawn error → IsRefusal error → writer.new ≡ writer.old) }
    ensures beginning { OnErr result (AppendsBeginning (IsOfDocument text.now)
        (W.contents writer.old) (W.contents writer.new)) }
{
    let document = read_document(alloc, text).map_err(TableError::Unread)?;
    draw_document(alloc, &document, Sizing::ByShares, writer).map_err(TableError::Undrawn)
}
