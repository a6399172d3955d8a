//! Laws of documents, each the contract of a function that does nothing.

ghost use Rattle.std.specs.Prelude.{◌≡◌};
ghost use Rattle.papergrid_draw.specs.Drawings.{Drawing};
ghost use Rattle.papergrid_draw.specs.Faults.{IsDrawable};
ghost use Rattle.papergrid_draw.specs.Lined.{lined};
ghost use Rattle.papergrid_draw.specs.Sinks.{IsRefusal};
ghost use Rattle.papergrid_draw.specs.declared.error.DrawError.{DrawError};
ghost use Rattle.papergrid_json.specs.Pictures.{IsDocumentDrawing, IsDocumentFault};
ghost use Rattle.papergrid_json.specs.declared.document.Document.{Document};
ghost use Rattle.papergrid_tracks.specs.declared.sizing.Sizing.{Sizing};

use papergrid_config::laws::{equal_by_history, equal_configurations};

/// A document has no two pictures, no two reasons why it has none, and never both, whatever configuration its settings
/// make.
pub fn one_document()
    ensures pictures { (document : Document) (sizing : Sizing) (d e : Drawing) →
        IsDocumentDrawing document sizing d → IsDocumentDrawing document sizing e →
        lined d ≡ lined e }
    ensures drawn { (document : Document) (sizing : Sizing) (d : Drawing) (e : DrawError) →
        IsDocumentDrawing document sizing d → IsDrawable d →
        IsRefusal e → IsDocumentFault document sizing e → ⊥ }
    ensures refused { (document : Document) (sizing : Sizing) (e f : DrawError) →
        IsRefusal e → IsRefusal f →
        IsDocumentFault document sizing e → IsDocumentFault document sizing f → e ≡ f }
{
    equal_by_history();
    equal_configurations();
}
