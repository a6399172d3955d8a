//! Laws of the picture of a CSV text, each the contract of a function that does nothing.

ghost use Rattle.std.specs.Prelude.{◌≡◌, ◌↔◌, ◌<◌, [], ◌⊎◌, ℕ, All, IsSome, List, true};
ghost use Rattle.papergrid_values.specs.declared.direction.Direction.TheVariants.{Columns};
ghost use Rattle.papergrid_text.specs.Text.{width_of};
ghost use Rattle.papergrid_layout.specs.Places.{total_along};
ghost use Rattle.papergrid_draw.specs.Drawings.{Drawing, layout_of};
ghost use Rattle.papergrid_draw.specs.Drawn.{drawn_lines};
ghost use Rattle.papergrid_draw.specs.Faults.{IsDrawable};
ghost use Rattle.papergrid_draw.specs.Laws.{pieces_of};
ghost use Rattle.papergrid_draw.specs.Separated.{pieces_text};
ghost use Rattle.papergrid_draw.specs.declared.error.DrawError.{DrawError};
ghost use Rattle.papergrid_draw.specs.declared.error.DrawError.TheVariants.{TooLarge};
ghost use Rattle.papergrid_csv.specs.Pictures.{IsCsvDrawing, IsCsvRefused, IsCsvRun};
ghost use Rattle.papergrid_csv.specs.Requests.{IsSeparating};
ghost use Rattle.papergrid_csv.specs.declared.reading.Format.{Format};
ghost use Rattle.papergrid_csv.specs.declared.reading.Reading.{Reading};
ghost use Rattle.papergrid_csv.specs.declared.request.Alignment.{Alignment};
ghost use Rattle.papergrid_csv.specs.declared.request.Span.{Span};
ghost use Rattle.papergrid_csv.specs.declared.style.Style.{Style};
ghost use Rattle.papergrid_csv.specs.declared.reading.RowsError.{RowsError};
ghost use Rattle.papergrid_csv.specs.declared.request.Request.{Request};
ghost use Rattle.papergrid_csv.specs.declared.run.CsvEnd.{CsvEnd};

use crate::reading::{Format, Reading, RowsError};
use crate::request::{Alignment, Span};
use crate::run::CsvEnd;
use crate::style::Style;
use papergrid_config::laws::{equal_by_history, equal_configurations};

/// Each line of the picture of a CSV text is as wide as its table, as `unicode_width` counts it, whatever the text is, where
/// the characters of the request are separators, and a vertical line or a padding stands between columns.
pub fn csv_lines_as_wide()
    ensures { (request : Request) (input : List ℕ) (d : Drawing) →
        IsCsvDrawing request input d → IsSeparating request →
        (IsSome request.frame.vertical) ⊎ (0 < request.padding.left.size) →
        All (λ line. width_of (pieces_text (pieces_of line)) ≡ total_along (layout_of d) Columns)
        (drawn_lines d) }
{}

/// The drawing of a CSV text can be drawn: its spans tile it, each field has room, and it is not too large.
pub fn csv_drawable()
    ensures { (request : Request) (input : List ℕ) (d : Drawing) →
        IsCsvDrawing request input d → IsDrawable d }
{}

/// A CSV text has no two runs: there is one end, and one output.
pub fn one_run()
    ensures { (request : Request) (input : List ℕ) (end other : CsvEnd) (output bytes : List ℕ) →
        IsCsvRun request input end output → IsCsvRun request input other bytes →
        (end ≡ other) × (output ≡ bytes) }
{
    equal_by_history();
    equal_configurations();
}

/// A CSV text whose rows have no picture, and no spans, is refused as too large, and for no other reason.
pub fn csv_refused_too_large()
    ensures { (request : Request) (input : List ℕ) (e : DrawError) →
        request.spans.items ≡ [] → IsCsvRefused request input e → e ≡ TooLarge }
{}

/// A clone equals its original.
pub fn equal_clones()
    ensures format { (x y : Format) → ⟦<Format as Clone>⟧.is_clone x y → y ≡ x }
    ensures reading { (x y : Reading) → ⟦<Reading as Clone>⟧.is_clone x y → y ≡ x }
    ensures alignment { (x y : Alignment) → ⟦<Alignment as Clone>⟧.is_clone x y → y ≡ x }
    ensures span { (x y : Span) → ⟦<Span as Clone>⟧.is_clone x y → y ≡ x }
    ensures style { (x y : Style) → ⟦<Style as Clone>⟧.is_clone x y → y ≡ x }
    ensures rows_error { (x y : RowsError) → ⟦<RowsError as Clone>⟧.is_clone x y → y ≡ x }
    ensures end { (x y : CsvEnd) → ⟦<CsvEnd as Clone>⟧.is_clone x y → y ≡ x }
{}

/// Values are equal exactly where they are the same.
pub fn equal_where_same()
    ensures format { (x y : Format) → (⟦<Format as PartialEq>⟧.eq x y ≡ true) ↔ (x ≡ y) }
    ensures reading { (x y : Reading) → (⟦<Reading as PartialEq>⟧.eq x y ≡ true) ↔ (x ≡ y) }
    ensures alignment { (x y : Alignment) → (⟦<Alignment as PartialEq>⟧.eq x y ≡ true) ↔ (x ≡ y) }
    ensures span { (x y : Span) → (⟦<Span as PartialEq>⟧.eq x y ≡ true) ↔ (x ≡ y) }
    ensures style { (x y : Style) → (⟦<Style as PartialEq>⟧.eq x y ≡ true) ↔ (x ≡ y) }
    ensures rows_error { (x y : RowsError) → (⟦<RowsError as PartialEq>⟧.eq x y ≡ true) ↔ (x ≡ y) }
    ensures end { (x y : CsvEnd) → (⟦<CsvEnd as PartialEq>⟧.eq x y ≡ true) ↔ (x ≡ y) }
{}
