//! Laws of the definitions, each the contract of a function that does nothing.

ghost use Rattle.std.specs.Prelude.{◌≡◌, ◌↔◌, ℕ, List, Option, length, map, true};
ghost use Rattle.papergrid_values.specs.declared.compact.CompactConfig.{CompactConfig};
ghost use Rattle.papergrid_values.specs.declared.position.Position.{Position};
ghost use Rattle.papergrid_text.specs.Measured.{measured_text};
ghost use Rattle.papergrid_text.specs.declared.transfer.Failed.{Failed};
ghost use Rattle.papergrid_layout.specs.Tables.{TableParts};
ghost use Rattle.papergrid_tracks.specs.declared.sizing.Sizing.{Sizing};
ghost use Rattle.papergrid_draw.specs.declared.error.DrawError.{DrawError};
ghost use Rattle.papergrid_script.specs.declared.answer.RunEnd.{RunEnd};
ghost use Rattle.papergrid_script.specs.declared.explained.Reason.{Reason};
ghost use Rattle.papergrid_script.specs.declared.reading.RunFault.{RunFault};
ghost use Rattle.papergrid_script.specs.declared.script_setting.ScriptSetting.{ScriptSetting};
ghost use Rattle.papergrid_draw.specs.Cells.{text_lines};
ghost use Rattle.papergrid_draw.specs.Drawings.{Drawing};
ghost use Rattle.papergrid.specs.Compact.{IsCompactDrawing, compact_height, first_text};
ghost use Rattle.papergrid.specs.Pictures.{IsPictureRun};
ghost use Rattle.papergrid.specs.Sized.{drawing_of_rows, parts_of};

pub use papergrid_config::laws::grid_by_settings;
use papergrid_draw::DrawError;
pub use papergrid_draw::laws::{one_answer, one_picture};
use papergrid_layout::Sizing;
use papergrid_script::answer::RunEnd;
use papergrid_script::explained::Reason;
pub use papergrid_script::laws::{
    one_estimate, one_list_of_lines, one_meaning, one_outcome, one_script, reasons_by_ends,
    script_settings_in_range, worked_rows,
};
use papergrid_script::reading::RunFault;
use papergrid_script::script_setting::ScriptSetting;
use papergrid_text::transfer::Failed;
use papergrid_text::{Cell, IntoRecords, Records, Text};
use std::convert::AsStr;

/// A clone equals its original.
pub fn equal_clones()
    ensures sizing { (x y : Sizing) → ⟦<Sizing as Clone>⟧.is_clone x y → y ≡ x }
    ensures reason { (x y : Reason) → ⟦<Reason as Clone>⟧.is_clone x y → y ≡ x }
    ensures end { (x y : RunEnd) → ⟦<RunEnd as Clone>⟧.is_clone x y → y ≡ x }
    ensures fault { (x y : RunFault) → ⟦<RunFault as Clone>⟧.is_clone x y → y ≡ x }
    ensures failed { (x y : Failed) → ⟦<Failed as Clone>⟧.is_clone x y → y ≡ x }
    ensures draw_error { (x y : DrawError) → ⟦<DrawError as Clone>⟧.is_clone x y → y ≡ x }
    ensures setting { (x y : ScriptSetting) → ⟦<ScriptSetting as Clone>⟧.is_clone x y → y ≡ x }
{}

/// Values are equal exactly where they are the same.
pub fn equal_where_same()
    ensures sizing { (x y : Sizing) → (⟦<Sizing as PartialEq>⟧.eq x y ≡ true) ↔ (x ≡ y) }
    ensures reason { (x y : Reason) → (⟦<Reason as PartialEq>⟧.eq x y ≡ true) ↔ (x ≡ y) }
    ensures end { (x y : RunEnd) → (⟦<RunEnd as PartialEq>⟧.eq x y ≡ true) ↔ (x ≡ y) }
    ensures fault { (x y : RunFault) → (⟦<RunFault as PartialEq>⟧.eq x y ≡ true) ↔ (x ≡ y) }
    ensures failed { (x y : Failed) → (⟦<Failed as PartialEq>⟧.eq x y ≡ true) ↔ (x ≡ y) }
    ensures draw_error { (x y : DrawError) → (⟦<DrawError as PartialEq>⟧.eq x y ≡ true)
        ↔ (x ≡ y) }
{}

/// The bytes of a script have no two outputs. Runs that draw their table end in one way, and write one text.
pub fn one_output()
    ensures { (sizing : Sizing) (input : List ℕ) (end other : RunEnd) (output bytes : List ℕ) →
        IsPictureRun sizing input end output → IsPictureRun sizing input other bytes →
        (end ≡ other) × (output ≡ bytes) }
{
    one_picture();
    one_script();
}

/// The printers draw one picture. That of measured texts, by `PeekableGrid`, is that of the texts, by `IterGrid`. That of
/// a compact table, by `CompactGrid`, is that of the first lines of its texts, by `IterGrid` with the configuration that
/// the compact one stands for, the same widths and a height of one line with the paddings.
pub fn one_picture_for_grids<S: AsStr, R: Records>()
where
    <<R as Records>::Iter as IntoRecords>::Cell: AsStr,
    ensures measured { (texts : List (List S)) (parts : TableParts)
        (color : Position → Option (List ℕ × List ℕ)) →
        drawing_of_rows ⟦<Text<S> as Cell>⟧.lines parts
        (map (map (measured_text S.text)) texts) color
        ≡ drawing_of_rows (λ text. text_lines (S.text text)) parts texts color }
    ensures compact { (records : R) (compact : CompactConfig) (widths : ℕ → ℕ)
        (color : Position → Option (List ℕ × List ℕ)) (d : Drawing)
        (drawn : IsCompactDrawing R.Iter.Cell.text (R.tells records) (R.columns records) compact
        widths color d) →
        let parts = parts_of drawn.config widths (λ _. compact_height compact)
        (length drawn.cells, R.columns records) in
        d ≡ drawing_of_rows text_lines parts
        (map (map (λ cell. first_text (R.Iter.Cell.text cell))) drawn.cells) color }
{}
