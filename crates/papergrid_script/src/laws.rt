//! Laws of the definitions, each the contract of a function that does nothing.

ghost use Rattle.std.specs.Prelude.{◌≡◌, ◌↔◌, ℕ, List, None, Some, true, All, Result, Ok};
ghost use Rattle.papergrid_values.specs.declared.entity.Entity.{Entity};
ghost use Rattle.papergrid_config.specs.Applied.{is_in_range};
ghost use Rattle.papergrid_tracks.specs.declared.sizing.Sizing.{Sizing};
ghost use Rattle.papergrid_tracks.specs.declared.sizing.Sizing.TheVariants.{ByShares, Least};
ghost use Rattle.papergrid_script.specs.Estimates.{Estimate, IsEstimate, TooLarge};
ghost use Rattle.papergrid_script.specs.Outputs.{IsOutcome, Outcome, outcome_end, outcome_text};
ghost use Rattle.papergrid_script.specs.Reasons.{IsOutcomeReason, IsTableReason, reason_text};
ghost use Rattle.papergrid_script.specs.ScriptLines.{AreScriptLines};
ghost use Rattle.papergrid_script.specs.Scripts.{IsScript, Table};
ghost use Rattle.papergrid_script.specs.Spelling.{IsEntity, IsNumber, Said, Says};
ghost use Rattle.papergrid_script.specs.declared.answer.RunEnd.{RunEnd};
ghost use Rattle.papergrid_script.specs.declared.explained.Reason.{Reason};

pub use crate::worked::worked_rows;

/// Each input comes to one outcome, and to no other.
pub fn one_outcome()
    ensures some { (sizing : Sizing) (input : List ℕ) →
        (outcome : Outcome) × IsOutcome sizing input outcome }
    ensures only { (sizing : Sizing) (input : List ℕ) (outcome other : Outcome) →
        IsOutcome sizing input outcome → IsOutcome sizing input other → outcome ≡ other }
{}

/// Each table has one estimate, and no other. Least sizes are too large only where those by shares are.
pub fn one_estimate()
    ensures some { (sizing : Sizing) (table : Table) →
        (estimate : Estimate) × IsEstimate sizing table estimate }
    ensures only { (sizing : Sizing) (table : Table) (estimate other : Estimate) →
        IsEstimate sizing table estimate → IsEstimate sizing table other → estimate ≡ other }
    ensures least_too_large { (table : Table) →
        IsEstimate Least table TooLarge → IsEstimate ByShares table TooLarge }
{}

/// An input has a reason exactly where its run does not end with sizes: a bad line where it ends as a bad script, and one of
/// its table where it is refused. The run writes that reason in its words.
pub fn reasons_by_ends()
    ensures none { (outcome : Outcome) → IsOutcomeReason outcome None
        ↔ (outcome_end outcome ≡ RunEnd.Done) }
    ensures bad_line { (outcome : Outcome) →
        ((number : ℕ) × IsOutcomeReason outcome (Some (Reason.BadLine number)))
        ↔ (outcome_end outcome ≡ RunEnd.BadScript) }
    ensures refused { (outcome : Outcome) →
        ((reason : Reason) × IsOutcomeReason outcome (Some reason) × IsTableReason reason)
        ↔ (outcome_end outcome ≡ RunEnd.Refused) }
    ensures written { (outcome : Outcome) (reason : Reason) →
        IsOutcomeReason outcome (Some reason) → outcome_text outcome ≡ reason_text reason }
{}

/// Bytes spell at most one number, one entity, and one thing that a line says.
pub fn one_meaning()
    ensures number { (digits : List ℕ) (m n : ℕ) → IsNumber digits m → IsNumber digits n → m ≡ n }
    ensures entity { (bytes : List ℕ) (x y : Entity) → IsEntity bytes x → IsEntity bytes y → x ≡ y }
    ensures line { (line : List ℕ) (x y : Said) → Says line x → Says line y → x ≡ y }
{}

/// An input has one list of lines: newline-free pieces that join to it, without an empty last piece, each without one
/// carriage return at its end.
pub fn one_list_of_lines()
    ensures some { (input : List ℕ) → (lines : List (List ℕ)) × AreScriptLines input lines }
    ensures only { (input : List ℕ) (lines other : List (List ℕ)) →
        AreScriptLines input lines → AreScriptLines input other → lines ≡ other }
{}

/// Each input is one script, and no other: it describes one table, or has one first bad line, and never both.
pub fn one_script()
    ensures some { (input : List ℕ) → (script : Result Table ℕ) × IsScript input script }
    ensures only { (input : List ℕ) (script other : Result Table ℕ) →
        IsScript input script → IsScript input other → script ≡ other }
{}

/// The settings that a script has are in range: each may be applied.
pub fn script_settings_in_range()
    ensures { (input : List ℕ) (table : Table) →
        IsScript input (Ok table) → All (λ setting. is_in_range setting ≡ true) table.settings }
{}
