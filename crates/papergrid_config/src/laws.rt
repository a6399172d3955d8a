//! Laws over the definitions that the contracts cite.

ghost use Rattle.std.specs.Prelude.{◌≡◌, ◌∷◌, [], ◌↔◌, ◌≤◌, ℕ, IsSome, IsTrue, List, true};
ghost use Rattle.std.specs.List.{list_all};
ghost use Rattle.papergrid_values.specs.declared.direction.Direction.{Direction};
ghost use Rattle.papergrid_values.specs.declared.direction.Direction.TheVariants.{Columns, Rows};
ghost use Rattle.papergrid_values.specs.declared.position.Position.{Position};
ghost use Rattle.papergrid_tables.specs.StoredBorders.{StoredBorders, parts_of_borders};
ghost use Rattle.papergrid_tables.specs.BorderParts.{HasLine};
ghost use Rattle.papergrid_maps.specs.Grids.{Grid};
ghost use Rattle.papergrid_config.specs.ConfigSame.{HoldTheSameSettings};
ghost use Rattle.papergrid_config.specs.Laws.{HoldsEffectiveValues};
ghost use Rattle.papergrid_config.specs.Lines.{shown_horizontal, shown_intersection, shown_vertical};
ghost use Rattle.papergrid_config.specs.Grids.{IsGridOf, spanned_grid};
ghost use Rattle.papergrid_tables.specs.LineTests.{line_along};
ghost use Rattle.papergrid_config.specs.History.{HasSettingHistory};
ghost use Rattle.papergrid_config.specs.declared.setting.Setting.{Setting};
ghost use Rattle.papergrid_config.specs.declared.spanned.SpannedConfig.{SpannedConfig};

use crate::setting::Setting;
use crate::spanned::SpannedConfig;
use papergrid_maps::{EntityMap, SpanTable};
use papergrid_tables::{BorderTable, OffsetTable};
use papergrid_values::{ANSIBuf, AlignmentHorizontal, AlignmentVertical, Indent, Offset, Sides};

/// A configuration with the settings as its history has at each position what they decide.
pub fn history_decides()
    ensures { (settings : List Setting) (config : SpannedConfig) →
        HasSettingHistory settings config →
        HoldsEffectiveValues settings config }
{}

/// What an estimate reads of a configuration that settings make, which is which positions are visible and the spans,
/// the paddings and the lines, is what the settings decide. They decide one grid, and no other.
pub fn grid_by_settings()
    ensures read { (settings : List Setting) (config : SpannedConfig) →
        HasSettingHistory settings config → IsGridOf settings (spanned_grid config) }
    ensures some { (settings : List Setting) → (grid : Grid) × IsGridOf settings grid }
    ensures only { (settings : List Setting) (grid other : Grid) →
        IsGridOf settings grid → IsGridOf settings other → grid ≡ other }
{}

/// There is a line in a border table exactly where its parts have one.
pub fn lines_by_parts()
    ensures { (characters : StoredBorders ℕ) (direction : Direction) (i count : ℕ) →
        IsTrue (line_along characters direction count i)
        ↔ HasLine direction (parts_of_borders characters) i count }
{}

/// In a table of so many columns (rows) a character is shown on a line exactly where the line is
/// there, and one is shown where two lines that are there cross.
pub fn shown_where_lines_are()
    ensures vertical { (characters : StoredBorders ℕ) (missing : ℕ) (p : Position) (count : ℕ) →
        p.col ≤ count → IsSome (shown_vertical characters missing p count)
        ↔ HasLine Columns (parts_of_borders characters) p.col count }
    ensures horizontal { (characters : StoredBorders ℕ) (missing : ℕ) (p : Position) (count : ℕ) →
        p.row ≤ count → IsSome (shown_horizontal characters missing p count)
        ↔ HasLine Rows (parts_of_borders characters) p.row count }
    ensures crossing { (characters : StoredBorders ℕ) (missing : ℕ) (p : Position) (rows cols : ℕ) →
        HasLine Rows (parts_of_borders characters) p.row rows →
        HasLine Columns (parts_of_borders characters) p.col cols →
        IsSome (shown_intersection characters missing p (rows, cols)) }
{}

/// Configurations are equal exactly where each of their parts is, and they are where they are told
/// by the same settings.
pub fn equal_by_history()
    ensures by_parts { (x y : SpannedConfig) →
        ⟦<SpannedConfig as PartialEq>⟧.eq x y ≡ list_all (λ same. same) (
        ⟦<EntityMap<Sides<Indent>> as PartialEq>⟧.eq x.padding y.padding
        ∷ ⟦<EntityMap<Sides<Option<ANSIBuf>>> as PartialEq>⟧.eq x.padding_color y.padding_color
        ∷ ⟦<EntityMap<bool> as PartialEq>⟧.eq x.trim_horizontal y.trim_horizontal
        ∷ ⟦<EntityMap<bool> as PartialEq>⟧.eq x.trim_vertical y.trim_vertical
        ∷ ⟦<EntityMap<bool> as PartialEq>⟧.eq x.line_alignment y.line_alignment
        ∷ ⟦<EntityMap<AlignmentHorizontal> as PartialEq>⟧.eq
        x.alignment_horizontal y.alignment_horizontal
        ∷ ⟦<EntityMap<AlignmentVertical> as PartialEq>⟧.eq x.alignment_vertical y.alignment_vertical
        ∷ ⟦<EntityMap<char> as PartialEq>⟧.eq x.justification y.justification
        ∷ ⟦<EntityMap<Option<ANSIBuf>> as PartialEq>⟧.eq
        x.justification_color y.justification_color
        ∷ ⟦<BorderTable<char> as PartialEq>⟧.eq x.characters y.characters
        ∷ ⟦<BorderTable<ANSIBuf> as PartialEq>⟧.eq x.colors y.colors
        ∷ ⟦<OffsetTable<char> as PartialEq>⟧.eq x.horizontal_chars y.horizontal_chars
        ∷ ⟦<OffsetTable<char> as PartialEq>⟧.eq x.vertical_chars y.vertical_chars
        ∷ ⟦<OffsetTable<ANSIBuf> as PartialEq>⟧.eq x.horizontal_colors y.horizontal_colors
        ∷ ⟦<OffsetTable<ANSIBuf> as PartialEq>⟧.eq x.vertical_colors y.vertical_colors
        ∷ ⟦<SpanTable as PartialEq>⟧.eq x.spans y.spans
        ∷ ⟦<Sides<Indent> as PartialEq>⟧.eq x.margin y.margin
        ∷ ⟦<Sides<Option<ANSIBuf>> as PartialEq>⟧.eq x.margin_color y.margin_color
        ∷ ⟦<Sides<Offset> as PartialEq>⟧.eq x.margin_offset y.margin_offset
        ∷ ⟦<char as PartialEq>⟧.eq x.missing y.missing ∷ []) }
    ensures told { (settings : List Setting) (x y : SpannedConfig) →
        HasSettingHistory settings x → HasSettingHistory settings y →
        IsTrue (⟦<SpannedConfig as PartialEq>⟧.eq x y) }
{}

/// Configurations are equal exactly where they hold the same.
pub fn equal_configurations()
    ensures { (x y : SpannedConfig) →
        (⟦<SpannedConfig as PartialEq>⟧.eq x y ≡ true) ↔ HoldTheSameSettings x y }
{}

/// A clone of a configuration equals it, and so does a clone of a setting.
pub fn equal_clones()
    ensures configurations { (x y : SpannedConfig) →
        ⟦<SpannedConfig as Clone>⟧.is_clone x y → y ≡ x }
    ensures settings { (x y : Setting) → ⟦<Setting as Clone>⟧.is_clone x y → y ≡ x }
{}
