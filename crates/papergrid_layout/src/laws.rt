//! Laws of the definitions, each the contract of a function that does nothing.

ghost use Rattle.std.specs.Prelude.{◌≡◌, ◌≢◌, ◌↔◌, ◌≤◌, ◌<◌, ◌^◌, ℕ, All, AllPairs, Contains, Err, List, length, map, true};
ghost use Rattle.std.specs.Borrow.{Bor};
ghost use Rattle.papergrid_values.specs.declared.position.Position.{Position};
ghost use Rattle.papergrid_values.specs.Positions.{IsBefore};
ghost use Rattle.papergrid_text.specs.Measured.{Measured};
ghost use Rattle.papergrid_values.specs.declared.direction.Direction.{Direction};
ghost use Rattle.papergrid_values.specs.declared.direction.Direction.TheVariants.{Columns, Rows};
ghost use Rattle.papergrid_tracks.specs.Answers.{IsAccepted};
ghost use Rattle.papergrid_tracks.specs.declared.sizing.Sizing.TheVariants as sizings;
ghost use Rattle.papergrid_tracks.specs.Fits.{Fits, IsLeast};
ghost use Rattle.papergrid_tracks.specs.Problem.{Problem, total_of};
ghost use Rattle.papergrid_tracks.specs.Ranges.{IsLaminar, first_out};
ghost use Rattle.papergrid_tracks.specs.Sizes.{sizes_of};
ghost use Rattle.papergrid_tracks.specs.LeastAnswers.{AreCriticalPath};
ghost use Rattle.papergrid_config.specs.History.{HasSettingHistory};
ghost use Rattle.papergrid_config.specs.declared.setting.Setting.{Setting};
ghost use Rattle.papergrid_config.specs.declared.spanned.SpannedConfig.{SpannedConfig};
ghost use Rattle.papergrid_walk.specs.Cells.{demand_by, demands_of, positioned_cells, problem_of, problem_with, visible_cells};
ghost use Rattle.papergrid_maps.specs.Grids.{Grid};
ghost use Rattle.papergrid_config.specs.Grids.{IsGridOf, spanned_grid};
ghost use Rattle.papergrid_walk.specs.Measures.{cell_measure, line_measure};
ghost use Rattle.papergrid_layout.specs.Answers.{AreBothSizes, HoldAlong, first_out_of_table};
ghost use Rattle.papergrid_tracks.specs.Sizings.{AreSizesBy, IsTotal};
ghost use Rattle.papergrid_tracks.specs.declared.sizing.Sizing.{Sizing};
ghost use Rattle.papergrid_layout.specs.Laws.{AreReordered, HaveRoom, IsCellAt, IsNewText};
ghost use Rattle.papergrid_layout.specs.Places.{DoNotMeet, HasRoomAtPlace, HaveNoneInCommon, IsInsideTable, IsPlaced, StandsOver, TableView, place_at, sized_table, total_along};
ghost use Rattle.papergrid_tracks.specs.declared.error.LayoutError.{LayoutError};
ghost use Rattle.papergrid_layout.specs.declared.rect.Place.{Place};
ghost use Rattle.papergrid_layout.specs.declared.rect.PlaceError.{PlaceError};
ghost use Rattle.papergrid_layout.specs.declared.rect.PlaceError.TheVariants.{TooLarge};
ghost use Rattle.papergrid_layout.specs.declared.compact.CompactGridDimension.{CompactGridDimension};
ghost use Rattle.papergrid_layout.specs.declared.grid_dimension.GridDimension.{GridDimension};

use crate::compact::CompactGridDimension;
use crate::grid_dimension::GridDimension;
use crate::rect::{Place, PlaceError};
use papergrid_text::{Cell, Text};
use papergrid_tracks::LayoutError;
use std::convert::AsStr;

/// Cells that are texts as `Text::new` keeps them ask for the same, whether they are measured as
/// `PeekableGridDimension` does it or as `IterGridDimension` does.
pub fn equal_text_measures<S: AsStr>()
    ensures { (rows : List (List (Measured S))) → All (All (IsNewText S.text)) rows →
        (direction : Direction) (grid : Grid) →
        demands_of direction grid (cell_measure ⟦<Text<S> as Cell>⟧.width ⟦<Text<S> as Cell>⟧.lines)
        rows
        ≡ demands_of direction grid (line_measure ⟦<Text<S> as AsStr>⟧.text) rows }
{}

/// The cells with their positions are those that the rows have there, by row and then by column.
pub fn cells_by_position<C>()
    ensures cells { (rows : List (List C)) (p : Position) (cell : C) →
        Contains (positioned_cells rows) (p, cell) ↔ IsCellAt rows p cell }
    ensures order { (rows : List (List C)) →
        AllPairs (λ x y. IsBefore x.0 y.0) (positioned_cells rows) }
{}

/// Sizes do not depend on the order in which spans of different cells were set, anywhere in a list,
/// since the settings decide the same grid.
pub fn order_of_spans<C>()
    ensures sizes { (settings other : List Setting) → AreReordered settings other →
        (x y : SpannedConfig) → HasSettingHistory settings x → HasSettingHistory other y →
        (direction : Direction) (measure : C → ℕ × ℕ) (n : ℕ) (rows : List (List C)) →
        sizes_of (problem_with (spanned_grid x) measure direction n rows)
        ≡ sizes_of (problem_with (spanned_grid y) measure direction n rows) }
    ensures reordered { (settings other : List Setting) → AreReordered settings other →
        (grid : Grid) → IsGridOf settings grid → IsGridOf other grid }
{}

/// What lent cells ask for is what the cells held ask for, whether each is measured through the loan
/// or taken through it first; lent texts as `Text::new` keeps them are measured alike in both ways.
pub fn lent_cells<C, D, S: AsStr>()
    ensures lent { (lend : C → D) (measure : D → ℕ × ℕ)
        (rows : List (List C)) (direction : Direction) (grid : Grid) →
        demands_of direction grid (λ cell. measure (lend cell)) rows
        ≡ demands_of direction grid measure (map (map lend) rows) }
    ensures texts { (rows : List (List (Bor (Measured S)))) →
        All (All (λ t. IsNewText S.text t.now)) rows →
        (direction : Direction) (grid : Grid) →
        demands_of direction grid (cell_measure ⟦<&'static Text<S> as Cell>⟧.width
        ⟦<&'static Text<S> as Cell>⟧.lines) rows
        ≡ demands_of direction grid (line_measure ⟦<&'static Text<S> as AsStr>⟧.text) rows }
{}

/// No visible cell overflows the table along columns, and none along rows, exactly where there is
/// no first one that does.
pub fn none_overflows<C>()
    ensures { (grid : Grid) (measure : C → ℕ × ℕ) (columns : ℕ) (rows : List (List C)) →
        (first_out_of_table grid measure columns rows ≡ None)
        ↔ ((first_out columns (demands_of Columns grid measure rows) ≡ None)
        × (first_out (length rows) (demands_of Rows grid measure rows) ≡ None)) }
{}

/// No visible cell needs more than the total with its lines, whatever sizes fit: none is wider, or higher, than the table.
/// So it is of the total by shares and of the least one.
pub fn total_covers_cells<C>()
    ensures fitting { (grid : Grid) (measure : C → ℕ × ℕ)
        (columns : ℕ) (rows : List (List C)) (direction : Direction) (sizes : List ℕ) →
        let problem = problem_of grid measure columns rows direction in
        first_out problem.count problem.demands ≡ None → Fits problem sizes →
        All (λ cell. (demand_by direction grid measure cell).minimum
        ≤ total_of problem sizes) (visible_cells grid rows) }
    ensures sizes { (sizing : Sizing) (grid : Grid) (measure : C → ℕ × ℕ)
        (columns : ℕ) (rows : List (List C)) (direction : Direction) (total : ℕ) →
        IsTotal sizing (problem_of grid measure columns rows direction) total →
        All (λ cell. (demand_by direction grid measure cell).minimum
        ≤ total) (visible_cells grid rows) }
{}

/// The least sizes along a direction are those by shares wherever these are least, and so where
/// ranges are nested or disjoint. What certifies least sizes is a certificate that the checkers accept.
pub fn least_as_by_shares()
    ensures same { (problem : Problem) (sizes least : List ℕ) →
        AreSizesBy sizings.ByShares problem sizes → AreSizesBy sizings.Least problem least →
        IsLeast problem sizes → least ≡ sizes }
    ensures laminar { (problem : Problem) (sizes least : List ℕ) →
        AreSizesBy sizings.ByShares problem sizes → AreSizesBy sizings.Least problem least →
        IsLaminar problem.demands → least ≡ sizes }
    ensures accepted { (problem : Problem) (sizes : List ℕ) (positions : List Position) →
        AreSizesBy sizings.Least problem sizes → AreCriticalPath problem positions →
        IsAccepted problem sizes positions }
{}

/// A clone of a dimension, of a screen rectangle or of an error equals it.
pub fn equal_clones<T: Clone, M: Clone>()
    ensures grid { (x y : GridDimension T M) →
        ⟦<GridDimension<T, M> as Clone>⟧.is_clone x y → y ≡ x }
    ensures compact { (x y : CompactGridDimension) →
        ⟦<CompactGridDimension as Clone>⟧.is_clone x y → y ≡ x }
    ensures place { (x y : Place) → ⟦<Place as Clone>⟧.is_clone x y → y ≡ x }
    ensures place_error { (x y : PlaceError) → ⟦<PlaceError as Clone>⟧.is_clone x y → y ≡ x }
    ensures layout_error { (x y : LayoutError) → ⟦<LayoutError as Clone>⟧.is_clone x y → y ≡ x }
{}

/// Dimensions are equal exactly where their sizes are, screen rectangles and errors exactly where
/// they are the same.
pub fn equal_where_same<T: PartialEq, M: PartialEq>()
    ensures grid { (x y : GridDimension T M) →
        (⟦<GridDimension<T, M> as PartialEq>⟧.eq x y ≡ true)
        ↔ ((x.widths ≡ y.widths) × (x.heights ≡ y.heights)) }
    ensures compact { (x y : CompactGridDimension) →
        (⟦<CompactGridDimension as PartialEq>⟧.eq x y ≡ true) ↔ (x.widths ≡ y.widths) }
    ensures place { (x y : Place) → (⟦<Place as PartialEq>⟧.eq x y ≡ true) ↔ (x ≡ y) }
    ensures place_error { (x y : PlaceError) → (⟦<PlaceError as PartialEq>⟧.eq x y ≡ true)
        ↔ (x ≡ y) }
    ensures layout_error { (x y : LayoutError) → (⟦<LayoutError as PartialEq>⟧.eq x y ≡ true)
        ↔ (x ≡ y) }
{}

/// The screen rectangles of two cells of one table whose rectangles have no position in common
/// do not meet.
pub fn places_apart()
    ensures { (table : TableView) (p q : Position) →
        HaveNoneInCommon table.grid p q → DoNotMeet (place_at table p) (place_at table q) }
{}

/// A point stands under one cell alone where that cell shares no position with any other one that lies in
/// the table.
pub fn points_in_one_cell()
    ensures { (table : TableView) (x y : ℕ) (p : Position) → StandsOver table x y p →
        ((q : Position) → IsInsideTable table q → q ≢ p → HaveNoneInCommon table.grid p q) →
        (q : Position) → StandsOver table x y q → q ≡ p }
{}

/// With any sizes along both directions that have room, by shares and least ones among them, each
/// visible cell has a screen rectangle, and room in it, and none is refused as too large. The
/// totals fit; by shares and for least sizes they are those of the records' table.
pub fn places_have_room<C>()
    ensures room { (grid : Grid) (measure : C → ℕ × ℕ)
        (columns : ℕ) (rows : List (List C)) (widths heights : List ℕ) →
        HoldAlong grid measure columns rows HaveRoom widths heights →
        All (HasRoomAtPlace (sized_table grid widths heights (length rows, columns)) measure)
        (visible_cells grid rows) }
    ensures never_too_large { (grid : Grid) (measure : C → ℕ × ℕ)
        (columns : ℕ) (rows : List (List C)) (widths heights : List ℕ) →
        HoldAlong grid measure columns rows HaveRoom widths heights → (p : Position) →
        IsPlaced (sized_table grid widths heights (length rows, columns)) p (Err TooLarge) → ⊥ }
    ensures fit { (grid : Grid) (measure : C → ℕ × ℕ)
        (columns : ℕ) (rows : List (List C)) (widths heights : List ℕ) →
        HoldAlong grid measure columns rows HaveRoom widths heights → (direction : Direction) →
        total_along (sized_table grid widths heights (length rows, columns)) direction < 2 ^ 64 }
    ensures sizes { (sizing : Sizing) (grid : Grid) (measure : C → ℕ × ℕ)
        (columns : ℕ) (rows : List (List C)) (widths heights : List ℕ) →
        AreBothSizes grid measure columns rows sizing widths heights →
        HoldAlong grid measure columns rows HaveRoom widths heights }
    ensures totals { (sizing : Sizing) (grid : Grid) (measure : C → ℕ × ℕ)
        (columns : ℕ) (rows : List (List C)) (widths heights : List ℕ) →
        AreBothSizes grid measure columns rows sizing widths heights →
        (direction : Direction) (total : ℕ) →
        IsTotal sizing (problem_of grid measure columns rows direction) total
        ↔ (total
        ≡ total_along (sized_table grid widths heights (length rows, columns)) direction) }
{}
