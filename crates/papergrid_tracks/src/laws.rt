//! Laws of the definitions, each the contract of a function that does nothing.

ghost use Rattle.std.specs.Prelude.{ℕ, ◌≡◌, ◌<◌, ◌≤◌, ◌↔◌, ◌⊎◌, All, List, slice_index, true, length, min, sum, ◌^◌};
ghost use Rattle.papergrid_tracks.specs.declared.candidate.Candidate.{Candidate};
ghost use Rattle.papergrid_tracks.specs.declared.checked.Checked.{Checked};
ghost use Rattle.papergrid_tracks.specs.declared.demand.Demand.{Demand};
ghost use Rattle.papergrid_tracks.specs.declared.error.LayoutError.{LayoutError};
ghost use Rattle.papergrid_tracks.specs.Certificates.{certificate_cells_of};
ghost use Rattle.papergrid_tracks.specs.Fits.{Fits, IsCertificate, IsLeast, top_minimum, IsTooLarge};
ghost use Rattle.papergrid_tracks.specs.Problem.{Problem, total_of};
ghost use Rattle.papergrid_tracks.specs.Ranges.{IsInTable, IsLaminar, SomeCross};
ghost use Rattle.papergrid_tracks.specs.Sizes.{sizes_of};
ghost use Rattle.papergrid_tracks.specs.TrackBoundaries.{AreBoundaries, AreLowest, net_minimum, boundaries_of, sizes_between};
ghost use Rattle.papergrid_tracks.specs.Least.{AreFurthestRight};
ghost use Rattle.papergrid_tracks.specs.CriticalPath.{IsCriticalPath};

pub use crate::worked::{crossing_worked, worked_rows};
use crate::{Candidate, Checked, Demand, LayoutError};

/// Demands, and reasons why there are no sizes, are equal where they are the same.
pub fn equal_by_fields()
    ensures demands { (x y : Demand) → (⟦<Demand as PartialEq>⟧.eq x y ≡ true) ↔ (x ≡ y) }
    ensures errors { (x y : LayoutError) →
        (⟦<LayoutError as PartialEq>⟧.eq x y ≡ true) ↔ (x ≡ y) }
{}

/// Clones of them, of candidates and of what is kept of a check equal their originals.
pub fn equal_clones()
    ensures demands { (x y : Demand) → ⟦<Demand as Clone>⟧.is_clone x y → y ≡ x }
    ensures errors { (x y : LayoutError) → ⟦<LayoutError as Clone>⟧.is_clone x y → y ≡ x }
    ensures candidates { (x y : Candidate) →
        ⟦<Candidate<'static> as Clone>⟧.is_clone x y → y ≡ x }
    ensures checks { (x y : Checked) → ⟦<Checked as Clone>⟧.is_clone x y → y ≡ x }
{}

/// Sizes that fit and have a certificate are least.
pub fn certified_are_least()
    ensures { (problem : Problem) (cells : List Demand) (sizes : List ℕ) →
        All (IsInTable problem.count) problem.demands → Fits problem sizes →
        IsCertificate problem sizes cells → IsLeast problem sizes }
{}

/// The sizes along a direction fit, and none is above the greatest minimum size over its track;
/// where ranges are nested or disjoint, the cells of the certificate certify them.
pub fn sizes_by_minimums()
    ensures fit { (problem : Problem) → All (IsInTable problem.count) problem.demands →
        Fits problem (sizes_of problem) }
    ensures bound { (problem : Problem) → All (IsInTable problem.count) problem.demands →
        (i : ℕ) → i < problem.count →
        slice_index (sizes_of problem) i ≤ top_minimum problem.demands i }
    ensures certified { (problem : Problem) → All (IsInTable problem.count) problem.demands →
        IsLaminar problem.demands →
        IsCertificate problem (sizes_of problem) (certificate_cells_of problem) }
{}

/// Any two longer ranges are nested or disjoint, or two of them are neither; and never both.
pub fn laminar_or_crossing()
    ensures either { (demands : List Demand) → IsLaminar demands ⊎ SomeCross demands }
    ensures never_both { (demands : List Demand) →
        IsLaminar demands → SomeCross demands → ⊥ }
{}

/// Sizes fit exactly where their sums are boundaries.
pub fn fits_by_boundaries()
    ensures fits { (problem : Problem) (sizes : List ℕ) →
        All (IsInTable problem.count) problem.demands → length sizes ≡ problem.count →
        Fits problem sizes ↔
        AreBoundaries (net_minimum problem.line) problem.count problem.demands
        (boundaries_of sizes) }
    ensures between { (problem : Problem) (boundary : ℕ → ℕ) →
        All (IsInTable problem.count) problem.demands →
        AreBoundaries (net_minimum problem.line) problem.count problem.demands boundary →
        Fits problem (sizes_between problem.count boundary) }
{}

/// Of two choices of boundaries, the lower at each track is one too.
pub fn lower_boundaries()
    ensures { (asks : Demand → ℕ) (n : ℕ) (demands : List Demand) (a b : ℕ → ℕ) →
        AreBoundaries asks n demands a → AreBoundaries asks n demands b →
        AreBoundaries asks n demands (λ i. min (a i) (b i)) }
{}

/// There are lowest positions of the boundaries and no others. The sizes between them are least, and
/// whatever sizes are least have the last of them as their total.
pub fn lowest_boundaries()
    ensures some { (asks : Demand → ℕ) (n : ℕ) (demands : List Demand) →
        All (IsInTable n) demands → (lowest : ℕ → ℕ) × AreLowest asks n demands lowest }
    ensures only { (asks : Demand → ℕ) (n : ℕ) (demands : List Demand) (lowest other : ℕ → ℕ) →
        AreLowest asks n demands lowest → AreLowest asks n demands other →
        (i : ℕ) → i ≤ n → lowest i ≡ other i }
    ensures least { (problem : Problem) (lowest : ℕ → ℕ) →
        AreLowest (net_minimum problem.line) problem.count problem.demands lowest →
        All (IsInTable problem.count) problem.demands →
        IsLeast problem (sizes_between problem.count lowest) }
    ensures total { (problem : Problem) (lowest : ℕ → ℕ) (sizes : List ℕ) →
        AreLowest (net_minimum problem.line) problem.count problem.demands lowest →
        All (IsInTable problem.count) problem.demands →
        IsLeast problem sizes → sum sizes ≡ lowest problem.count }
{}

/// There are boundaries from 0 to the last of the lowest positions past which no boundaries are that
/// end there: at each track the highest ones.
pub fn highest_boundaries()
    ensures { (asks : Demand → ℕ) (n : ℕ) (demands : List Demand) (lowest : ℕ → ℕ) →
        AreLowest asks n demands lowest → All (IsInTable n) demands →
        (highest : ℕ → ℕ) × AreBoundaries asks n demands highest × (highest 0 ≡ 0)
        × (highest n ≡ lowest n)
        × ((boundary : ℕ → ℕ) → AreBoundaries asks n demands boundary →
        boundary n ≤ lowest n → (i : ℕ) → i ≤ n → boundary i ≤ highest i) }
{}

/// From any sizes that fit there are least ones. They are the same where those are least, and none
/// of them is above the greatest minimum size over its track where none of those is.
pub fn least_from_any()
    ensures { (problem : Problem) (sizes : List ℕ) →
        All (IsInTable problem.count) problem.demands → Fits problem sizes →
        (least : List ℕ) × IsLeast problem least × (IsLeast problem sizes → least ≡ sizes)
        × ((i : ℕ) → i < problem.count → slice_index sizes i ≤ top_minimum problem.demands i →
        slice_index least i ≤ top_minimum problem.demands i) }
{}

/// There are least sizes whose boundaries are nowhere past those by shares and furthest to the right,
/// and no others. None of them is above the greatest minimum size over its track. They are those by
/// shares wherever these are least, and so where ranges are nested or disjoint.
pub fn least_by_shares()
    ensures some { (problem : Problem) → All (IsInTable problem.count) problem.demands →
        (sizes : List ℕ) × AreFurthestRight problem sizes }
    ensures only { (problem : Problem) (sizes other : List ℕ) →
        All (IsInTable problem.count) problem.demands →
        AreFurthestRight problem sizes → AreFurthestRight problem other → sizes ≡ other }
    ensures bound { (problem : Problem) (sizes : List ℕ) →
        All (IsInTable problem.count) problem.demands → AreFurthestRight problem sizes →
        (i : ℕ) → i < problem.count → slice_index sizes i ≤ top_minimum problem.demands i }
    ensures same { (problem : Problem) → All (IsInTable problem.count) problem.demands →
        IsLeast problem (sizes_of problem) → AreFurthestRight problem (sizes_of problem) }
    ensures laminar { (problem : Problem) → All (IsInTable problem.count) problem.demands →
        IsLaminar problem.demands → AreFurthestRight problem (sizes_of problem) }
{}

/// Some sizes fit that are not too large exactly where least sizes are not.
pub fn least_total_decides()
    ensures decides { (problem : Problem) (least : List ℕ) →
        All (IsInTable problem.count) problem.demands → IsLeast problem least →
        ((sizes : List ℕ) × Fits problem sizes × (total_of problem sizes < 2 ^ 64)) ↔
        (total_of problem least < 2 ^ 64) }
    ensures too_large { (problem : Problem) (least : List ℕ) →
        All (IsInTable problem.count) problem.demands → IsLeast problem least →
        IsTooLarge problem least ↔
        ((other : List ℕ) → Fits problem other → IsTooLarge problem other) }
{}

/// There is a critical path and no other, and its cells certify whatever sizes are least.
pub fn one_critical_path()
    ensures some { (problem : Problem) → All (IsInTable problem.count) problem.demands →
        (cells : List Demand) × IsCriticalPath problem cells }
    ensures only { (problem : Problem) (cells other : List Demand) →
        All (IsInTable problem.count) problem.demands →
        IsCriticalPath problem cells → IsCriticalPath problem other → cells ≡ other }
    ensures certifies { (problem : Problem) (cells : List Demand) (sizes : List ℕ) →
        All (IsInTable problem.count) problem.demands →
        IsCriticalPath problem cells → IsLeast problem sizes →
        IsCertificate problem sizes cells }
{}
