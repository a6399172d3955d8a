//! For each track the last cell, of some, whose range holds it.

ghost use Rattle.std.specs.Prelude.{◌≡◌, ◌+◌, ◌<◌, ◌^◌, ◌↔◌, ℕ, All, EachIndex, IsTrue, None, Some, if◌then◌else◌, length, slice_index_or, true};
ghost use Rattle.papergrid_tracks.specs.declared.demand.Demand.{Demand};
ghost use Rattle.papergrid_tracks.specs.ForProofs.LastCells.{IsLaminarInOrder, last_holding};
ghost use Rattle.papergrid_tracks.specs.Ranges.{IsInTable, LiesIn, end_of, holds};

use crate::demand::Demand;

/// Writes the cell at each number of its range.
fn write_over(last: &mut [Option<Demand>], demand: Demand)
    requires { IsInTable (length last.old) demand }
    ensures { EachIndex last.new (λ k. slice_index_or last.new k None ≡
        (if holds demand k then Some demand else slice_index_or last.old k None)) }
{
    for i in demand.start..demand.start + demand.span {
        last[i] = Some(demand);
    }
}

/// Writes the cells over one another.
pub fn write_all(last: &mut [Option<Demand>], cells: &[Demand])
    requires none { All (λ cell. cell ≡ None) last.old }
    requires table { All (IsInTable (length last.old)) cells.now }
    ensures { EachIndex last.new (λ i. slice_index_or last.new i None ≡ last_holding cells.now i) }
{
    for demand in cells {
        write_over(last, *demand);
    }
}

/// Whether the range of a cell is part of that of another.
fn lies_in(inner: Demand, outer: Demand) -> bool
    requires inner { end_of inner < 2 ^ 64 }
    requires outer { end_of outer < 2 ^ 64 }
    ensures { IsTrue result ↔ LiesIn inner outer }
{
    outer.start <= inner.start && inner.start + inner.span <= outer.start + outer.span
}

/// Whether the range of each cell that is written at a number of the range is part of it.
fn covers_all(last: &[Option<Demand>], demand: Demand) -> bool
    requires table { IsInTable (length last.now) demand }
    requires others { (i : ℕ) (o : Demand) →
        slice_index_or last.now i None ≡ Some o → IsInTable (length last.now) o }
    ensures { IsTrue result ↔
        ((i : ℕ) (o : Demand) → holds demand i ≡ true →
        slice_index_or last.now i None ≡ Some o → LiesIn o demand) }
{
    for i in demand.start..demand.start + demand.span {
        if let Some(other) = last[i] {
            if !lies_in(other, demand) {
                return false;
            }
        }
    }
    true
}

/// Whether the range of each cell is part of those of all later cells that it meets; the cells are
/// written over one another as they are looked at.
pub fn are_laminar(last: &mut [Option<Demand>], cells: &[Demand]) -> bool
    requires none { All (λ cell. cell ≡ None) last.old }
    requires table { All (IsInTable (length last.old)) cells.now }
    ensures { IsTrue result ↔ IsLaminarInOrder cells.now }
{
    for demand in cells {
        if !covers_all(last, *demand) {
            return false;
        }
        write_over(last, *demand);
    }
    true
}
