//! What the sizes along a direction begin with: the lines, the minimum sizes of single tracks, the
//! cells in their order; and why there are none.

ghost use Rattle.std.specs.Prelude.{All, Bool, EachIndex, IfErr, IfNone, IfOk, IfSome, List, None, false, true, length, nat_lt, slice_index, slice_index_or, ℕ, ◌+◌, ◌≤◌, ◌≡◌};
ghost use Rattle.papergrid_tracks.specs.Problem.{problem_of_demands};
ghost use Rattle.papergrid_tracks.specs.Ranges.{IsInTable, end_of, first_out};
ghost use Rattle.papergrid_tracks.specs.ForProofs.Demands.{AreGathered, no_demand};
ghost use Rattle.papergrid_tracks.specs.ForProofs.Settled.{longer};
ghost use Rattle.papergrid_tracks.specs.Sizes.{by_span};
ghost use Rattle.papergrid_tracks.specs.declared.demand.Demand.{Demand};
ghost use Rattle.papergrid_tracks.specs.Sizings.{IsRefused};
ghost use Rattle.papergrid_tracks.specs.declared.error.LayoutError.TheVariants.{TooLarge};
ghost use Rattle.papergrid_tracks.specs.declared.sizing.Sizing.{Sizing};
ghost use Rattle.papergrid_tracks.specs.ForProofs.Settled.{IsBegun, line_at};

use crate::axis::Axis;
use crate::demand::Demand;
use crate::demands::{Demands, single_at};
use crate::error::{LayoutError, LayoutResult};
use papergrid_values::Position;
use std::alloc::{AllocError, Global};

/// Writes for each track whether there is a line before it.
fn fill_lines<A: Axis>(lines: &mut [bool], axis: &A)
    ensures length { length lines.new ≡ length lines.old }
    ensures drawn { EachIndex lines.new (λ k.
        slice_index_or lines.new k false ≡ A.line axis.now k) }
{
    for i in 0..lines.len() {
        lines[i] = axis.has_line(i);
    }
}

/// Whether there is a line before each of `count` tracks, and after the last.
pub fn lines_of<A: Axis>(alloc: Global, axis: &A, count: usize) -> Result<Vec<bool>, AllocError>
    ensures length { IfOk result (λ lines. length lines.items ≡ count + 1) }
    ensures drawn { IfOk result (λ lines. (i : ℕ) → i ≤ count →
        line_at lines.items i ≡ A.line axis.now i) }
{
    let mut lines = vec![in alloc; false; count]?;
    fill_lines(&mut lines, axis);
    lines.push(axis.has_line(count))?;
    Ok(lines)
}

/// Writes for each track what the cell needs that is kept there.
pub fn write_base(sizes: &mut [usize], single_span: &[Demand])
    ensures length { length sizes.new ≡ length sizes.old }
    ensures base { EachIndex sizes.new (λ k.
        slice_index sizes.new k ≡ (slice_index_or single_span.now k no_demand).minimum) }
{
    for i in 0..sizes.len() {
        sizes[i] = single_at(single_span, i).minimum;
    }
}

/// The cells of longer ranges as they come, by row and then by column.
fn longer(alloc: Global, demands: &[Demand]) -> Result<Vec<Demand>, AllocError>
    ensures { IfOk result (λ cells. cells.items ≡ longer demands.now) }
{
    demands
        .iter()
        .filter(|demand| 1 < demand.span)
        .copied()
        .collect(alloc)
}

/// The cells of longer ranges, the smaller spans first, and those of one span as they come.
pub fn by_span(alloc: Global, count: usize, demands: &[Demand]) -> Result<Vec<Demand>, AllocError>
    requires { All (IsInTable count) demands.now }
    ensures { IfOk result (λ cells. cells.items ≡ by_span count demands.now) }
{
    let mut cells = longer(alloc, demands)?;
    cells.sort_by_key(|demand| demand.span)?;
    Ok(cells)
}

/// Whether the range of a cell ends past the last of `count` tracks.
fn overflows(count: usize, demand: Demand) -> bool
    ensures { result ≡ nat_lt count (end_of demand) }
{
    match demand.start.checked_add(demand.span) {
        Some(end) => count < end,
        None => true,
    }
}

/// The position of the first cell that overflows `count` tracks.
pub fn find_out(count: usize, demands: &[Demand]) -> Option<Position>
    ensures { result ≡ first_out count demands.now }
{
    for demand in demands {
        if overflows(count, *demand) {
            return Some(demand.position());
        }
    }
    None
}

/// Why the kept cells have no sizes, where one of them overflows the table or has a large
/// minimum size.
pub fn refusal(count: usize, kept: &Demands) -> Option<LayoutError>
    requires { (demands : List Demand) × AreGathered count kept.now demands }
    ensures refused { IfSome result (λ error. (sizing : Sizing)
        (line : ℕ → Bool) (demands : List Demand) → AreGathered count kept.now demands →
        IsRefused sizing (problem_of_demands line count demands) error) }
    ensures large { IfSome result (λ error. error ≡ TooLarge → kept.now.is_large ≡ true) }
    ensures inside { IfNone result (first_out count kept.now.rest.items ≡ None) }
    ensures small { IfNone result (kept.now.is_large ≡ false) }
{
    if let Some(position) = find_out(count, &kept.rest) {
        return Some(LayoutError::OutOfTable(position));
    }
    if kept.is_large {
        return Some(LayoutError::TooLarge);
    }
    None
}

/// What the sizes of `count` tracks begin with: of each track the minimum size of the cell that is
/// kept there, and the lines.
///
/// # Errors
///
/// `OutOfTable` with the first kept cell that overflows the table, else `TooLarge` where one has a
/// large minimum size; `Memory` in place of any answer.
pub fn begin<A: Axis>(
    alloc: Global,
    count: usize,
    kept: &Demands,
    axis: &A,
) -> LayoutResult<(Vec<usize>, Vec<bool>)>
    requires { (demands : List Demand) × AreGathered count kept.now demands }
    ensures begun { IfOk result (λ begun.
        IsBegun (A.line axis.now) count kept.now begun.1.items begun.0.items) }
    ensures refused { IfErr result (λ error. (sizing : Sizing) (demands : List Demand) →
        AreGathered count kept.now demands →
        IsRefused sizing (problem_of_demands (A.line axis.now) count demands) error) }
{
    // A count that no memory holds is refused before it is counted up to.
    let mut sizes = vec![in alloc; 0; count]?;
    let lines = lines_of(alloc, axis, count)?;
    if let Some(error) = refusal(count, kept) {
        return Err(error);
    }
    write_base(&mut sizes, &kept.single_span);
    Ok((sizes, lines))
}
