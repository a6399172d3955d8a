//! The cells of longer ranges: the deficit of each is distributed evenly, and those that
//! grow are kept.

ghost use Rattle.std.specs.Prelude.{All, IfOk, IsTrue, OnOk, count_by, fold, length, min, slice_index, sum, ℕ, ◌+◌, ◌-◌, ◌<◌, ◌^◌, ◌↔◌, ◌≡◌, ◌≤◌};
ghost use Rattle.std.specs.Option.{SomeIff};
ghost use Rattle.papergrid_tracks.specs.ForProofs.Settled.{line_at};
ghost use Rattle.papergrid_values.specs.Lines.{all_lines};
ghost use Rattle.papergrid_tracks.specs.Ranges.{IsInTable, end_of, inner_lines};
ghost use Rattle.papergrid_tracks.specs.Sizes.{grown_sizes, deficit, distributed};
ghost use Rattle.papergrid_tracks.specs.Certificates.{growing_demands};

use crate::demand::Demand;
use std::alloc::{AllocError, Global};

/// The total of the sizes, or the greatest `usize` where that is less.
fn sum_of(sizes: &[usize]) -> usize
    ensures { result ≡ min (sum sizes.now) (2 ^ 64 - 1) }
{
    let mut total = 0usize;
    for size in sizes {
        total = total.saturating_add(*size);
    }
    total
}

/// The total of the sizes, if it fits.
fn checked_sum(sizes: &[usize]) -> Option<usize>
    ensures { SomeIff result (sum sizes.now < 2 ^ 64) (sum sizes.now) }
{
    let mut total = 0usize;
    for size in sizes {
        total = total.checked_add(*size)?;
    }
    Some(total)
}

/// The total of the sizes with all lines, if it fits.
pub fn checked_total(sizes: &[usize], lines: &[bool]) -> Option<usize>
    requires { length lines.now ≡ length sizes.now + 1 }
    ensures { let total = sum sizes.now + all_lines (line_at lines.now) (length sizes.now) in
        SomeIff result (total < 2 ^ 64) total }
{
    checked_sum(sizes)?.checked_add(count_drawn(lines))
}

/// How many of the lines are drawn.
pub fn count_drawn(lines: &[bool]) -> usize
    ensures { result ≡ count_by (λ drawn. drawn) lines.now }
{
    lines.iter().filter(|drawn| **drawn).count()
}

/// The lines strictly inside of the range of a cell.
pub fn lines_within(lines: &[bool], demand: Demand) -> usize
    requires { IsInTable (length lines.now) demand }
    ensures { result ≡ inner_lines (line_at lines.now) demand }
{
    count_drawn(&lines[demand.start + 1..demand.start + demand.span])
}

/// How much the sizes in the range of a cell, with the lines inside of it, fall short of its
/// minimum size.
fn deficit_of(sizes: &[usize], lines: &[bool], demand: Demand) -> usize
    requires table { IsInTable (length sizes.now) demand }
    requires lines { length sizes.now ≤ length lines.now }
    ensures { result ≡ deficit (line_at lines.now) sizes.now demand }
{
    let room = sum_of(&sizes[demand.start..demand.start + demand.span]);
    let inner = lines_within(lines, demand);
    demand.minimum.saturating_sub(room).saturating_sub(inner)
}

/// Adds to each size in the range of a cell its share of the amount, and to the first what is left
/// over.
fn distribute(sizes: &mut [usize], demand: Demand, amount: usize)
    requires table { IsInTable (length sizes.old) demand }
    requires room { (i : ℕ) → demand.start ≤ i → i < end_of demand →
        slice_index sizes.old i + amount < 2 ^ 64 }
    ensures { sizes.new ≡ distributed amount demand sizes.old }
{
    let each = amount / demand.span;
    let mut share = each + amount % demand.span;
    for i in demand.start..demand.start + demand.span {
        sizes[i] += share;
        share = each;
    }
}

/// Takes a cell: its range grows by the deficit of the cell. Whether it grew. No size overflows,
/// since none is above a minimum size.
fn grow(sizes: &mut [usize], lines: &[bool], demand: Demand) -> bool
    requires table { IsInTable (length sizes.old) demand }
    requires lines { length sizes.old ≤ length lines.now }
    ensures grown { sizes.new ≡ grown_sizes (line_at lines.now) sizes.old demand }
    ensures grew { IsTrue result ↔ 0 < deficit (line_at lines.now) sizes.old demand }
{
    let deficit = deficit_of(sizes, lines, demand);
    if deficit == 0 {
        return false;
    }
    distribute(sizes, demand, deficit);
    true
}

/// Takes the cells in their order, and gives those that grow. The total may be past `usize`.
pub fn grow_all(
    alloc: Global,
    sizes: &mut [usize],
    lines: &[bool],
    cells: &[Demand],
) -> Result<Vec<Demand>, AllocError>
    requires cells { All (IsInTable (length sizes.old)) cells.now }
    requires lines { length lines.now ≡ length sizes.old + 1 }
    ensures growing_cells { IfOk result (λ growing_cells.
        growing_cells.items ≡ growing_demands (line_at lines.now) sizes.old cells.now) }
    ensures sizes { OnOk result (sizes.new
        ≡ fold (grown_sizes (line_at lines.now)) sizes.old cells.now) }
{
    let mut growing_cells = Vec::new(alloc);
    for demand in cells {
        if grow(sizes, lines, *demand) {
            growing_cells.push(*demand)?;
        }
    }
    Ok(growing_cells)
}
