//! The cells that certify the least total.

ghost use Rattle.std.specs.Prelude.{All, EachIndex, IfOk, None, Some, find, length, map, slice_index, slice_index_or, ℕ, ◌+◌, ◌-◌, ◌<◌, ◌==◌, ◌≡◌, ◌≤◌};
ghost use Rattle.papergrid_tracks.specs.ForProofs.Settled.{line_at};
ghost use Rattle.papergrid_tracks.specs.Ranges.{IsInTable, end_of, position_of};
ghost use Rattle.papergrid_tracks.specs.declared.demand.Demand.{Demand};
ghost use Rattle.papergrid_tracks.specs.TrackBoundaries.{net_minimum};
ghost use Rattle.papergrid_tracks.specs.ForProofs.Followed.{earlier_cell, followed_cells, kept_longer, kept_single, with_minimum};
ghost use Rattle.papergrid_tracks.specs.CriticalPath.{is_tight};

use crate::cells::asking;
use crate::demand::Demand;
use crate::demands::single_at;
use crate::lines::Lines;
use papergrid_values::Position;
use std::alloc::{AllocError, Global};

/// Whether a cell is tight at the boundary where its range ends.
fn is_tight(lowest_position: &[usize], lines: &Lines, cell: Demand) -> bool
    requires table { IsInTable (length lines.now) cell }
    requires ends { end_of cell < length lowest_position.now }
    requires apart { slice_index lowest_position.now cell.start
        + net_minimum (line_at lines.now) cell
        ≤ slice_index lowest_position.now (end_of cell) }
    ensures { result ≡ (slice_index lowest_position.now cell.start
        + net_minimum (line_at lines.now) cell
        == slice_index lowest_position.now (end_of cell)) }
{
    lowest_position[cell.start] + asking(lines, cell).minimum
        == lowest_position[cell.start + cell.span]
}

/// Writes for each boundary the first tight cell.
pub fn mark_tight_cells(
    tight_cells: &mut [Option<Demand>],
    lowest_position: &[usize],
    lines: &Lines,
    cells: &[Demand],
)
    requires none { All (λ cell. cell ≡ None) tight_cells.old }
    requires boundaries { length lowest_position.now ≡ length tight_cells.old }
    requires table { All (IsInTable (length lines.now)) cells.now }
    requires ends { All (λ d. end_of d < length tight_cells.old) cells.now }
    requires apart { All (λ d. slice_index lowest_position.now d.start
        + net_minimum (line_at lines.now) d
        ≤ slice_index lowest_position.now (end_of d)) cells.now }
    ensures length { length tight_cells.new ≡ length tight_cells.old }
    ensures first { EachIndex tight_cells.new (λ i. slice_index_or tight_cells.new i None ≡
        find (is_tight (net_minimum (line_at lines.now)) (slice_index lowest_position.now) i)
        cells.now) }
{
    // The last cells first, so that the first tight one is the one that stays.
    for passed in 0..cells.len() {
        let cell = cells[cells.len() - 1 - passed];
        if is_tight(lowest_position, lines, cell) {
            tight_cells[cell.start + cell.span] = Some(cell);
        }
    }
}

/// The cell that is kept for a track alone, where it needs so much.
fn with_minimum(single_span: &[Demand], number: usize, step: usize) -> Option<Demand>
    ensures { result ≡ with_minimum step (kept_single single_span.now number) }
{
    let single = single_at(single_span, number);
    if single.minimum == step {
        Some(single)
    } else {
        None
    }
}

/// Of two cells the earlier by row and then by column, at one position the first.
fn earlier_cell(cell: Option<Demand>, other: Option<Demand>) -> Option<Demand>
    ensures { result ≡ earlier_cell cell other }
{
    match (cell, other) {
        (Some(cell), Some(other)) => {
            if other.position() < cell.position() {
                Some(other)
            } else {
                Some(cell)
            }
        }
        (Some(cell), None) => Some(cell),
        (None, other) => other,
    }
}

/// The positions of the cells that are met going back from the last boundary.
pub fn follow(
    alloc: Global,
    lowest_position: &[usize],
    single_span: &[Demand],
    tight_cells: &[Option<Demand>],
) -> Result<Vec<Position>, AllocError>
    requires boundaries { length lowest_position.now ≡ length tight_cells.now }
    requires one { 1 ≤ length lowest_position.now }
    requires rise { (i : ℕ) → i + 1 < length lowest_position.now →
        slice_index lowest_position.now i ≤ slice_index lowest_position.now (i + 1) }
    requires alone { (i : ℕ) → i + 1 < length lowest_position.now →
        (kept_single single_span.now i).start ≤ i }
    requires starts { (i : ℕ) (d : Demand) → slice_index_or tight_cells.now i None ≡ Some d →
        d.start < length lowest_position.now }
    ensures { let count = length lowest_position.now - 1 in
        let single = kept_single single_span.now in
        let longer = kept_longer tight_cells.now in
        let cells = followed_cells (slice_index lowest_position.now) single longer count count in
        IfOk result (λ positions. positions.items ≡ map position_of cells) }
{
    let mut positions = Vec::new(alloc);
    let mut number = lowest_position.len() - 1;
    for _ in 1..lowest_position.len() {
        let before = number.saturating_sub(1);
        let step = lowest_position[number] - lowest_position[before];
        if step == 0 {
            number = before;
        } else {
            let single = with_minimum(single_span, before, step);
            let Some(cell) = earlier_cell(single, tight_cells[number]) else {
                return Ok(positions);
            };
            positions.push(cell.position())?;
            number = cell.start;
        }
    }
    Ok(positions)
}
