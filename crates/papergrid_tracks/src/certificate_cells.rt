//! The cells of the certificate of the sizes.

ghost use Rattle.std.specs.Prelude.{◌≡◌, ◌<◌, ℕ, All, IfOk, List, None, Some, filter_map, length, map, slice_index_or};
ghost use Rattle.std.specs.List.{range_with_len};
ghost use Rattle.papergrid_tracks.specs.declared.demand.Demand.{Demand};
ghost use Rattle.papergrid_tracks.specs.Certificates.{certificate_cells};
ghost use Rattle.papergrid_tracks.specs.ForProofs.LastCells.{AreExact, IsLaminarInOrder, certificate_slot, last_holding, slot_of};
ghost use Rattle.papergrid_tracks.specs.Ranges.{IsInTable, position_of};

use crate::demand::Demand;
use crate::demands::single_at;
use crate::last_cells::write_all;
use papergrid_values::Position;
use std::alloc::{AllocError, Global};

/// The cell of the certificate at a track: the last growing cell there, where its range starts
/// there, or, where there is none, the single one.
fn slot(last: Option<Demand>, single: Demand, size: usize, i: usize) -> Option<Demand>
    ensures { result ≡ slot_of last (Some single) size i }
{
    match last {
        Some(demand) => {
            if demand.start == i {
                Some(demand)
            } else {
                None
            }
        }
        None => { if size == 0 { None } else { Some(single) } }
    }
}

/// The cell at a track; none past the end.
fn cell_at(last: &[Option<Demand>], i: usize) -> Option<Demand>
    ensures { result ≡ slice_index_or last.now i None }
{
    match last.get(i) {
        Some(cell) => *cell,
        None => None,
    }
}

/// The cells of the certificate, by one look at each track.
fn certifying_cells(
    alloc: Global,
    last: &[Option<Demand>],
    single_span: &[Demand],
    sizes: &[usize],
) -> Result<Vec<Demand>, AllocError>
    ensures { let slots = certificate_slot last.now single_span.now sizes.now in
        IfOk result (λ cells.
        cells.items ≡ filter_map slots (range_with_len 0 (length sizes.now))) }
{
    let mut cells = Vec::new(alloc);
    for i in 0..sizes.len() {
        if let Some(demand) = slot(cell_at(last, i), single_at(single_span, i), sizes[i], i) {
            cells.push(demand)?;
        }
    }
    Ok(cells)
}

/// For each track the last cell whose range holds it. Where there is no cell this does not
/// allocate.
fn last_of(alloc: Global, count: usize, cells: &[Demand]) -> Result<Vec<Option<Demand>>, AllocError>
    requires { All (IsInTable count) cells.now }
    ensures { IfOk result (λ last. (i : ℕ) → i < count →
        slice_index_or last.items i None ≡ last_holding cells.now i) }
{
    if cells.is_empty() {
        return Ok(Vec::new(alloc));
    }
    let mut last = vec![in alloc; None; count]?;
    write_all(&mut last, cells);
    Ok(last)
}

/// Where the cells stand.
fn positions(alloc: Global, cells: &[Demand]) -> Result<Vec<Position>, AllocError>
    ensures { IfOk result (λ positions. positions.items ≡ map position_of cells.now) }
{
    cells.iter().map(|cell| cell.position()).collect(alloc)
}

/// The positions of the cells of the certificate of those that grew, by the sizes after they did
/// and by the cells that were kept for each track.
pub fn certifying_positions(
    alloc: Global,
    single_span: &[Demand],
    growing_cells: &[Demand],
    sizes: &[usize],
) -> Result<Vec<Position>, AllocError>
    requires growing_cells { All (IsInTable (length sizes.now)) growing_cells.now }
    requires laminar { IsLaminarInOrder growing_cells.now }
    ensures { (demands : List Demand) →
        AreExact demands growing_cells.now sizes.now single_span.now →
        let cells = certificate_cells (length sizes.now) demands growing_cells.now sizes.now in
        IfOk result (λ positions. positions.items ≡ map position_of cells) }
{
    let last = last_of(alloc, sizes.len(), growing_cells)?;
    let cells = certifying_cells(alloc, &last, single_span, sizes)?;
    positions(alloc, &cells)
}
