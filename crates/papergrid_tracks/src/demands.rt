//! What a walk over cells gathers of their demands.

ghost use Rattle.std.specs.Prelude.{◌≡◌, ◌+◌, ◌<◌, ◌≤◌, ◌^◌, ℕ, [], ◌∷◌, OnOk, length, slice_index_or, true};
ghost use Rattle.std.specs.Option.{SomeIff};
ghost use Rattle.papergrid_tracks.specs.ForProofs.Demands.{AddsDemands, HoldsDemands, gathered_for, no_demand};
ghost use Rattle.papergrid_tracks.specs.Ranges.{demand_of};

use crate::demand::Demand;
use papergrid_values::{Direction, Position};
use std::alloc::{AllocError, Global};

/// What the visible cells met so far ask for: of those that cover one track alone, for each the
/// first of greatest minimum size, and the rest as they came. A minimum size above the greatest
/// `usize` is kept as that one, and is remembered: cells that overflow the table are looked for
/// before it counts.
pub struct Demands {
    /// By their numbers. Where no cell has a minimum size, a cell stands of minimum size 0.
    pub single_span: Vec<Demand>,
    pub rest: Vec<Demand>,
    pub is_large: bool,
    /// A cell that covers one track alone is in the table where that is below this limit.
    pub limit: usize,
}

// By hand: docs/DECISIONS.md, "Drops".
impl Drop for Demands {
    fn drop(self) {
        let Demands {
            single_span: _,
            rest: _,
            is_large: _,
            limit: _,
        } = self;
    }
}

/// A cell of minimum size 0.
const NO_DEMAND: Demand = Demand {
    row: 0,
    col: 0,
    start: 0,
    span: 1,
    minimum: 0,
};

impl Demands {
    /// Nothing kept. It does not allocate.
    #[tactic(auto, using(crate::proofs::DemandLemmas::first_greatest_nil))]
    pub fn new(alloc: Global, limit: usize) -> Self
        ensures { HoldsDemands limit result [] }
    {
        Demands {
            single_span: Vec::new(alloc),
            rest: Vec::new(alloc),
            is_large: false,
            limit,
        }
    }
}

/// What is kept of the cells that cover a track alone.
pub fn single_at(single_span: &[Demand], i: usize) -> Demand
    ensures { result ≡ slice_index_or single_span.now i no_demand }
{
    if i < single_span.len() {
        single_span[i]
    } else {
        NO_DEMAND
    }
}

/// The measure with the paddings before and after it, if it fits.
fn minimum_of(measure: usize, before: usize, after: usize) -> Option<usize>
    ensures { let minimum = measure + before + after in SomeIff result (minimum < 2 ^ 64) minimum }
{
    measure.checked_add(before)?.checked_add(after)
}

/// Makes room for a number. Where none was, a cell stands of minimum size 0.
fn extend(single_span: &mut Vec<Demand>, i: usize) -> Result<(), AllocError>
    ensures room { OnOk result (i < length single_span.new.items) }
    ensures same { OnOk result ((k : ℕ) → slice_index_or single_span.new.items k no_demand ≡
        slice_index_or single_span.old.items k no_demand) }
{
    while single_span.len() <= i {
        single_span.push(NO_DEMAND)?;
    }
    Ok(())
}

/// Keeps a cell that covers its track alone, where it needs more than the one that was kept there.
fn raise(single_span: &mut Vec<Demand>, demand: Demand) -> Result<(), AllocError>
    requires { demand.span ≡ 1 }
    ensures { OnOk result ((k : ℕ) → slice_index_or single_span.new.items k no_demand ≡
        gathered_for k (slice_index_or single_span.old.items k no_demand) demand) }
{
    extend(single_span, demand.start)?;
    if single_span[demand.start].minimum < demand.minimum {
        single_span[demand.start] = demand;
    }
    Ok(())
}

/// Whether the cell that is kept for a track needs as much.
fn is_met(single_span: &[Demand], i: usize, minimum: usize) -> bool
    ensures { result ≡ true → minimum ≤ (slice_index_or single_span.now i no_demand).minimum }
{
    i < single_span.len() && minimum <= single_span[i].minimum
}

/// Keeps the demand of the visible cell at a position, of a span of tracks: it needs its measure
/// with the paddings before and after it.
#[inline(always)]
pub fn keep(
    kept: &mut Demands,
    direction: Direction,
    position: Position,
    span: usize,
    measure: usize,
    before: usize,
    after: usize,
) -> Result<(), AllocError>
    requires { 1 ≤ span }
    ensures { let minimum = measure + before + after in
        OnOk result (AddsDemands kept.old kept.new
        (demand_of direction position span minimum ∷ [])) }
{
    let start = direction.number_of(position);
    if let Some(minimum) = minimum_of(measure, before, after) {
        // Most cells need no more than another one of their track.
        if span == 1 && start < kept.limit && is_met(&kept.single_span, start, minimum) {
            return Ok(());
        }
    }
    keep_new(kept, direction, position, span, measure, before, after)
}

/// The same, where it may be the first of greatest minimum size.
// Out of line, so that the code for cells that need no more than others stays small.
#[inline(never)]
fn keep_new(
    kept: &mut Demands,
    direction: Direction,
    position: Position,
    span: usize,
    measure: usize,
    before: usize,
    after: usize,
) -> Result<(), AllocError>
    requires { 1 ≤ span }
    ensures { let minimum = measure + before + after in
        OnOk result (AddsDemands kept.old kept.new
        (demand_of direction position span minimum ∷ [])) }
{
    let minimum = minimum_of(measure, before, after);
    let demand = Demand {
        row: position.row,
        col: position.col,
        start: direction.number_of(position),
        span,
        minimum: minimum.unwrap_or(usize::MAX),
    };
    if span == 1 && demand.start < kept.limit {
        raise(&mut kept.single_span, demand)?;
    } else {
        kept.rest.push(demand)?;
    }
    if minimum.is_none() {
        kept.is_large = true;
    }
    Ok(())
}
