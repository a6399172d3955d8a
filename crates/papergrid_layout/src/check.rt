//! The check that sizes along one direction are least, by a list of positions.

ghost use Rattle.std.specs.Prelude.{◌≡◌, ◌+◌, ◌^◌, ◌<◌, ◌≤◌, ◌⊎◌, ◌∷◌, [], length};
ghost use Rattle.papergrid_tracks.specs.ForProofs.Checks.{AreBounded, IsCandidate};
ghost use Rattle.papergrid_walk.specs.Cells.{demands_by, demands_of, problem_of};
ghost use Rattle.papergrid_layout.specs.Certificates.{IsChecked};
ghost use Rattle.papergrid_layout.specs.ForProofs.Checking.{AreShown, ChecksBy, ChecksMore, IsShownCandidate, check_more, check_none};
ghost use Rattle.std.proofs.Common.{◌∙◌, ap, refl};
ghost use Rattle.papergrid_text.specs.Records.{TellsRows};

use crate::along::{Along, count_of};
use papergrid_maps::ConfigView;
use papergrid_text::{IntoRecords, Records};
use papergrid_tracks::candidate::{are_in_order, count_listed};
use papergrid_tracks::checked::{accepts, is_unchanged, visit, wide_minimum};
use papergrid_tracks::{Candidate, Checked};
use papergrid_values::{Direction, Position};
use papergrid_walk::{Measure, Visitor, walk};
use std::alloc::AllocError;
use std::marker::PhantomData;

/// What the cell at a position needs along a direction, by its width (height).
fn minimum_along<S: ConfigView>(
    settings: &S,
    direction: Direction,
    position: Position,
    size: usize,
) -> u128
    ensures sum { let grid = S.grid settings.now in
        result ≡ size + grid.before direction position + grid.after direction position }
    ensures small { result ≤ 2 ^ 66 }
{
    let before = settings.padding_before(direction, position);
    let after = settings.padding_after(direction, position);
    wide_minimum(size, before, after)
}

/// Whether the cell at a position is visible. Where the list is in order this is known of the listed
/// cells, and no span is looked at.
fn is_shown<S: ConfigView>(settings: &S, candidate: &Candidate<'_>, position: Position) -> bool
    requires ordered { IsCandidate ((S.grid settings.now).span candidate.now.direction)
        candidate.now }
    requires shown { IsShownCandidate (S.grid settings.now) candidate.now }
    ensures { result ≡ (S.grid settings.now).shows position }
{
    if candidate.is_ordered && count_listed(candidate, position) > 0 {
        return true;
    }
    settings.is_visible(position)
}

/// What is kept of the cells met and of one more, if that is visible. Whether it is may take a look at
/// the spans, so this is asked only of a cell that would change what is kept.
fn check_cell<M: Measure<C>, C, S: ConfigView>(
    checked: Checked,
    settings: &S,
    candidate: &Candidate<'_>,
    position: Position,
    cell: &C,
) -> Checked
    requires bounded { AreBounded candidate.now.positions.now checked }
    requires ordered { IsCandidate ((S.grid settings.now).span candidate.now.direction)
        candidate.now }
    requires shown { IsShownCandidate (S.grid settings.now) candidate.now }
    ensures bounded { AreBounded candidate.now.positions.now result }
    ensures checks { let grid = S.grid settings.now in
        ChecksMore grid candidate.now checked result
        (demands_by candidate.now.direction grid M.measured ((position, cell.now) ∷ [])) }
{
    let axis = Along {
        settings,
        direction: candidate.direction,
        count: candidate.sizes.len(),
    };
    let size = M::measure_along(candidate.direction, cell);
    let minimum = minimum_along(settings, candidate.direction, position, size);
    let visited = visit(checked, candidate, &axis, position, minimum);
    if is_unchanged(checked, visited) {
        return checked;
    }
    if is_shown(settings, candidate, position) {
        visited
    } else {
        checked
    }
}

/// What a checker was given, and what it kept of the cells met.
#[derive(Drop)]
struct Checker<'a, M, S> {
    settings: &'a S,
    candidate: &'a Candidate<'a>,
    checked: Checked,
    measure: PhantomData<M>,
}

impl<'a, M: Measure<C>, C, S: ConfigView> Visitor<C> for Checker<'a, M, S> {
    ghost ready = { λ v row column. AreBounded v.candidate.now.positions.now v.checked
        × IsCandidate ((S.grid v.settings.now).span v.candidate.now.direction) v.candidate.now
        × IsShownCandidate (S.grid v.settings.now) v.candidate.now };

    ghost consumed = { λ v w cells. (w.settings ≡ v.settings) × (w.candidate ≡ v.candidate)
        × ChecksMore (S.grid v.settings.now) v.candidate.now v.checked w.checked (demands_by v.candidate.now.direction (S.grid v.settings.now) M.measured cells) };

    // It does not allocate.
    ghost may_fail = { ⊥ };

    fn visit(&mut self, position: Position, cell: &C) -> Result<(), AllocError> {
        self.checked = check_cell::<M, C, S>(
            self.checked,
            self.settings,
            self.candidate,
            position,
            cell,
        );
        Ok(())
    }

    ghost empty = { λ v. (refl, refl, check_none (S.grid v.settings.now) v.candidate.now v.checked) };

    ghost append = { λ u v w cells further first second. (
      second.0 ∙ first.0,
      second.1 ∙ first.1,
      check_more M.measured (S.grid u.settings.now) (S.grid v.settings.now) u.candidate.now v.candidate.now
          (ap (λ s. S.grid s.now) first.0) (ap (λ c. c.now) first.1) u.checked v.checked w.checked cells further first.2 second.2,
    ) };

    ghost next_row = { λ v row column so_far. so_far };
}

/// What is kept of the visible cells of the records, and the number of rows.
fn check_rows<M, R: Records + Drop, S: ConfigView>(
    records: R,
    settings: &S,
    candidate: &Candidate<'_>,
) -> (Checked, usize)
where
    M: Measure<<<R as Records>::Iter as IntoRecords>::Cell>,
    <<R as Records>::Iter as IntoRecords>::Cell: Drop,
    requires lawful { R.is_lawful records }
    requires ordered { IsCandidate ((S.grid settings.now).span candidate.now.direction)
        candidate.now }
    requires shown { IsShownCandidate (S.grid settings.now) candidate.now }
    ensures bounded { AreBounded candidate.now.positions.now result.0 }
    ensures checks { let grid = S.grid settings.now in
        TellsRows R.tells records (λ cells.
        ChecksBy grid candidate.now result.0
        (demands_of candidate.now.direction grid M.measured cells)
        × (result.1 ≡ length cells)) }
{
    let mut checker = Checker::<M, S> {
        settings,
        candidate,
        checked: Checked::new(),
        measure: PhantomData,
    };
    match walk(records, &mut checker) {
        Ok(rows) => (checker.checked, rows),
        Err(_) => unreachable!(),
    }
}

/// The check where it is known whether the ranges at the positions are in order.
fn check_candidate<M, R: Records + Drop, S: ConfigView>(
    records: R,
    settings: &S,
    candidate: &Candidate<'_>,
) -> bool
where
    M: Measure<<<R as Records>::Iter as IntoRecords>::Cell>,
    <<R as Records>::Iter as IntoRecords>::Cell: Drop,
    requires lawful { R.is_lawful records }
    requires ordered { IsCandidate ((S.grid settings.now).span candidate.now.direction)
        candidate.now }
    requires shown { IsShownCandidate (S.grid settings.now) candidate.now }
    ensures { TellsRows R.tells records (λ cells.
        IsChecked (problem_of (S.grid settings.now) M.measured
        (R.columns records) cells candidate.now.direction) candidate.now.sizes.now
        candidate.now.positions.now result) }
{
    let columns = records.count_columns();
    let axis = Along {
        settings,
        direction: candidate.direction,
        count: candidate.sizes.len(),
    };
    let (checked, rows) = check_rows::<M, R, S>(records, settings, candidate);
    let count = count_of(candidate.direction, columns, rows);
    accepts(checked, candidate, &axis, count)
}

/// The check where more positions are listed than there are sizes, since ranges that have no number
/// in common are never so many, or where a listed cell is hidden. The records are walked as ever.
fn refuse<M, R: Records + Drop, S: ConfigView>(
    records: R,
    settings: &S,
    direction: Direction,
    sizes: &[usize],
    positions: &[Position],
) -> bool
where
    M: Measure<<<R as Records>::Iter as IntoRecords>::Cell>,
    <<R as Records>::Iter as IntoRecords>::Cell: Drop,
    requires lawful { R.is_lawful records }
    requires reason { (length sizes.now < length positions.now)
        ⊎ (AreShown (S.grid settings.now) positions.now → ⊥) }
    ensures { TellsRows R.tells records (λ cells.
        IsChecked (problem_of (S.grid settings.now) M.measured
        (R.columns records) cells direction) sizes.now positions.now result) }
{
    let candidate = Candidate {
        direction,
        sizes,
        positions: &positions[..0],
        is_ordered: false,
        ends_within: false,
    };
    let _ = check_rows::<M, R, S>(records, settings, &candidate);
    false
}

/// Whether no visible cell of the records overflows the table, the sizes are as many as the tracks
/// and give each visible cell room, and the positions are those of visible cells of disjoint
/// ranges, whose minimum sizes less the lines inside of them add up to the sizes. Then no other
/// choice of sizes has a smaller total. It does not allocate.
pub fn check<M, R: Records + Drop, S: ConfigView>(
    records: R,
    settings: &S,
    direction: Direction,
    sizes: &[usize],
    positions: &[Position],
) -> bool
where
    M: Measure<<<R as Records>::Iter as IntoRecords>::Cell>,
    <<R as Records>::Iter as IntoRecords>::Cell: Drop,
    requires { R.is_lawful records }
    ensures { TellsRows R.tells records (λ cells.
        IsChecked (problem_of (S.grid settings.now) M.measured
        (R.columns records) cells direction) sizes.now positions.now result) }
{
    if positions.len() > sizes.len() {
        return refuse::<M, R, S>(records, settings, direction, sizes, positions);
    }
    let axis = Along {
        settings,
        direction,
        count: sizes.len(),
    };
    let is_ordered = are_in_order(direction, &axis, positions);
    if is_ordered && !settings.are_visible(direction, positions) {
        return refuse::<M, R, S>(records, settings, direction, sizes, positions);
    }
    let candidate = Candidate {
        direction,
        sizes,
        positions,
        is_ordered,
        ends_within: settings.spans_end_within(direction, sizes.len()),
    };
    check_candidate::<M, R, S>(records, settings, &candidate)
}
