//! What visible cells need, along a direction or along both.

ghost use Rattle.std.specs.Prelude.{◌≡◌, ◌+◌, ◌-◌, ◌<◌, ◌≤◌, ◌^◌, ◌∷◌, [], ⊤, if◌then◌else◌, IfOk, None, OnOk, Some, length};
ghost use Rattle.papergrid_values.specs.declared.direction.Direction.TheVariants.{Columns, Rows};
ghost use Rattle.papergrid_tracks.specs.ForProofs.Demands.{AddsDemands, AreGathered};
ghost use Rattle.papergrid_walk.specs.Cells.{demands_by, count_along, demands_of};
ghost use Rattle.papergrid_walk.specs.ForProofs.Limits.{limit_along};
ghost use Rattle.papergrid_tracks.specs.Ranges.{demand_of};
ghost use Rattle.papergrid_maps.specs.Grids.{Grid};
ghost use Rattle.papergrid_walk.specs.ForProofs.Paddings.{Knows};
ghost use Rattle.papergrid_maps.specs.Paddings.{paddings_at};
ghost use Rattle.papergrid_walk.specs.ForProofs.Pairs.{AddsBoth, AreBothGathered, IsReadyAt, KeepsCell, StandsAt};
ghost use Rattle.papergrid_walk.specs.ForProofs.Shown.{Shows, anchor_in};
ghost use Rattle.papergrid_walk.specs.ForProofs.Visits.{adds_more, adds_none, shows_turn};
ghost use Rattle.std.proofs.Common.{◌∙◌, ap, refl};
ghost use Rattle.papergrid_text.specs.Records.{TellsRows};

use crate::Sweep;
use crate::known::KnownPaddings;
use crate::measure::Measure;
use crate::shown::{sweep_of, visible_anchor};
use crate::visitor::{Visitor, walk};
use papergrid_maps::{Anchor, ConfigView, Paddings};
use papergrid_text::{IntoRecords, Records};
use papergrid_tracks::Demands;
use papergrid_tracks::demands::keep;
use papergrid_values::{Direction, PerDirection, Position};
use std::alloc::{AllocError, Global};
use std::marker::PhantomData;

/// Below which track a cell that covers one alone is in the table for certain: rows are counted as
/// they come, and none comes that is not one of the table.
fn limit_of(direction: Direction, columns: usize) -> usize
    ensures { result ≡ limit_along direction columns }
{
    match direction {
        Direction::Columns => columns,
        Direction::Rows => usize::MAX,
    }
}

/// Keeps what a visible cell asks for along a direction, by its spans, its width (height) and its
/// paddings.
#[inline(always)]
fn keep_along(
    kept: &mut Demands,
    direction: Direction,
    anchor: Anchor,
    size: usize,
    paddings: Paddings,
) -> Result<(), AllocError>
    requires { (1 ≤ anchor.cols) × (1 ≤ anchor.rows) }
    ensures { (grid : Grid) → let position = anchor.position in
        anchor ≡ anchor_in grid position → paddings ≡ paddings_at grid position →
        let minimum = size + grid.before direction position + grid.after direction position in
        let demand = demand_of direction position (grid.span direction position) minimum in
        OnOk result (AddsDemands kept.old kept.new (demand ∷ [])) }
{
    let Paddings {
        left,
        right,
        top,
        bottom,
    } = paddings;
    let (span, before, after) = match direction {
        Direction::Columns => (anchor.cols, left, right),
        Direction::Rows => (anchor.rows, top, bottom),
    };
    keep(kept, direction, anchor.position, span, size, before, after)
}

/// What a walk reads of settings: which cells are visible, their spans and their paddings.
pub struct View<'a, S> {
    alloc: Global,
    settings: &'a S,
    sweep: Sweep,
    known: KnownPaddings,
}

// By hand: docs/DECISIONS.md, "Drops".
impl<S> Drop for View<'_, S> {
    fn drop(self) {
        let View {
            alloc: _,
            settings: _,
            sweep: _,
            known: _,
        } = self;
    }
}

impl<'a, S: ConfigView> View<'a, S> {
    /// Before the first cell.
    fn new(alloc: Global, settings: &'a S) -> Result<View<'a, S>, AllocError>
        ensures { let grid = S.grid settings.now in
            IfOk result (λ view. (view.settings.now ≡ settings.now)
            × Shows grid view.sweep 0 0 × Knows grid (S.set_for settings.now) view.known) }
    {
        let sweep = sweep_of(alloc, settings)?;
        Ok(View {
            alloc,
            settings,
            sweep,
            known: KnownPaddings::new(alloc, settings)?,
        })
    }

    /// The spans and the paddings of the cell at a position, where it is visible.
    #[inline(always)]
    fn read(&mut self, position: Position) -> Result<Option<(Anchor, Paddings)>, AllocError>
        requires shows { let settings = self.old.settings.now in
            Shows (S.grid settings) self.old.sweep position.row position.col }
        requires knows { let settings = self.old.settings.now in
            Knows (S.grid settings) (S.set_for settings) self.old.known }
        requires row_in { position.row < 2 ^ 64 - 1 }
        requires col_in { position.col < 2 ^ 64 - 1 }
        ensures read { let grid = S.grid self.old.settings.now in
            let seen = Some (anchor_in grid position, paddings_at grid position) in
            IfOk result (λ found. found ≡ (if grid.shows position then seen else None)) }
        ensures later { let settings = self.old.settings.now in
            IfOk result (λ _.
            Shows (S.grid settings) self.new.sweep position.row (position.col + 1)) }
        ensures settings { IfOk result (λ _. self.new.settings ≡ self.old.settings) }
        ensures knows { let settings = self.old.settings.now in
            IfOk result (λ _. Knows (S.grid settings) (S.set_for settings) self.new.known) }
    {
        let Some(anchor) = visible_anchor(&mut self.sweep, self.alloc, position)? else {
            return Ok(None);
        };
        let paddings = self.known.at(self.settings, position)?;
        Ok(Some((anchor, paddings)))
    }
}

/// What the visible cells met so far need along a direction.
#[derive(Drop)]
pub struct DemandVisitor<'a, M, S> {
    view: View<'a, S>,
    direction: Direction,
    kept: Demands,
    measure: PhantomData<M>,
}

impl<'a, M: Measure<C>, C, S: ConfigView> Visitor<C> for DemandVisitor<'a, M, S> {
    ghost ready = { λ v row column. StandsAt S.grid S.set_for v.view row column };

    ghost consumed = { λ v w cells. (w.view.settings ≡ v.view.settings) × (w.direction ≡ v.direction)
        × AddsDemands v.kept w.kept (demands_by v.direction (S.grid v.view.settings.now) M.measured cells) };

    ghost may_fail = { ⊤ };

    #[inline(always)]
    fn visit(&mut self, position: Position, cell: &C) -> Result<(), AllocError> {
        match self.view.read(position)? {
            Some((anchor, paddings)) => keep_along(
                &mut self.kept,
                self.direction,
                anchor,
                M::measure_along(self.direction, cell),
                paddings,
            ),
            None => Ok(()),
        }
    }

    ghost empty = { λ v. (refl, refl, adds_none v.kept) };

    ghost append = { λ u v w cells further first second. (
      second.0 ∙ first.0,
      second.1 ∙ first.1,
      adds_more M.measured u.direction v.direction (S.grid u.view.settings.now) (S.grid v.view.settings.now) first.1 (ap (λ s. S.grid s.now) first.0)
          u.kept v.kept w.kept cells further first.2 second.2,
    ) };

    ghost next_row = { λ v row column so_far. (shows_turn (S.grid v.view.settings.now) v.view.sweep row column so_far.0, so_far.1) };
}

/// What the visible cells met so far need along both directions.
#[derive(Drop)]
pub struct BothDemandVisitor<'a, M, S> {
    view: View<'a, S>,
    both: PerDirection<Demands>,
    measure: PhantomData<M>,
}

impl<'a, M, S: ConfigView> BothDemandVisitor<'a, M, S> {
    /// Keeps what a cell asks for, where it is visible. It is measured once.
    #[inline(always)]
    fn keep_cell<C>(&mut self, position: Position, cell: &C) -> Result<(), AllocError>
    where
        M: Measure<C>,
        requires { IsReadyAt S.grid S.set_for self.old.view position }
        ensures { OnOk result
            (KeepsCell S.grid S.set_for M.measured self.old self.new position cell.now) }
    {
        let Some((anchor, paddings)) = self.view.read(position)? else {
            return Ok(());
        };
        let (width, height) = M::measure(cell);
        keep_along(
            &mut self.both.columns,
            Direction::Columns,
            anchor,
            width,
            paddings,
        )?;
        keep_along(
            &mut self.both.rows,
            Direction::Rows,
            anchor,
            height,
            paddings,
        )
    }

    /// The same out of line, where cells have spans.
    #[inline(never)]
    fn keep_among_spans<C>(&mut self, position: Position, cell: &C) -> Result<(), AllocError>
    where
        M: Measure<C>,
        requires { IsReadyAt S.grid S.set_for self.old.view position }
        ensures { OnOk result
            (KeepsCell S.grid S.set_for M.measured self.old self.new position cell.now) }
    {
        self.keep_cell(position, cell)
    }
}

impl<'a, M: Measure<C>, C, S: ConfigView> Visitor<C> for BothDemandVisitor<'a, M, S> {
    ghost ready = { λ v row column. StandsAt S.grid S.set_for v.view row column };

    ghost consumed = { λ v w cells. (w.view.settings ≡ v.view.settings) × AddsBoth (S.grid v.view.settings.now) M.measured v.both w.both cells };

    ghost may_fail = { ⊤ };

    // Where there are no spans this has code of its own, in which each cell spans one column and one row.
    #[inline(always)]
    fn visit(&mut self, position: Position, cell: &C) -> Result<(), AllocError> {
        if self.view.sweep.anchors().is_empty() {
            self.keep_cell(position, cell)
        } else {
            self.keep_among_spans(position, cell)
        }
    }

    ghost empty = { λ v. (refl, (adds_none v.both.columns, adds_none v.both.rows)) };

    ghost append = { λ u v w cells further first second. (
      second.0 ∙ first.0,
      (
        adds_more M.measured Columns Columns (S.grid u.view.settings.now) (S.grid v.view.settings.now) refl (ap (λ s. S.grid s.now) first.0)
            u.both.columns v.both.columns w.both.columns cells further first.1.0 second.1.0,
        adds_more M.measured Rows Rows (S.grid u.view.settings.now) (S.grid v.view.settings.now) refl (ap (λ s. S.grid s.now) first.0)
            u.both.rows v.both.rows w.both.rows cells further first.1.1 second.1.1,
      ),
    ) };

    ghost next_row = { λ v row column so_far. (shows_turn (S.grid v.view.settings.now) v.view.sweep row column so_far.0, so_far.1) };
}

/// What the visible cells of the records ask for along one direction, and the number of rows.
pub fn gather<M, R: Records + Drop, S: ConfigView>(
    alloc: Global,
    records: R,
    settings: &S,
    direction: Direction,
) -> Result<(Demands, usize), AllocError>
where
    M: Measure<<<R as Records>::Iter as IntoRecords>::Cell>,
    <<R as Records>::Iter as IntoRecords>::Cell: Drop,
    requires { R.is_lawful records }
    ensures { IfOk result (λ found. TellsRows R.tells records (λ cells.
        AreGathered (count_along direction (R.columns records) (length cells)) found.0
        (demands_of direction (S.grid settings.now) M.measured cells)
        × (found.1 ≡ length cells))) }
{
    let limit = limit_of(direction, records.count_columns());
    let mut minimums = DemandVisitor::<M, S> {
        view: View::new(alloc, settings)?,
        direction,
        kept: Demands::new(alloc, limit),
        measure: PhantomData,
    };
    let rows = walk(records, &mut minimums)?;
    Ok((minimums.kept, rows))
}

/// What the visible cells of the records ask for along both directions, and the number of rows.
pub fn gather_both<M, R: Records + Drop, S: ConfigView>(
    alloc: Global,
    records: R,
    settings: &S,
) -> Result<(PerDirection<Demands>, usize), AllocError>
where
    M: Measure<<<R as Records>::Iter as IntoRecords>::Cell>,
    <<R as Records>::Iter as IntoRecords>::Cell: Drop,
    requires { R.is_lawful records }
    ensures { IfOk result (λ found. TellsRows R.tells records (λ cells.
        AreBothGathered (S.grid settings.now) M.measured (R.columns records) cells found.0
        × (found.1 ≡ length cells))) }
{
    let columns = records.count_columns();
    let mut minimums = BothDemandVisitor::<M, S> {
        view: View::new(alloc, settings)?,
        both: PerDirection {
            columns: Demands::new(alloc, limit_of(Direction::Columns, columns)),
            rows: Demands::new(alloc, limit_of(Direction::Rows, columns)),
        },
        measure: PhantomData,
    };
    let rows = walk(records, &mut minimums)?;
    Ok((minimums.both, rows))
}
