//! The paddings of cells that come by row and then by column: what is set for a column or a row is
//! looked up once.

ghost use Rattle.std.specs.Prelude.{◌≡◌, IfOk, OnOk, false};
ghost use Rattle.papergrid_values.specs.declared.entity.Entity.TheVariants.{Cell, Column};
ghost use Rattle.papergrid_walk.specs.ForProofs.Paddings.{Knows, TellsOwn};
ghost use Rattle.papergrid_maps.specs.Paddings.{paddings_at, set_in_row};

use crate::position_filter::PositionFilter;
use papergrid_maps::{ConfigView, Paddings};
use papergrid_values::{Entity, Position};
use std::alloc::{AllocError, Global};

/// What is known of the paddings of a table.
#[derive(Drop)]
pub struct KnownPaddings {
    /// Whether those in `last` are those of all cells.
    pub are_common: bool,
    /// Those that were asked for last.
    pub last: Paddings,
    /// Which cells may have paddings of their own, where not all cells are alike.
    pub own: PositionFilter,
    /// What is set for each of the columns met so far.
    pub columns: Vec<Option<Paddings>>,
    /// The row that was met last.
    pub row: usize,
    /// What is set for that row, or else for the whole table.
    pub in_row: Paddings,
}

const NO_PADDINGS: Paddings = Paddings {
    left: 0,
    right: 0,
    top: 0,
    bottom: 0,
};

impl KnownPaddings {
    /// What is known before the first cell. Where all cells are alike it does not allocate.
    pub fn new<S: ConfigView>(alloc: Global, settings: &S) -> Result<KnownPaddings, AllocError>
        ensures { IfOk result (λ known.
            Knows (S.grid settings.now) (S.set_for settings.now) known) }
    {
        let common = settings.common_paddings();
        let own = match common {
            Some(_) => PositionFilter::new(alloc, &[])?,
            None => filter_of(alloc, settings)?,
        };
        Ok(KnownPaddings {
            are_common: common.is_some(),
            last: common.unwrap_or(NO_PADDINGS),
            own,
            columns: Vec::new(alloc),
            row: 0,
            in_row: set_in_row(settings, 0),
        })
    }

    /// The paddings of the cell at a position.
    // Each walk asks it for each of its cells.
    #[inline(always)]
    pub fn at<S: ConfigView>(
        &mut self,
        settings: &S,
        position: Position,
    ) -> Result<Paddings, AllocError>
        requires { Knows (S.grid settings.now) (S.set_for settings.now) self.old }
        ensures value { IfOk result (λ paddings.
            paddings ≡ paddings_at (S.grid settings.now) position) }
        ensures knows { IfOk result (λ _.
            Knows (S.grid settings.now) (S.set_for settings.now) self.new) }
    {
        if !self.are_common {
            self.decide(settings, position)?;
        }
        Ok(self.last)
    }

    /// Keeps the paddings that are set for the cell, else for its column, its row or the whole table.
    // Out of line, so that the code for cells that are alike stays small.
    #[inline(never)]
    fn decide<S: ConfigView>(&mut self, settings: &S, position: Position) -> Result<(), AllocError>
        requires apart { self.old.are_common ≡ false }
        requires knows { Knows (S.grid settings.now) (S.set_for settings.now) self.old }
        ensures value { OnOk result (self.new.last ≡ paddings_at (S.grid settings.now) position) }
        ensures knows { OnOk result (
            Knows (S.grid settings.now) (S.set_for settings.now) self.new) }
    {
        let Position { row, col } = position;
        if let Some(paddings) = self.of_cell(settings, position) {
            self.last = paddings;
            return Ok(());
        }
        if let Some(paddings) = self.in_column(settings, col)? {
            self.last = paddings;
            return Ok(());
        }
        if self.row != row {
            self.row = row;
            self.in_row = set_in_row(settings, row);
        }
        self.last = self.in_row;
        Ok(())
    }

    /// What is set for a cell. Most cells have nothing, and are not looked up.
    fn of_cell<S: ConfigView>(&self, settings: &S, position: Position) -> Option<Paddings>
        requires apart { self.now.are_common ≡ false }
        requires knows { Knows (S.grid settings.now) (S.set_for settings.now) self.now }
        ensures { result ≡ S.set_for settings.now (Cell position.row position.col) }
    {
        if !self.own.passes(position) {
            return None;
        }
        settings.paddings_for(Entity::Cell(position.row, position.col))
    }

    /// What is set for a column. It is kept where all columns before are.
    fn in_column<S: ConfigView>(
        &mut self,
        settings: &S,
        col: usize,
    ) -> Result<Option<Paddings>, AllocError>
        requires { Knows (S.grid settings.now) (S.set_for settings.now) self.old }
        ensures value { IfOk result (λ found. found ≡ S.set_for settings.now (Column col)) }
        ensures knows { IfOk result (λ _.
            Knows (S.grid settings.now) (S.set_for settings.now) self.new) }
    {
        if col < self.columns.len() {
            return Ok(self.columns[col]);
        }
        let found = settings.paddings_for(Entity::Column(col));
        if col == self.columns.len() {
            self.columns.push(found)?;
        }
        Ok(found)
    }
}

/// The filter that cells with paddings of their own pass.
fn filter_of<S: ConfigView>(alloc: Global, settings: &S) -> Result<PositionFilter, AllocError>
    ensures { IfOk result (λ filter. TellsOwn (S.set_for settings.now) filter) }
{
    let padded = settings.padded_cells(alloc)?;
    PositionFilter::new(alloc, &padded)
}

/// What is set for a row, or else for the whole table.
fn set_in_row<S: ConfigView>(settings: &S, row: usize) -> Paddings
    ensures { result ≡ set_in_row (S.set_for settings.now) row }
{
    if let Some(paddings) = settings.paddings_for(Entity::Row(row)) {
        return paddings;
    }
    settings.paddings_for(Entity::Global).unwrap_or(NO_PADDINGS)
}
