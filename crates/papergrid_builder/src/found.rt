//! The sizes of a table, the cells that certify them, and where its cells stand.

ghost use Rattle.std.specs.Prelude.{◌≡◌, ◌^◌, ◌<◌, IfErr, IfOk, length};
ghost use Rattle.papergrid_values.specs.declared.direction.Direction.{Direction};
ghost use Rattle.papergrid_layout.specs.Tables.{view_of};
ghost use Rattle.papergrid_layout.specs.Places.{total_along};
ghost use Rattle.papergrid_json.specs.Documents.{AreInRange};
ghost use Rattle.papergrid_builder.specs.Layouts.{IsCellBy, IsFoundTable, IsNoFoundTable, IsPlacedBy, AreFoundSizes};
ghost use Rattle.papergrid_builder.specs.ForProofs.Kept.{found_of, found_parts};
ghost use Rattle.papergrid_builder.specs.ForProofs.Sizes.{IsUnfound};
ghost use Rattle.papergrid_builder.specs.ForProofs.Texts.{AreStarts, rows_lent, rows_told};

use crate::cells::CellTexts;
use crate::error::BuilderError;
use crate::rows::{longest_of, rows_of};
use papergrid_config::{Setting, SpannedConfig};
use papergrid_json::configuration;
use papergrid_layout::certificates::certify;
use papergrid_layout::{Place, PlaceError, Sizing, Solved, Table};
use papergrid_text::IterRecords;
use papergrid_values::{PerDirection, Position};
use std::alloc::{AllocError, Global};

/// A configuration with what was found by it along both directions.
pub struct Found {
    pub config: SpannedConfig,
    pub along: PerDirection<Solved>,
}

// By hand: docs/DECISIONS.md, "Drops".
impl Drop for Found {
    fn drop(self) {
        let Found {
            config: _,
            along: _,
        } = self;
    }
}

/// What is found of cells, by where each row begins among them, by settings.
///
/// Condition: each setting is in range.
pub fn found_by(
    alloc: Global,
    settings: &Vec<Setting>,
    cells: &CellTexts,
    starts: &[usize],
    sizing: Sizing,
) -> Result<Found, BuilderError>
    requires in_range { AreInRange settings.now.items }
    requires starts { AreStarts (length cells.now) starts.now }
    ensures ok { IfOk result (λ found. IsFoundTable settings.now.items
        (rows_told cells.now starts.now) sizing (found_of found)) }
    ensures err { IfErr result (IsNoFoundTable settings.now.items
        (rows_told cells.now starts.now) sizing) }
{
    let texts = cells.texts(alloc)?;
    let rows = rows_of(alloc, &texts, starts)?;
    found_in(alloc, settings, &rows, sizing)
}

/// The same of rows of texts.
fn found_in(
    alloc: Global,
    settings: &Vec<Setting>,
    rows: &[&[&str]],
    sizing: Sizing,
) -> Result<Found, BuilderError>
    requires { AreInRange settings.now.items }
    ensures ok { IfOk result (λ found. IsFoundTable settings.now.items (rows_lent rows.now)
        sizing (found_of found)) }
    ensures err { IfErr result (IsNoFoundTable settings.now.items (rows_lent rows.now) sizing) }
{
    let config = configuration(alloc, settings)?;
    let along = found_along(alloc, &config, rows, sizing)?;
    Ok(Found { config, along })
}

/// What is found of rows of texts by a configuration along both directions.
fn found_along(
    alloc: Global,
    config: &SpannedConfig,
    rows: &[&[&str]],
    sizing: Sizing,
) -> Result<PerDirection<Solved>, BuilderError>
    ensures ok { IfOk result (λ along. AreFoundSizes (rows_lent rows.now) sizing
        (found_of (record { config = config.now; along = along }))) }
    ensures err { IfErr result (IsUnfound config.now (rows_lent rows.now) sizing) }
{
    let columns = longest_of(rows);
    let records = IterRecords::new(Vec::from_slice(alloc, rows)?, columns, Some(rows.len()));
    Ok(certify(alloc, records, config, sizing)?)
}

/// The table of what was found.
fn table_of(alloc: Global, found: &Found) -> Result<Table<'_>, AllocError>
    requires { (direction : Direction) →
        total_along (view_of (found_parts found.now)) direction < 2 ^ 64 }
    ensures { IfOk result (λ table. table ≡ found_parts found.now) }
{
    let PerDirection { columns, rows } = &found.along;
    let (widths, heights) = (columns.sizes.clone()?, rows.sizes.clone()?);
    match Table::from_sizes(alloc, &found.config, widths, heights) {
        Ok(table) => Ok(table),
        Err(_) => Err(AllocError),
    }
}

/// Where the cell at a position stands by what was found.
pub fn place_by(alloc: Global, found: &Found, position: Position) -> Result<Place, BuilderError>
    requires { (direction : Direction) →
        total_along (view_of (found_parts found.now)) direction < 2 ^ 64 }
    ensures { IsPlacedBy (found_parts found.now) position result }
{
    let table = table_of(alloc, found)?;
    match table.place(position) {
        Ok(place) => Ok(place),
        Err(PlaceError::Hidden) => Err(BuilderError::Hidden),
        Err(PlaceError::OutOfTable) => Err(BuilderError::OutOfTable(position)),
        // The totals fit.
        Err(PlaceError::TooLarge) => unreachable!(),
    }
}

/// The cell at a column of the terminal in a line, by what was found.
pub fn cell_by(
    alloc: Global,
    found: &Found,
    column: usize,
    line: usize,
) -> Result<Option<Position>, BuilderError>
    requires { (direction : Direction) →
        total_along (view_of (found_parts found.now)) direction < 2 ^ 64 }
    ensures { IsCellBy (found_parts found.now) column line result }
{
    let table = table_of(alloc, found)?;
    Ok(table.cell_at(column, line))
}
