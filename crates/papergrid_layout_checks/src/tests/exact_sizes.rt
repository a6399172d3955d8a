//! Sizes that callers learn exactly, dimensions as values, and rows that are taken for one line each.

ghost use Rattle.std.specs.Prelude.{◌≡◌, IfOk, OnOk, length};
ghost use Rattle.papergrid_text.specs.HeldRows.{column_count};

use crate::tests::size_callers::{of_held, of_lent, width_by_estimate};
use papergrid_config::{CompactConfig, SpannedConfig};
use papergrid_layout::{CompactGridDimension, Dimension, Estimate, IterGridDimension, LayoutError};
use papergrid_text::VecRecords;
use std::alloc::{AllocError, Global};
use std::test::Fail;

/// A row that owns its texts.
pub fn row_of(alloc: Global, texts: &[&str]) -> Result<Vec<String>, AllocError> {
    let mut row = Vec::new(alloc);
    for text in texts {
        row.push(String::from_str(alloc, *text)?)?;
    }
    Ok(row)
}

/// Rows that own their texts.
pub fn rows_of(alloc: Global, rows: &[&[&str]]) -> Result<Vec<Vec<String>>, AllocError> {
    let mut held = Vec::new(alloc);
    for texts in rows {
        held.push(row_of(alloc, *texts)?)?;
    }
    Ok(held)
}

/// Rows of texts that are lent.
pub fn lent_rows(
    alloc: Global,
    rows: &[&[&'static str]],
) -> Result<Vec<Vec<&'static str>>, AllocError> {
    let mut held = Vec::new(alloc);
    for row in rows {
        held.push(row.to_vec(alloc)?)?;
    }
    Ok(held)
}

/// Records of rows of so many columns.
fn records_of(
    alloc: Global,
    columns: usize,
    rows: &[&[&str]],
) -> Result<VecRecords<String>, AllocError>
    ensures { IfOk result (λ records. column_count records ≡ columns) }
{
    Ok(VecRecords::with_size(rows_of(alloc, rows)?, 0, columns))
}

/// Whether the widths are the same, lent and by value.
fn is_same_lent(
    alloc: Global,
    records: VecRecords<String>,
    config: &SpannedConfig,
) -> Result<bool, LayoutError> {
    let lent = of_lent(alloc, &records, config)?;
    Ok(lent == of_held(alloc, records, config)?)
}

const ROWS: &[&[&str]] = &[&["a", "a", "a"], &["0123456789"], &["a", "01234567"]];

#[test]
fn lent_records(rt: HostRuntime) -> Result<(), Fail> {
    let alloc = rt.alloc();
    let records = records_of(alloc, 3, ROWS)?;
    let config = SpannedConfig::new(alloc);
    let is_same = is_same_lent(alloc, records, &config);
    drop(config);
    assert!(rt; is_same == Ok(true));
    Ok(())
}

// The columns are as wide as their longest texts: 10, 8 and 1.
#[test]
fn width_of_estimated(rt: HostRuntime) -> Result<(), Fail> {
    let alloc = rt.alloc();
    let records = records_of(alloc, 3, ROWS)?;
    let config = SpannedConfig::new(alloc);
    let width = width_by_estimate(alloc, records, &config);
    drop(config);
    assert!(rt; width == Ok(19));
    Ok(())
}

/// Whether a dimension equals its clone, and no new one, once it has sizes.
fn is_cloned(
    alloc: Global,
    records: &VecRecords<String>,
    config: &SpannedConfig,
) -> Result<bool, LayoutError> {
    let mut dimension = IterGridDimension::new(alloc);
    let is_new = dimension == IterGridDimension::new(alloc);
    dimension.estimate(records, config)?;
    let copy = dimension.clone()?;
    Ok(is_new && copy == dimension && copy != IterGridDimension::new(alloc))
}

#[test]
fn clones(rt: HostRuntime) -> Result<(), Fail> {
    let alloc = rt.alloc();
    let records = records_of(alloc, 1, &[&["ab"]])?;
    let config = SpannedConfig::new(alloc);
    let are_clones = is_cloned(alloc, &records, &config);
    drop(config);
    assert!(rt; are_clones == Ok(true));
    Ok(())
}

/// Estimates records by the default configuration.
fn estimate_compact(
    records: &VecRecords<String>,
    dimension: &mut CompactGridDimension,
) -> Result<(), LayoutError>
    ensures { OnOk result (length dimension.new.widths ≡ column_count records.now) }
{
    let config = CompactConfig::new();
    dimension.estimate(records, &config)
}

fn is_compact(alloc: Global) -> Result<bool, LayoutError> {
    let records = records_of(alloc, 2, &[&["ab", "c\nde"], &["", "x"]])?;
    let mut dimension = CompactGridDimension::new(alloc);
    estimate_compact(&records, &mut dimension)?;
    Ok(
        (dimension.get_width(0), dimension.get_width(1)) == (4, 4)
            && (dimension.get_height(0), dimension.get_height(99)) == (1, 1),
    )
}

#[test]
fn compact_dimension(rt: HostRuntime) {
    assert!(rt; is_compact(rt.alloc()) == Ok(true));
}
