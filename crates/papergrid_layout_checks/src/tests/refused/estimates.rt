//! Estimates of a picture of two rows and four columns, by each dimension.

ghost use Rattle.std.specs.Prelude.{List, ℕ};
ghost use Rattle.std.specs.Borrow.{Bor};
ghost use Rattle.papergrid_text.specs.declared.vec_records.VecRecords.{VecRecords};

use super::{clones, says, with_clone};
use crate::tests::exact_sizes::lent_rows;
use papergrid_config::{CompactConfig, SpannedConfig};
use papergrid_layout::{
    CompactGridDimension, Estimate, IterGridDimension, LayoutError, LeastGridDimension,
    PeekableGridDimension,
};
use papergrid_text::VecRecords;
use papergrid_values::{Borders, Entity, Indent, Position, Sides};
use std::alloc::{AllocError, Global};
use std::process::Abort;
use std::test::Fail;

const PICTURE: [&[&str]; 2] = [
    &["Papergrid", "is a library", "for print tables", "!"],
    &["", "Just like this", "", ""],
];

const SHORT: [&[&str]; 2] = [&["a", "b", "c", "d"], &["e", "f", "g", "h"]];

fn records(
    alloc: Global,
    rows: &[&[&'static str]],
) -> Result<VecRecords<&'static str>, AllocError> {
    Ok(VecRecords::new(lent_rows(alloc, rows)?))
}

/// Makes the settings of the picture.
fn set_picture(config: &mut SpannedConfig) -> Result<(), AllocError> {
    let (side, above) = (Indent::spaced(4), Indent::spaced(1));
    config.set_borders(Borders::filled('+'));
    config.set_column_span(Position::new(1, 1), 3)?;
    config.set_row_span(Position::new(0, 0), 2)?;
    config.set_padding(Entity::Cell(0, 0), Sides::new(side, side, above, above))
}

/// An answer that can be no other error than out of memory.
fn in_table<A>(rt: &impl Abort, answer: Result<A, LayoutError>) -> Result<A, AllocError> {
    match answer {
        Ok(answer) => Ok(answer),
        Err(LayoutError::Memory(error)) => Err(error),
        Err(error) => panic!(rt; "{error:?}"),
    }
}

/// A dimension that has the sizes of short texts.
fn sized<C, D: Estimate<VecRecords<&'static str>, C> + Drop>(
    rt: &(impl Abort + AllocGlobal),
    mut dimension: D,
    config: &C,
) -> Result<D, AllocError>
    requires { (records : VecRecords (Bor (List ℕ))) → D.accepts records }
{
    let records = records(rt.alloc(), &SHORT)?;
    in_table(rt, dimension.estimate(records, config))?;
    Ok(dimension)
}

/// What a test ends with that estimates the picture after short texts, and then clones the dimension.
fn estimates<C, D: Estimate<VecRecords<&'static str>, C> + Clone + PartialEq + Drop>(
    rt: &(impl Abort + AllocGlobal),
    dimension: D,
    config: &C,
) -> Result<(), Fail>
    requires { (records : VecRecords (Bor (List ℕ))) → D.accepts records }
{
    let records = records(rt.alloc(), &PICTURE)?;
    let (mut dimension, before) = with_clone(sized(rt, dimension, config))?;
    let answer = dimension.estimate(records, config);
    assert!(rt; answer.is_ok() || dimension == before);
    says((1, 2), in_table(rt, answer))?;
    drop(before);
    clones(rt, (2, 2), Ok(dimension))
}

/// The same by the settings of the picture.
fn estimates_picture<D>(rt: &(impl Abort + AllocGlobal), dimension: D) -> Result<(), Fail>
where
    D: Estimate<VecRecords<&'static str>, SpannedConfig> + Clone + PartialEq + Drop,
    requires { (records : VecRecords (Bor (List ℕ))) → D.accepts records }
{
    let mut config = SpannedConfig::new(rt.alloc());
    let end = match set_picture(&mut config) {
        Ok(()) => estimates(rt, dimension, &config),
        Err(error) => Err(Fail::from(error)),
    };
    drop(config);
    end
}

#[test]
fn iter_estimate(rt: HostRuntime) -> Result<(), Fail> {
    estimates_picture(&rt, IterGridDimension::new(rt.alloc()))
}

#[test]
fn least_estimate(rt: HostRuntime) -> Result<(), Fail> {
    estimates_picture(&rt, LeastGridDimension::new(rt.alloc()))
}

#[test]
fn peekable_estimate(rt: HostRuntime) -> Result<(), Fail> {
    estimates_picture(&rt, PeekableGridDimension::new(rt.alloc()))
}

#[test]
fn compact_estimate(rt: HostRuntime) -> Result<(), Fail> {
    let dimension = CompactGridDimension::new(rt.alloc());
    estimates(&rt, dimension, &CompactConfig::new())
}
