//! The layout of records by settings.

ghost use Rattle.std.specs.Prelude.{◌≡◌, ◌↔◌, All, IsTrue, true};
ghost use Rattle.papergrid_config.specs.Applied.{is_in_range};

use crate::tests::rows_of;
use papergrid::config::spanned::Setting;
use papergrid::config::{Borders, Entity, Indent, Position, Sides};
use papergrid::dimension::LayoutError;
use papergrid::records::IterRecords;
use papergrid::{Sizing, layout, layout_least};
use std::alloc::{AllocError, Global};

/// The settings of the picture.
pub fn picture_settings(alloc: Global) -> Result<Vec<Setting>, AllocError> {
    let (four, one) = (Indent::spaced(4), Indent::spaced(1));
    Ok(vec![in alloc;
        Setting::SetBorders(Borders::filled('+')),
        Setting::SetColumnSpan(Position::new(1, 1), 3),
        Setting::SetRowSpan(Position::new(0, 0), 2),
        Setting::SetPadding(Entity::Cell(0, 0), Sides::new(four, four, one, one)),
    ]?)
}

/// Two column spans that cross, each of a cell with so much padding on its left.
fn crossing_settings(alloc: Global, padding: usize) -> Result<Vec<Setting>, AllocError> {
    let none = Indent::zero();
    let sides = Sides::new(Indent::spaced(padding), none, none, none);
    Ok(vec![in alloc;
        Setting::SetColumnSpan(Position::new(0, 0), 2),
        Setting::SetColumnSpan(Position::new(1, 1), 2),
        Setting::SetPadding(Entity::Cell(0, 0), sides),
        Setting::SetPadding(Entity::Cell(1, 1), sides),
    ]?)
}

fn are_in_range(settings: &[Setting]) -> bool
    ensures { IsTrue result ↔ All (λ setting. is_in_range setting ≡ true) settings.now }
{
    settings.iter().all(|setting| setting.is_in_range())
}

/// The widths of a table of so many columns, whose rows are one line high; none where a setting is out of range.
pub fn widths_of(
    alloc: Global,
    sizing: Sizing,
    settings: Vec<Setting>,
    columns: usize,
    texts: &[&[&'static str]],
) -> Result<Option<Vec<usize>>, LayoutError> {
    if !are_in_range(&settings) {
        return Ok(None);
    }
    let rows = rows_of(alloc, texts)?;
    let records = IterRecords::new(rows.as_slice(), columns, None);
    let (widths, heights) = match sizing {
        Sizing::ByShares => layout(alloc, settings, records)?.get_values(),
        Sizing::Least => layout_least(alloc, settings, records)?.get_values(),
    };
    Ok((heights.as_slice() == [1, 1].as_slice()).then_some(widths))
}

/// Whether these are the widths.
fn are(found: Result<Option<Vec<usize>>, LayoutError>, widths: &[usize]) -> bool {
    matches!(&found, Ok(Some(sizes)) if sizes.as_slice() == widths)
}

pub const PICTURE: [&[&str]; 2] = [
    &["Papergrid", "is a library", "for print tables", "!"],
    &["", "Just like this", "", ""],
];

fn is_picture(alloc: Global) -> Result<bool, AllocError> {
    let settings = picture_settings(alloc)?;
    let found = widths_of(alloc, Sizing::ByShares, settings, 4, &PICTURE);
    Ok(are(found, &[17, 12, 16, 1]))
}

fn are_crossing(alloc: Global) -> Result<bool, AllocError> {
    let settings = crossing_settings(alloc, 0)?;
    let letters: [&[&str]; 2] = [&["0123456789"], &["", "0123456789"]];
    let found = widths_of(alloc, Sizing::Least, settings, 3, &letters);
    Ok(are(found, &[0, 10, 0]))
}

/// What two crossing spans without a letter have, whose paddings are as large as can be.
fn widest_of(alloc: Global, sizing: Sizing) -> Result<Option<Vec<usize>>, LayoutError> {
    let no_letters: [&[&str]; 2] = [&[""], &["", ""]];
    let settings = crossing_settings(alloc, usize::MAX)?;
    widths_of(alloc, sizing, settings, 3, &no_letters)
}

#[test]
fn shares_too_large_and_least_not(rt: HostRuntime) {
    let shares = widest_of(rt.alloc(), Sizing::ByShares);
    assert!(rt; shares.err() == Some(LayoutError::TooLarge));
    let least = widest_of(rt.alloc(), Sizing::Least);
    assert!(rt; are(least, &[0, usize::MAX, 0]));
}

#[test]
fn layouts(rt: HostRuntime) {
    assert!(rt; is_picture(rt.alloc()) == Ok(true));
    assert!(rt; are_crossing(rt.alloc()) == Ok(true));
}
