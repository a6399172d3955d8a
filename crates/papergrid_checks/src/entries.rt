//! A table of values of a struct with named fields.

ghost use Rattle.std.specs.Prelude.{◌≡◌, ◌∷◌, [], IfOk, map, string_bytes};
ghost use Rattle.papergrid_layout.specs.Answers.{AreBothSized};
ghost use Rattle.papergrid_tracks.specs.declared.sizing.Sizing.TheVariants as sizings;
ghost use Rattle.papergrid_config.specs.Grids.{spanned_grid};
ghost use Rattle.papergrid_walk.specs.Measures.{line_measure};

use papergrid::config::spanned::SpannedConfig;
use papergrid::dimension::iterable::IterGridDimension;
use papergrid::dimension::{Estimate, LayoutError};
use papergrid::records::IterRecords;
use std::alloc::{AllocError, Global};

/// What a row of the table is about.
#[derive(Drop)]
pub struct Entry {
    pub name: String,
    pub note: String,
}

/// A row for each entry: its name and its note, lent.
pub fn rows_of<'a>(alloc: Global, entries: &'a [Entry]) -> Result<Vec<Vec<&'a str>>, AllocError>
    ensures { IfOk result (λ rows. map (λ row. map (λ text. text.now) row.items) rows.items
        ≡ map (λ entry. string_bytes entry.name ∷ string_bytes entry.note ∷ []) entries.now) }
{
    let mut rows = Vec::new(alloc);
    for entry in entries {
        rows.push(vec![in alloc; entry.name.as_str(), entry.note.as_str()]?)?;
    }
    Ok(rows)
}

/// The widths of the two columns, and the heights of the rows.
pub fn of_entries(
    alloc: Global,
    entries: &[Entry],
    config: &SpannedConfig,
) -> Result<(Vec<usize>, Vec<usize>), LayoutError>
    ensures { AreBothSized (spanned_grid config.now) (line_measure (λ text. text)) 2
        (map (λ entry. string_bytes entry.name ∷ string_bytes entry.note ∷ []) entries.now)
        sizings.ByShares result }
{
    let rows = rows_of(alloc, entries)?;
    let mut dimension = IterGridDimension::new(alloc);
    dimension.estimate(IterRecords::new(&rows, 2, None), config)?;
    Ok(dimension.get_values())
}
