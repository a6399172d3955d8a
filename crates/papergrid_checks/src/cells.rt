//! Cells of one's own type.

ghost use Rattle.std.specs.Prelude.{string_bytes};
ghost use Rattle.papergrid_tracks.specs.Sizings.{IsSized};
ghost use Rattle.papergrid_tracks.specs.declared.sizing.Sizing.TheVariants as sizings;
ghost use Rattle.papergrid_values.specs.declared.direction.Direction.TheVariants.{Columns};
ghost use Rattle.papergrid_walk.specs.Cells.{problem_of};
ghost use Rattle.papergrid_config.specs.Grids.{spanned_grid};
ghost use Rattle.papergrid_walk.specs.Measures.{line_measure};
ghost use Rattle.papergrid_checks.specs.Rows.{cells_of};

use papergrid::config::spanned::SpannedConfig;
use papergrid::dimension::LayoutError;
use papergrid::dimension::iterable::IterGridDimension;
use papergrid::records::IterRecords;
use std::alloc::Global;
use std::convert::AsStr;

/// A person. The cell shows the name.
#[derive(Drop)]
pub struct Person {
    pub name: String,
    pub age: usize,
}

impl AsStr for Person {
    ghost use Rattle.std.specs.Prelude.{string_bytes};

    ghost text = { λ person. string_bytes person.name };

    fn as_str(&self) -> &str {
        self.name.as_str()
    }
}

/// The widths of rows of people, of so many columns.
pub fn of_people(
    alloc: Global,
    rows: &[Vec<Person>],
    columns: usize,
    config: &SpannedConfig,
) -> Result<Vec<usize>, LayoutError>
    ensures { let measure = line_measure (λ person. string_bytes person.name) in
        IsSized sizings.ByShares
        (problem_of (spanned_grid config.now) measure columns (cells_of rows.now) Columns)
        result }
{
    IterGridDimension::width(alloc, IterRecords::new(rows, columns, None), config)
}
