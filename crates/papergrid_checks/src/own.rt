//! Records of one's own type.

ghost use Rattle.std.specs.Prelude.{◌<◌, string_bytes};
ghost use Rattle.papergrid_layout.specs.Answers.{AreBothSized};
ghost use Rattle.papergrid_tracks.specs.declared.sizing.Sizing.TheVariants as sizings;
ghost use Rattle.papergrid_text.specs.Cut.{cut_rows};
ghost use Rattle.papergrid_config.specs.Grids.{spanned_grid};
ghost use Rattle.papergrid_walk.specs.Measures.{line_measure};

use papergrid::config::spanned::SpannedConfig;
use papergrid::dimension::iterable::IterGridDimension;
use papergrid::dimension::{Estimate, LayoutError};
use papergrid::records::{IntoRecords, Records};
use papergrid_text::laws::chunks_tell_rows;
use std::alloc::Global;
use std::slice::Chunks;

/// Texts, row after row, of so many columns.
#[derive(Drop)]
pub struct Flat {
    pub texts: Vec<String>,
    pub columns: usize,
    ghost some_columns: { 0 < columns },
}

impl<'a> IntoRecords for &'a Flat {
    ghost use Rattle.std.specs.Prelude.{◌≡◌, ⊤, map};
    ghost use Rattle.papergrid_text.specs.Cut.{cut_rows};

    type Cell = &'a String;

    type IterColumns = &'a [String];

    type IterRows = Chunks<'a, String>;

    ghost is_lawful = { λ _. ⊤ };

    ghost tells = { λ s cells. map (map (λ cell. cell.now)) cells ≡ cut_rows s.now.columns s.now.texts.items };

    fn iter_rows(self) -> Chunks<'a, String> {
        chunks_tell_rows::<String>();
        self.texts.chunks(self.columns)
    }
}

impl<'a> Records for &'a Flat {
    ghost use Rattle.std.specs.Prelude.{◌≡◌, ⊤, None, map};
    ghost use Rattle.papergrid_text.specs.Cut.{cut_rows};

    type Iter = &'a Flat;

    ghost is_lawful = { λ _. ⊤ };

    ghost tells = { λ s cells. map (map (λ cell. cell.now)) cells ≡ cut_rows s.now.columns s.now.texts.items };

    ghost columns = { λ s. s.now.columns };

    ghost hint = { λ _. None };

    fn iter_rows(self) -> Chunks<'a, String> {
        IntoRecords::iter_rows(self)
    }

    fn count_columns(&self) -> usize {
        self.columns
    }

    fn hint_count_rows(&self) -> Option<usize> {
        None
    }
}

/// The sizes of a flat list of texts.
pub fn of_flat(
    alloc: Global,
    flat: &Flat,
    config: &SpannedConfig,
) -> Result<(Vec<usize>, Vec<usize>), LayoutError>
    ensures { AreBothSized (spanned_grid config.now) (line_measure string_bytes) flat.now.columns
        (cut_rows flat.now.columns flat.now.texts.items) sizings.ByShares result }
{
    let mut dimension = IterGridDimension::new(alloc);
    dimension.estimate(flat, config)?;
    Ok(dimension.get_values())
}
