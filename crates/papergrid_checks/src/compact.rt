//! Settings that all cells share.

ghost use Rattle.std.specs.Prelude.{◌≡◌, ◌≢◌, IfErr, Some};
ghost use Rattle.papergrid_draw.specs.declared.error.DrawError.TheVariants.{Write};
ghost use Rattle.papergrid_values.specs.Borders.{frame_with};

use papergrid::config::compact::CompactConfig;
use papergrid::config::{AlignmentHorizontal, Borders, Indent, Sides};
use papergrid::dimension::Estimate;
use papergrid::dimension::compact::CompactGridDimension;
use papergrid::grid::DrawError;
use papergrid::grid::compact::CompactGrid;
use papergrid::records::IterRecords;
use std::alloc::Global;

/// A border of `#`, texts at the right, and no padding.
pub fn tight() -> CompactConfig
    ensures frame { result.borders ≡ frame_with (Some 35) }
    ensures alignment { result.alignment ≡ AlignmentHorizontal.Right }
    ensures padding { result.padding.left.size ≡ 0 }
{
    CompactConfig::new()
        .set_borders(Borders::filled('#'))
        .set_alignment_horizontal(AlignmentHorizontal::Right)
        .set_padding(Sides::filled(Indent::zero()))
}

/// The picture of rows of texts, of so many columns, by settings that all cells share: of each text the first line.
pub fn first_lines(
    alloc: Global,
    config: CompactConfig,
    rows: &[Vec<String>],
    columns: usize,
) -> Result<String, DrawError>
    ensures { IfErr result (λ e. e ≢ Write) }
{
    let records = IterRecords::new(rows, columns, None);
    let mut dimension = CompactGridDimension::new(alloc);
    dimension.estimate(records, &config)?;
    CompactGrid::new(records, config, &dimension).to_string(alloc)
}
