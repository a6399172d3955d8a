//! How wide and how high a table is, by the sizes of any dimension.

ghost use Rattle.std.specs.Prelude.{};
ghost use Rattle.papergrid_values.specs.declared.direction.Direction.TheVariants.{Columns, Rows};
ghost use Rattle.papergrid_config.specs.Grids.{spanned_grid};
ghost use Rattle.papergrid_layout.specs.Places.{IsTotalOf, size_along, total};
ghost use Rattle.papergrid_layout.specs.Tables.{HasSizes, has_along};

use crate::dimension::Dimension;
use crate::ruler::Ruler;
use papergrid_config::SpannedConfig;
use papergrid_maps::ConfigView;
use papergrid_tracks::LayoutError;
use papergrid_values::Direction;

/// The total along a direction, of so many tracks.
fn total_along<D: Dimension, S: ConfigView>(
    dimension: &D,
    settings: &S,
    direction: Direction,
    count: usize,
) -> Result<usize, LayoutError>
    requires { HasSizes (has_along (D.has_column dimension.now) (D.has_row dimension.now)
        direction) count }
    ensures { let size = size_along (D.width_of dimension.now)
        (D.height_of dimension.now) direction in
        IsTotalOf (total size ((S.grid settings.now).draws direction count) count) result }
{
    let ruler = Ruler {
        dimension,
        settings,
        direction,
        count,
    };
    ruler.total().ok_or(LayoutError::TooLarge)
}

/// The width of a table of so many columns, in columns of a terminal: the sum of the widths and of
/// the vertical lines. It does not allocate.
///
/// Condition: the dimension has a width for each of the columns.
///
/// # Errors
///
/// `TooLarge` where that comes to more than the greatest `usize`, and no other one.
pub fn total_width<D: Dimension>(
    dimension: &D,
    config: &SpannedConfig,
    columns: usize,
) -> Result<usize, LayoutError>
    requires { HasSizes (D.has_column dimension.now) columns }
    ensures { IsTotalOf (total (D.width_of dimension.now)
        ((spanned_grid config.now).draws Columns columns) columns) result }
{
    total_along(dimension, config, Direction::Columns, columns)
}

/// The height of a table of so many rows, in lines: the sum of the heights and of the horizontal
/// lines. It does not allocate.
///
/// Condition: the dimension has a height for each of the rows.
///
/// # Errors
///
/// `TooLarge` where that comes to more than the greatest `usize`, and no other one.
pub fn total_height<D: Dimension>(
    dimension: &D,
    config: &SpannedConfig,
    rows: usize,
) -> Result<usize, LayoutError>
    requires { HasSizes (D.has_row dimension.now) rows }
    ensures { IsTotalOf (total (D.height_of dimension.now)
        ((spanned_grid config.now).draws Rows rows) rows) result }
{
    total_along(dimension, config, Direction::Rows, rows)
}
