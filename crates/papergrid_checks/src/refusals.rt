//! Refusals, told apart.

ghost use Rattle.std.specs.Prelude.{◌≡◌, ◌↔◌, IsTrue, Some};
ghost use Rattle.papergrid_tracks.specs.declared.error.LayoutError.TheVariants.{OutOfTable};
ghost use Rattle.papergrid_layout.specs.declared.rect.PlaceError.TheVariants.{Hidden};
ghost use Rattle.papergrid_values.specs.declared.position.Position.{Position};

use papergrid::config::Position;
use papergrid::dimension::{LayoutError, Place, PlaceError};

/// The cell that ends past the last column or row, if that is why.
pub fn out_of_table(refused: LayoutError) -> Option<Position>
    ensures { (position : Position) → (result ≡ Some position) ↔ (refused ≡ OutOfTable position) }
{
    match refused {
        LayoutError::OutOfTable(position) => Some(position),
        _ => None,
    }
}

/// Whether there is no place since another cell spans over the position.
pub fn is_hidden(answer: Result<Place, PlaceError>) -> bool
    ensures { IsTrue result ↔ (answer ≡ Err Hidden) }
{
    answer == Err(PlaceError::Hidden)
}
