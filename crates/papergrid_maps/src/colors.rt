//! The colours that a map has for positions.

ghost use Rattle.papergrid_maps.specs.StoredMap.{stored_value};

use crate::EntityMap;
use papergrid_values::{ANSIFmt, Colors, Position};

// It is empty where the colour of the whole table is unset and nothing else is stored.
impl<C: ANSIFmt> Colors for EntityMap<Option<C>> {
    ghost use Rattle.papergrid_maps.specs.StoredColors.{IsBlank};
    ghost use Rattle.papergrid_maps.specs.ForProofs.BlankColors.{blank_value};

    type Color = C;

    ghost color_at = { stored_value };

    ghost is_blank = { IsBlank };

    ghost blank_has_none = { blank_value };

    fn get_color(&self, position: Position) -> Option<&C> {
        self.get(position).as_ref()
    }

    fn is_empty(&self) -> bool {
        self.is_empty() && self.as_ref().is_none()
    }
}
