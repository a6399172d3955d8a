//! What is read of a configuration by entity, cell by cell and line by line.

ghost use Rattle.std.specs.Prelude.{option_map};
ghost use Rattle.papergrid_maps.specs.StoredMap.{held_for};
ghost use Rattle.papergrid_maps.specs.Paddings.{sizes};
ghost use Rattle.papergrid_maps.specs.ForProofs.PaddingLaws.{stored_decides};
ghost use Rattle.papergrid_config.specs.Grids.{spanned_grid};

use crate::spanned::SpannedConfig;
use papergrid_maps::view::{size_after, size_before, sizes};
use papergrid_maps::{Anchor, ConfigView, Paddings};
use papergrid_values::{Direction, Entity, Position};
use std::alloc::{AllocError, Global};

impl ConfigView for SpannedConfig {
    ghost grid = { spanned_grid };

    // Each visible position is looked for in all spans.
    fn is_visible(&self, position: Position) -> bool {
        self.is_cell_visible(position)
    }

    // Each span is looked at once.
    fn are_visible(&self, direction: Direction, positions: &[Position]) -> bool {
        self.are_cells_visible(direction, positions)
    }

    fn anchors(&self, _alloc: Global) -> Result<Vec<Anchor>, AllocError> {
        self.anchors()
    }

    fn span(&self, direction: Direction, position: Position) -> usize {
        let stored = match direction {
            Direction::Columns => self.get_column_span(position),
            Direction::Rows => self.get_row_span(position),
        };
        match stored {
            Some(span) => span,
            None => 1,
        }
    }

    // Each span that is stored is looked at once.
    fn spans_end_within(&self, direction: Direction, count: usize) -> bool {
        self.spans_end_within(direction, count)
    }

    fn padding_before(&self, direction: Direction, position: Position) -> usize {
        size_before(direction, self.get_padding(position))
    }

    fn padding_after(&self, direction: Direction, position: Position) -> usize {
        size_after(direction, self.get_padding(position))
    }

    ghost set_for = { λ s entity. option_map sizes (held_for s.padding entity) };

    ghost effective = { λ s. stored_decides s.padding };

    // Each walk over cells with paddings asks it for each of its cells.
    #[inline(always)]
    fn paddings_for(&self, entity: Entity) -> Option<Paddings> {
        self.held_padding(entity).map(sizes)
    }

    fn padded_cells(&self, _alloc: Global) -> Result<Vec<Position>, AllocError> {
        self.padded_cells()
    }

    fn common_paddings(&self) -> Option<Paddings> {
        if self.has_padding() {
            return None;
        }
        Some(sizes(self.get_padding(Position { row: 0, col: 0 })))
    }

    fn has_line(&self, direction: Direction, count: usize, i: usize) -> bool {
        match direction {
            Direction::Columns => self.has_vertical(i, count),
            Direction::Rows => self.has_horizontal(i, count),
        }
    }
}
