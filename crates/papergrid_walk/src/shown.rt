//! Which cells are visible and how many columns and rows they span, asked by row and then by column.

ghost use Rattle.std.specs.Prelude.{◌≡◌, ◌+◌, ◌-◌, ◌<◌, ◌^◌, IfOk, None, Some, if◌then◌else◌};
ghost use Rattle.papergrid_values.specs.declared.position.Position.{Position};
ghost use Rattle.papergrid_walk.specs.ForProofs.Swept.{IsAhead};
ghost use Rattle.papergrid_maps.specs.Grids.{Grid};
ghost use Rattle.papergrid_walk.specs.ForProofs.Shown.{Shows, anchor_in};

use crate::Sweep;
use papergrid_maps::{Anchor, ConfigView};
use papergrid_values::Position;
use std::alloc::{AllocError, Global};

/// A walk at its start, by the spans of the settings. It is made for no column: `visible_anchor` makes
/// room for those that it meets.
pub fn sweep_of<S: ConfigView>(alloc: Global, settings: &S) -> Result<Sweep, AllocError>
    ensures { IfOk result (λ walk. Shows (S.grid settings.now) walk 0 0) }
{
    let anchors = settings.anchors(alloc)?;
    Sweep::new(alloc, anchors, 0)
}

/// The position with its spans, where it is visible. Each position stands behind the one that was asked
/// for before it. Where there are no spans this takes no time and no memory.
// Each walk asks it for each of its cells.
#[inline(always)]
pub fn visible_anchor(
    walk: &mut Sweep,
    alloc: Global,
    position: Position,
) -> Result<Option<Anchor>, AllocError>
    requires asked { (grid : Grid) × Shows grid walk.old position.row position.col }
    requires row_in { position.row < 2 ^ 64 - 1 }
    requires col_in { position.col < 2 ^ 64 - 1 }
    ensures visible { IfOk result (λ found. (grid : Grid) →
        Shows grid walk.old position.row position.col →
        found ≡ (if grid.shows position then Some (anchor_in grid position) else None)) }
    ensures later { IfOk result (λ _. (grid : Grid) →
        Shows grid walk.old position.row position.col →
        Shows grid walk.new position.row (position.col + 1)) }
{
    if walk.anchors().is_empty() {
        return Ok(Some(Anchor {
            position,
            rows: 1,
            cols: 1,
        }));
    }
    make_room(walk, alloc, position.col)?;
    if walk.is_hidden(position) {
        return Ok(None);
    }
    Ok(Some(walk.anchor_at(position)))
}

/// Makes room for a column. The room doubles at least, so that rows which grow longer and longer are
/// walked over few times.
fn make_room(walk: &mut Sweep, alloc: Global, column: usize) -> Result<(), AllocError>
    requires { column < 2 ^ 64 - 1 }
    ensures room { IfOk result (λ _. column < walk.new.columns) }
    ensures anchors { IfOk result (λ _. walk.new.anchors ≡ walk.old.anchors) }
    ensures asked { IfOk result (λ _. (p : Position) → IsAhead walk.old p → IsAhead walk.new p) }
{
    if column < walk.columns() {
        return Ok(());
    }
    walk.restart(alloc, (column + 1).saturating_mul(2))
}
