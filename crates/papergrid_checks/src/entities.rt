//! Values of one's own by entity.

ghost use Rattle.std.specs.Prelude.{◌≡◌, IfOk, ℕ};
ghost use Rattle.papergrid_maps.specs.StoredMap.{stored_value};

use papergrid::config::Entity;
use papergrid::config::spanned::EntityMap;
use std::alloc::{AllocError, Global};

/// A mark for each cell: `x` in the second column, and a blank elsewhere.
pub fn marks(alloc: Global) -> Result<EntityMap<char>, AllocError>
    ensures marked { IfOk result (λ marks. (row : ℕ) →
        stored_value marks (record { row = row; col = 1 }) ≡ 120) }
    ensures blank { IfOk result (λ marks. (row : ℕ) →
        stored_value marks (record { row = row; col = 0 }) ≡ 32) }
{
    let mut marks = EntityMap::new(alloc, ' ');
    marks.insert(Entity::Column(1), 'x')?;
    Ok(marks)
}
