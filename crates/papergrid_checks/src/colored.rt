//! Colours of cells, and texts with their colour.

ghost use Rattle.std.specs.Prelude.{◌≡◌, ◌++◌, IfOk, OnOk, Some, codes, string_bytes, ℕ};
ghost use Rattle.papergrid_maps.specs.StoredMap.{stored_value};

use papergrid::ansi::{ANSIBuf, ANSIFmt};
use papergrid::config::Entity;
use papergrid::config::spanned::EntityMap;
use std::alloc::{AllocError, Global};
use std::fmt;
use std::fmt::Write;

/// Bold texts in the first row, and plain ones in all others.
pub fn bold_head(alloc: Global) -> Result<EntityMap<Option<ANSIBuf>>, AllocError>
    ensures { IfOk result (λ colors. (col : ℕ) →
        stored_value colors (record { row = 0; col = col })
        ≡ Some (codes "\u{1b}[1m", codes "\u{1b}[0m")) }
{
    let bold = ANSIBuf::new(alloc, "\u{1b}[1m", "\u{1b}[0m")?;
    let mut colors = EntityMap::new(alloc, None);
    colors.insert(Entity::Row(0), Some(bold))?;
    Ok(colors)
}

/// Appends a text with its colour round it.
pub fn paint(out: &mut String, color: &ANSIBuf, text: &str) -> fmt::Result
    ensures { OnOk result
        (string_bytes out.new ≡ string_bytes out.old ++ color.now.0 ++ text.now ++ color.now.1) }
{
    color.fmt_ansi_prefix(out)?;
    out.write_str(text)?;
    color.fmt_ansi_suffix(out)
}
