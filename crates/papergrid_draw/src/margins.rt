//! The margins of a table: lines above and below it, and what stands beside its lines.

ghost use Rattle.std.specs.Prelude.{◌≡◌, ◌++◌, OnOk, option_copied, string_bytes};
ghost use Rattle.papergrid_draw.specs.Margins.{beside, is_beside, margin_line};

use crate::pen::{push_colored_fill, push_fill};
use papergrid_config::SpannedConfig;
use papergrid_values::{ANSIBuf, Indent, Offset};
use std::alloc::AllocError;

/// Adds a line of the margin above or below, of so many columns.
pub fn push_margin_line(
    line: &mut String,
    indent: &Indent,
    color: Option<&ANSIBuf>,
    offset: &Offset,
    columns: usize,
) -> Result<(), AllocError>
    ensures { OnOk result (string_bytes line.new ≡ string_bytes line.old
        ++ margin_line indent.now (option_copied color.entry) offset.now columns) }
{
    match *offset {
        Offset::Start(k) => {
            let blank = k.min(columns);
            push_fill(line, ' ', blank)?;
            push_colored_fill(line, color, indent.fill, columns - blank)
        }
        Offset::End(k) => {
            let blank = k.min(columns);
            push_colored_fill(line, color, indent.fill, columns - blank)?;
            push_fill(line, ' ', blank)
        }
    }
}

/// Whether the margin beside line y of so many has its character, or blanks.
fn is_beside(offset: &Offset, y: usize, lines: usize) -> bool
    ensures { result ≡ is_beside offset.now y lines }
{
    match *offset {
        Offset::Start(k) => k.min(lines) <= y,
        Offset::End(k) => y < lines - k.min(lines),
    }
}

/// Adds the margin left or right of line y of so many.
pub fn push_beside(
    line: &mut String,
    indent: &Indent,
    color: Option<&ANSIBuf>,
    offset: &Offset,
    lines: usize,
    y: usize,
) -> Result<(), AllocError>
    ensures { OnOk result (string_bytes line.new ≡ string_bytes line.old
        ++ beside indent.now (option_copied color.entry) offset.now lines y) }
{
    if is_beside(offset, y, lines) {
        push_colored_fill(line, color, indent.fill, indent.size)
    } else {
        push_fill(line, ' ', indent.size)
    }
}
