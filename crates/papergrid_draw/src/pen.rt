//! What is added to a line: characters, texts, and their colours.

ghost use Rattle.std.specs.Prelude.{◌≡◌, ◌++◌, OnOk, option_copied, option_map, replicate, string_bytes};
ghost use Rattle.papergrid_values.specs.Colors.{texts_of};
ghost use Rattle.papergrid_draw.specs.Bytes.{colored, prefix_of, suffix_of};
ghost use Rattle.papergrid_draw.specs.Pieces.{fill_text};
ghost use Rattle.papergrid_draw.specs.ForProofs.Pens.{fill_bytes};

use papergrid_values::{ANSIBuf, ANSIStr};
use std::alloc::AllocError;

/// Blanks, of which some are added at a time.
fn blanks() -> &'static str
    ensures { result.now ≡ replicate 64 32 }
{
    "                                                                "
}

/// Adds so many blanks.
pub fn push_blanks(line: &mut String, count: usize) -> Result<(), AllocError>
    ensures { OnOk result (string_bytes line.new
        ≡ string_bytes line.old ++ replicate count 32) }
{
    let blanks = blanks();
    let mut left = count;
    while left > 64 {
        line.push_str(blanks)?;
        left -= 64;
    }
    line.push_str(&blanks[..left])?;
    Ok(())
}

/// Adds a character so many times.
pub fn push_fill(line: &mut String, character: char, count: usize) -> Result<(), AllocError>
    ensures { OnOk result (string_bytes line.new
        ≡ string_bytes line.old ++ fill_text character count) }
{
    if character == ' ' {
        return push_blanks(line, count);
    }
    for _ in 0..count {
        line.push(character)?;
    }
    Ok(())
}

/// Adds what begins a colour.
pub fn push_prefix(line: &mut String, color: Option<&ANSIBuf>) -> Result<(), AllocError>
    ensures { OnOk result (string_bytes line.new
        ≡ string_bytes line.old ++ prefix_of (option_copied color.entry)) }
{
    match color {
        None => Ok(()),
        Some(color) => line.push_str(color.get_prefix()),
    }
}

/// Adds what ends a colour.
pub fn push_suffix(line: &mut String, color: Option<&ANSIBuf>) -> Result<(), AllocError>
    ensures { OnOk result (string_bytes line.new
        ≡ string_bytes line.old ++ suffix_of (option_copied color.entry)) }
{
    match color {
        None => Ok(()),
        Some(color) => line.push_str(color.get_suffix()),
    }
}

/// Adds a text in a colour.
pub fn push_colored(
    line: &mut String,
    color: Option<ANSIStr<'_>>,
    text: &str,
) -> Result<(), AllocError>
    ensures { OnOk result (string_bytes line.new
        ≡ string_bytes line.old ++ colored (option_map texts_of color.entry) text.now) }
{
    let Some(color) = color else {
        return line.push_str(text);
    };
    line.push_str(color.get_prefix())?;
    line.push_str(text)?;
    line.push_str(color.get_suffix())
}

/// Adds a character so many times in a colour; nothing, no colour either, where it is no times.
pub fn push_colored_fill(
    line: &mut String,
    color: Option<&ANSIBuf>,
    character: char,
    count: usize,
) -> Result<(), AllocError>
    ensures { OnOk result (string_bytes line.new
        ≡ string_bytes line.old ++ fill_bytes (option_copied color.entry) character count) }
{
    if count == 0 {
        return Ok(());
    }
    push_prefix(line, color)?;
    push_fill(line, character, count)?;
    push_suffix(line, color)
}
