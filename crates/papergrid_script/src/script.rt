//! A whole script: its column count, its settings and its rows.

ghost use Rattle.std.specs.Prelude.{◌≡◌, ◌<◌, All, IfOk, true, length, take};
ghost use Rattle.std.specs.Str.{IsValidUpTo};
ghost use Rattle.papergrid_config.specs.Applied.{is_in_range};
ghost use Rattle.papergrid_script.specs.declared.script.ScriptError.TheVariants.{Memory};
ghost use Rattle.papergrid_script.specs.ForProofs.Read.{table_of, without_cr};
ghost use Rattle.papergrid_script.specs.Scripts.{IsScript};
ghost use Rattle.papergrid_script.specs.Seen.{GivesScript};
ghost use Rattle.papergrid_script.specs.Settings.{setting_told};

use crate::cut::cut_marked_line;
use crate::draft::Draft;
use crate::script_line::take_line;
use crate::script_setting::ScriptSetting;
use bumpalo::Bump;
use papergrid_text::string::count_lines;
use simdutf8::compat::from_utf8;
use std::alloc::{AllocError, Global};

/// What a script says. Texts are lent from the input, those with escapes and the rows from the arena.
#[derive(Drop)]
pub struct Script<'a> {
    /// The number of columns.
    pub columns: usize,
    /// The settings, oldest first.
    pub settings: Vec<ScriptSetting>,
    /// The texts of the cells of each row.
    pub rows: Vec<&'a [&'a str]>,
}

/// Why there is no script.
#[derive(Debug, Drop)]
pub enum ScriptError {
    /// Memory was refused.
    Memory,
    /// The first bad line, counted from 1.
    Bad(usize),
}

impl From<AllocError> for ScriptError {
    ghost from_gives = { λ _ e. e ≡ Memory };

    fn from(_error: AllocError) -> ScriptError {
        ScriptError::Memory
    }
}

/// The script that the input spells. Texts with escapes, and the rows, are kept in the arena.
pub fn read_script<'a>(
    alloc: Global,
    arena: &'a Bump,
    input: &'a [u8],
) -> Result<Script<'a>, ScriptError>
    ensures script { GivesScript result (IsScript input.now) }
    ensures in_range { IfOk result (λ script.
        All (λ setting. is_in_range (setting_told setting) ≡ true) script.settings.items) }
{
    let text = text_in_front(input);
    let read = script_of_text(alloc, arena, text);
    if text.len() < input.len() && read.is_ok() {
        // The line where the text ends goes on with what is no text.
        return Err(ScriptError::Bad(count_lines(text)));
    }
    read
}

/// The longest front that is text.
fn text_in_front(input: &[u8]) -> &str
    ensures front { result.now ≡ take (length result.now) input.now }
    ensures longest { length result.now < length input.now →
        IsValidUpTo input.now (length result.now) }
{
    match from_utf8(input) {
        Ok(text) => text,
        Err(error) => from_utf8(&input[..error.valid_up_to()]).unwrap(),
    }
}

/// The script that the text spells.
fn script_of_text<'a>(
    alloc: Global,
    arena: &'a Bump,
    input: &'a str,
) -> Result<Script<'a>, ScriptError>
    ensures { GivesScript result (λ script. table_of input.now ≡ script) }
{
    let mut draft = Draft::new(alloc, arena);
    let mut number: usize = 0;
    let mut rest = Some(input);
    while let Some(text) = rest {
        let (line, escape, after) = cut_marked_line(text, b'\\');
        number += 1;
        if !take_line(&mut draft, without_cr(line), escape)? {
            return Err(ScriptError::Bad(number));
        }
        rest = after;
    }
    Ok(draft.finish()?)
}

/// The line without one CR at its end.
fn without_cr(line: &str) -> &str
    ensures { result.now ≡ without_cr line.now }
{
    if line.as_bytes().last() == Some(&b'\r') {
        &line[..line.len() - 1]
    } else {
        line
    }
}
