//! The lines of a script, one at a time.

ghost use Rattle.std.specs.Prelude.{◌≢◌, IfOk, codes, option_map};
ghost use Rattle.papergrid_script.specs.Grammar.{keyword_says, keyword_setting, text_says};
ghost use Rattle.papergrid_script.specs.Spelling.{Cell, Set};
ghost use Rattle.papergrid_script.specs.ForProofs.Drafts.{Takes};
ghost use Rattle.papergrid_script.specs.Texts.{unescaped};
ghost use Rattle.papergrid_script.specs.ForProofs.Escapes.{IsFirstEscape};

use crate::cut::split_at_byte;
use crate::draft::Draft;
use crate::number::number;
use crate::setting_line::line_setting;
use crate::unescape::unescaped;
use std::alloc::AllocError;

/// Takes what one more line, which is text, says into the draft; false, and the draft as it was, where the line
/// is a bad one. The first backslash of the line stands at `escape`, or there is none before its end.
#[tactic(auto, unfolding(crate::specs::Grammar::text_says))]
pub fn take_line<'a>(
    draft: &mut Draft<'a>,
    line: &'a str,
    escape: usize,
) -> Result<bool, AllocError>
    requires { IsFirstEscape line.now escape }
    ensures { IfOk result (λ fits. Takes draft.old (text_says line.now) fits draft.new) }
{
    // Most lines are cells.
    if let Some(spelled) = line.strip_prefix("cell ") {
        return take_cell(draft, spelled, escape - 5);
    }
    match line {
        "" => Ok(true),
        "row" => {
            draft.add_row()?;
            Ok(true)
        }
        "cell" => draft.add_cell(""),
        _ => match split_at_byte(line, b' ') {
            Some((keyword, rest)) => take_keyword(draft, keyword, rest),
            None => Ok(false),
        },
    }
}

/// Takes what a keyword says, and what stands after it and a space; false where that is nothing.
#[tactic(auto, unfolding(crate::specs::Grammar::keyword_says))]
fn take_keyword(draft: &mut Draft<'_>, keyword: &str, rest: &str) -> Result<bool, AllocError>
    requires no_cell { keyword.now ≢ codes "cell" }
    ensures { IfOk result (λ fits.
        Takes draft.old (keyword_says keyword.now rest.now) fits draft.new) }
{
    match keyword {
        "columns" => match number(rest) {
            Some(count) => {
                draft.columns = count;
                Ok(true)
            }
            None => Ok(false),
        },
        _ => take_setting(draft, keyword, rest),
    }
}

/// Takes a cell of the text that is meant; false where the spelling is bad, or there is no row.
fn take_cell<'a>(draft: &mut Draft<'a>, spelled: &'a str, escape: usize) -> Result<bool, AllocError>
    requires { IsFirstEscape spelled.now escape }
    ensures { IfOk result (λ fits.
        Takes draft.old (option_map Cell (unescaped spelled.now)) fits draft.new) }
{
    match unescaped(draft.arena, spelled, escape)? {
        Some(text) => draft.add_cell(text),
        None => Ok(false),
    }
}

/// Takes the setting of a keyword, and of what stands after it and a space; false where there is none.
fn take_setting(draft: &mut Draft<'_>, keyword: &str, rest: &str) -> Result<bool, AllocError>
    ensures { IfOk result (λ fits.
        Takes draft.old (option_map Set (keyword_setting keyword.now rest.now)) fits draft.new) }
{
    match line_setting(keyword, rest) {
        Some(setting) => {
            draft.settings.push(setting)?;
            Ok(true)
        }
        None => Ok(false),
    }
}
