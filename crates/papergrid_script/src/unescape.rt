//! The text of a cell as a script spells it.

ghost use Rattle.std.specs.Prelude.{◌≡◌, ◌++◌, ◌∷◌, IfOk, IfSome, IsUtf8, option_map};
ghost use Rattle.papergrid_script.specs.Texts.{backslash, unescaped};
ghost use Rattle.papergrid_script.specs.ForProofs.Escapes.{IsFirstEscape, escape_at};

use crate::cut::{split_around, split_at_byte};
use bumpalo::Bump;
use bumpalo::collections::into_bump_str;
use std::alloc::AllocError;

/// The text that is meant, where a backslash begins an escape: the same where there is none, else one in the
/// arena. The first backslash stands at `escape`, or there is none before the end.
pub fn unescaped<'a>(
    texts: &'a Bump,
    spelled: &'a str,
    escape: usize,
) -> Result<Option<&'a str>, AllocError>
    requires { IsFirstEscape spelled.now escape }
    ensures { IfOk result (λ found. option_map (λ text. text.now) found ≡ unescaped spelled.now) }
{
    if spelled.len() <= escape {
        return Ok(Some(spelled));
    }
    let (plain, escape) = split_around(spelled, escape);
    with_escapes(texts, plain, escape)
}

/// The text that is meant, in the arena: by plain text, and what stands after a first backslash.
fn with_escapes<'a>(
    texts: &'a Bump,
    plain: &str,
    escape: &str,
) -> Result<Option<&'a str>, AllocError>
    ensures { IfOk result (λ found. option_map (λ text. text.now) found
        ≡ option_map (λ more. plain.now ++ more) (unescaped (backslash ∷ escape.now))) }
{
    let mut text = String::with_capacity(texts, plain.len() + escape.len())?;
    text.push_str(plain)?;
    let mut after = escape;
    while let Some((meant, left)) = escaped(after) {
        text.push(meant)?;
        match split_at_byte(left, b'\\') {
            None => {
                text.push_str(left)?;
                return Ok(Some(into_bump_str(text)));
            }
            Some((plain, escape)) => {
                text.push_str(plain)?;
                after = escape;
            }
        }
    }
    Ok(None)
}

/// The character that an escape means, by what stands after its backslash, and what is left behind it.
fn escaped(after: &str) -> Option<(char, &str)>
    ensures text { IfSome result (λ escape. IsUtf8 escape.1.now) }
    ensures escape { option_map (λ escape. (escape.0, escape.1.now)) result ≡ escape_at after.now }
{
    if let Some(left) = after.strip_prefix("n") {
        return Some(('\n', left));
    }
    if let Some(left) = after.strip_prefix("t") {
        return Some(('\t', left));
    }
    if let Some(left) = after.strip_prefix("\\") {
        return Some(('\\', left));
    }
    None
}
