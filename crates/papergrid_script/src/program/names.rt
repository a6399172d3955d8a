//! The names that messages speak of.

use std::alloc::{AllocError, Global};
use strsim::levenshtein;

/// What messages call the input where no file is named.
pub const STANDARD_INPUT: &str = "standard input";

/// The bytes of two letters, at most.
const TWO_LETTERS: usize = 8;

/// A name as messages have it: as it is, or in quotes where a terminal would act on some of it or it has no byte.
pub fn shown(alloc: Global, name: &str) -> Result<String, AllocError> {
    let quoted = format!(in alloc; "{name:?}")?;
    // What is spelled otherwise is longer, so that nothing is where only the quotes were added.
    if quoted.len() == name.len().saturating_add(2) && !name.is_empty() {
        return String::from_str(alloc, name);
    }
    Ok(quoted)
}

/// How many characters of a text are quoted.
const QUOTED: usize = 60;

/// A text in quotes, or its beginning with two points behind it.
pub fn quoted(alloc: Global, text: &str) -> Result<String, AllocError> {
    match text.char_indices().nth(QUOTED) {
        None => format!(in alloc; "{text:?}"),
        Some((end, _)) => {
            let start = text.get(..end).unwrap_or(text);
            format!(in alloc; "{start:?}..")
        }
    }
}

/// The first of the names that are most like the word, if two letters at most differ and not all of them. A word that is
/// too long for that is not compared, since a comparison goes over all of it for each letter of the name.
pub fn name_like<'n>(
    alloc: Global,
    word: &str,
    names: &[&'n str],
) -> Result<Option<&'n str>, AllocError> {
    let mut nearest = None;
    let mut least = word.len().min(3);
    for name in names {
        if word.len() > name.len().saturating_add(TWO_LETTERS)
            || name.len() > word.len().saturating_add(TWO_LETTERS)
        {
            continue;
        }
        let distance = levenshtein(alloc, word, name)?;
        if distance < least {
            least = distance;
            nearest = Some(*name);
        }
    }
    Ok(nearest)
}

/// What is said of an option that is none of these.
pub fn not_an_option(alloc: Global, word: &str, names: &[&str]) -> Result<String, AllocError> {
    let written = shown(alloc, word)?;
    match name_like(alloc, word, names)? {
        Some(name) => format!(in alloc; "{written}: not an option; did you mean {name}?"),
        None => format!(in alloc; "{written}: not an option; --help tells all"),
    }
}
