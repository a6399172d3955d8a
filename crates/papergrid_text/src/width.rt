//! How many columns of a terminal a text takes, as `unicode_width` counts them.
//!
//! A text of printable ASCII is as wide as it is long, and in a text of simple characters each has one column or
//! two, or none as marks do, and an Arabic lam has one with the alef after it. The width of a text of emoji is
//! found by the few rules that such a text needs. Every other text is measured by `unicode_width`, a long one
//! without its runs of printable ASCII.
ghost use Rattle.std.specs.Prelude.{◌≡◌, ◌+◌, chars, false, get_or};
ghost use Rattle.unicode_width.specs.Width.{str_width};
ghost use Rattle.papergrid_text.specs.ForProofs.Parts.{is_emoji_lead};

mod base;
mod emoji;
mod part;
pub mod printable;
mod runs;
mod simple;

use emoji::emoji_width;
pub use printable::{count_printable, is_printable};
use runs::width_by_runs;
use simple::{long_simple_width, width_by_simple};
use unicode_width::UnicodeWidthStr;

// Texts of so many bytes are long.
const LONG: usize = 32;

/// How many columns of a terminal the text takes. A control character takes one, and so does a carriage
/// return with the newline after it.
pub fn width(text: &str) -> usize
    ensures { result ≡ str_width false (chars text.now) }
{
    let printable = count_printable(text);
    if printable == text.len() {
        return printable;
    }
    width_by_characters(text, printable)
}

/// The same, where it is known from which byte on the text is more than printable ASCII. Any other place
/// gives the same width, and may take longer.
pub fn width_by_characters(text: &str, from: usize) -> usize
    ensures { result ≡ str_width false (chars text.now) }
{
    if may_be_emoji(text, from) {
        return width_of_emoji(text);
    }
    // A tab stands among printable ASCII, most often.
    if LONG <= text.len() || text.as_bytes().get(from) == Some(&b'\t') {
        return width_of_long(text);
    }
    width_by_simple(text, from)
}

// The same, where most of the text may be emoji.
fn width_of_emoji(text: &str) -> usize
    ensures { result ≡ str_width false (chars text.now) }
{
    match emoji_width(text) {
        Some(width) => width,
        None => text.width(),
    }
}

// The same of a long text. Where it is not simple, its runs of ASCII are passed at least, which does not pay in a
// short one.
#[inline(never)]
fn width_of_long(text: &str) -> usize
    ensures { result ≡ str_width false (chars text.now) }
{
    match long_simple_width(text) {
        Some(width) => width,
        None => width_by_runs(text),
    }
}

// Whether the character there is from U+2600 to U+27BF, U+FE00 to U+FE3F or U+1F000 to U+1FFFF: most emoji
// are, and no letters.
fn may_be_emoji(text: &str, from: usize) -> bool
    ensures { result ≡ is_emoji_lead (get_or text.now from 0) (get_or text.now (from + 1) 0) }
{
    let bytes = text.as_bytes();
    if bytes.len() <= from {
        return false;
    }
    match &bytes[from..] {
        [0xF0, 0x9F, ..] | [0xEF, 0xB8, ..] | [0xE2, 0x98..=0x9E, ..] => true,
        _ => false,
    }
}
