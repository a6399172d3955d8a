//! The width of a text of emoji, read from its end.

ghost use Rattle.std.specs.Prelude.{◌≡◌, ◌≤◌, chars, false, IfSome};
ghost use Rattle.unicode_width.specs.Width.{str_width};
ghost use Rattle.papergrid_text.specs.ForProofs.Emoji.{IsStep};

use crate::width::base::{is_selected_base, is_toned_base};
use crate::width::part::{After, add_before, part_of};
use crate::width::printable::without_printable_end;

/// The width of a text of emoji and printable ASCII, or `None` where it may have something else.
pub fn emoji_width(text: &str) -> Option<usize>
    ensures { IfSome result (λ width. width ≡ str_width false (chars text.now)) }
{
    let mut width = 0usize;
    let mut after = After::Other;
    let mut rest = text.chars();
    while let Some(c) = rest.next_back() {
        let (own, begins) = step_back(c, after)?;
        width += own;
        after = begins;
        if after == After::Other {
            let left = rest.as_str();
            let front = without_printable_end(left);
            width += left.len() - front.len();
            rest = front.chars();
        }
    }
    Some(width)
}

// The width that the character adds to what stands after it, and what both begin with.
fn step_back(c: char, after: After) -> Option<(usize, After)>
    ensures step { IfSome result (λ added. IsStep c after added) }
    ensures bound { IfSome result (λ added. added.0 ≤ 2) }
{
    match after {
        After::Selector if is_selected_base(c) => Some((2, After::Emoji)),
        After::Modifier if is_toned_base(c) => Some((0, After::Emoji)),
        _ => add_before(part_of(c)?, after),
    }
}
