//! The characters that texts of emoji are made of.

ghost use Rattle.std.specs.Prelude.{◌≡◌};
ghost use Rattle.papergrid_text.specs.ForProofs.Parts.{part_of, add_before, add_apart};

/// What a character is in a text of emoji.
#[derive(Clone, Copy, PartialEq, Eq)]
pub enum Part {
    /// Printable ASCII.
    Printable,
    /// A pictograph that is an emoji by itself.
    Pictograph,
    /// One of the two halves of a flag.
    Indicator,
    /// A skin tone.
    Modifier,
    /// U+200D, which makes one emoji of two.
    Joiner,
    /// U+FE0F, which asks for the emoji of a character.
    Selector,
    /// U+20E3, the frame of a key.
    Keycap,
}

/// What a text begins with that stands after a character, as far as the width of both depends on it.
#[derive(Clone, Copy, PartialEq, Eq)]
pub enum After {
    /// Nothing that it depends on.
    Other,
    Emoji,
    Modifier,
    Selector,
    /// A joiner and an emoji.
    Joiner,
    /// One indicator.
    Indicator,
    /// Two or more indicators.
    Indicators,
}

/// What the character is, or `None` where it is none of these. Of the pictographs the long ranges are told.
pub fn part_of(c: char) -> Option<Part>
    ensures { result ≡ part_of c }
{
    match c {
        ' '..='~' => Some(Part::Printable),
        '\u{1F337}'..='\u{1F37C}' | '\u{1F400}'..='\u{1F43E}' | '\u{1F442}'..='\u{1F4FC}' => {
            Some(Part::Pictograph)
        }
        '\u{1F5FB}'..='\u{1F64F}' | '\u{1F680}'..='\u{1F6C5}' => Some(Part::Pictograph),
        '\u{1F90C}'..='\u{1F93A}' | '\u{1F947}'..='\u{1F9FF}' => Some(Part::Pictograph),
        '\u{1F1E6}'..='\u{1F1FF}' => Some(Part::Indicator),
        '\u{1F3FB}'..='\u{1F3FF}' => Some(Part::Modifier),
        '\u{200D}' => Some(Part::Joiner),
        '\u{FE0F}' => Some(Part::Selector),
        '\u{20E3}' => Some(Part::Keycap),
        _ => None,
    }
}

/// The width that a part adds to what stands after it, and what both begin with. `None` where a rule
/// holds that is left to `unicode_width`.
pub fn add_before(part: Part, after: After) -> Option<(usize, After)>
    ensures { result ≡ add_before part after }
{
    match (after, part) {
        (After::Joiner, Part::Pictograph) => Some((0, After::Emoji)),
        (After::Joiner, Part::Modifier) => Some((0, After::Modifier)),
        (After::Joiner, Part::Indicator | Part::Selector | Part::Keycap) => None,
        (After::Emoji | After::Modifier | After::Indicators, Part::Joiner) => {
            Some((0, After::Joiner))
        }
        (After::Indicator | After::Indicators, Part::Indicator) => Some((1, After::Indicators)),
        _ => Some(add_apart(part)),
    }
}

// The same of a part that joins nothing.
fn add_apart(part: Part) -> (usize, After)
    ensures { result ≡ add_apart part }
{
    match part {
        Part::Printable => (1, After::Other),
        Part::Pictograph => (2, After::Emoji),
        Part::Indicator => (1, After::Indicator),
        Part::Modifier => (2, After::Modifier),
        Part::Joiner | Part::Keycap => (0, After::Other),
        Part::Selector => (0, After::Selector),
    }
}
