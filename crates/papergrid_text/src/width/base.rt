//! What may stand before U+FE0F or a skin tone in one emoji. Those that do so most are told by ranges, and all
//! others are looked up.

ghost use Rattle.std.specs.Prelude.{◌≡◌};
ghost use Rattle.ucd_emoji.specs.Binary.{is_emoji_modifier_base, is_emoji_variation_base};
ghost use Rattle.papergrid_text.specs.ForProofs.Parts.{is_common_selected, is_common_toned};

use ucd_emoji::{is_emoji_modifier_base, is_emoji_variation_base};

/// Whether U+FE0F makes an emoji of the character.
pub fn is_selected_base(c: char) -> bool
    ensures { result ≡ is_emoji_variation_base c }
{
    is_common_selected(c) || is_emoji_variation_base(c)
}

/// Whether a skin tone joins the character.
pub fn is_toned_base(c: char) -> bool
    ensures { result ≡ is_emoji_modifier_base c }
{
    is_common_toned(c) || is_emoji_modifier_base(c)
}

// Digits, the sun to the comet, and hearts.
fn is_common_selected(c: char) -> bool
    ensures { result ≡ is_common_selected c }
{
    matches!(c, '0'..='9' | '\u{2600}'..='\u{2604}' | '\u{2763}'..='\u{2764}')
}

// Hands, and people.
fn is_common_toned(c: char) -> bool
    ensures { result ≡ is_common_toned c }
{
    matches!(c, '\u{1F446}'..='\u{1F450}' | '\u{1F466}'..='\u{1F478}')
}
