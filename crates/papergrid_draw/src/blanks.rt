//! Texts of one line that stand between blanks alone.

ghost use Rattle.std.specs.Prelude.{◌≡◌, ◌∷◌, ◌++◌, [], IfSome, None, OnOk, string_bytes};
ghost use Rattle.papergrid_draw.specs.Bytes.{pieces_bytes};
ghost use Rattle.papergrid_draw.specs.Contents as contents;
ghost use Rattle.papergrid_draw.specs.Contents.{content};
ghost use Rattle.papergrid_draw.specs.ForProofs.Blanks.{IsBetweenBlanks};
ghost use Rattle.papergrid_draw.specs.ForProofs.Looks.{look_seen};

use crate::block::free_before;
use crate::look::Look;
use crate::pen::push_blanks;
use papergrid_values::AlignmentHorizontal;
use std::alloc::AllocError;

/// How many blanks stand beside texts between paddings and justification of blanks without colours, of which no line is trimmed.
#[derive(Clone, Copy)]
pub struct Blanks {
    left: usize,
    right: usize,
}

impl Blanks {
    /// That of a look, if it fills with blanks alone, has no lines above a text, and trims nothing.
    pub fn of(look: &Look<'_>) -> Option<Blanks>
        ensures { IfSome result (IsBetweenBlanks (look_seen look.now)) }
    {
        let (padding, colors) = (look.padding, look.padding_color);
        if padding.left.fill != ' ' || padding.right.fill != ' ' || look.justification != ' ' {
            return None;
        }
        if colors.left.is_some() || colors.right.is_some() || look.justification_color.is_some() {
            return None;
        }
        let formatting = look.formatting;
        if padding.top.size != 0 || formatting.horizontal_trim || formatting.vertical_trim {
            return None;
        }
        Some(Blanks {
            left: padding.left.size,
            right: padding.right.size,
        })
    }

    /// Adds a text of one line, of this width, in a place that is so wide.
    pub fn push(
        &self,
        horizontal: AlignmentHorizontal,
        text: &str,
        own: usize,
        width: usize,
        line: &mut String,
    ) -> Result<(), AllocError>
        ensures { OnOk result ((look : contents.Look) → IsBetweenBlanks look self.now →
            look.horizontal ≡ horizontal →
            string_bytes line.new ≡ string_bytes line.old ++ pieces_bytes (content (record {
              look = look;
              lines = (text.now, own) ∷ [];
              color = None;
              width = width;
              height = 1;
            }) 0)) }
    {
        let inner = width.saturating_sub(self.left).saturating_sub(self.right);
        let before = free_before(horizontal, inner.saturating_sub(own));
        let after = inner.saturating_sub(before).saturating_sub(own);
        push_blanks(line, self.left + before)?;
        line.push_str(text)?;
        push_blanks(line, after + self.right)
    }
}
