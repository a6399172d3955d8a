//! A configuration from a compact one. Source: `config/spanned/mod.rs`.

ghost use Rattle.std.specs.Prelude.{◌≡◌, false, IfOk, option_map};
ghost use Rattle.papergrid_values.specs.Colors.{texts_of};
ghost use Rattle.papergrid_config.specs.Made.{AreColoredSides, IsColoredFrame, IsOfCompact};

use crate::spanned::SpannedConfig;
use papergrid_values::{ANSIBuf, ANSIStr, Borders, CompactConfig, Entity, Sides};
use std::alloc::{AllocError, Global};

impl SpannedConfig {
    /// The configuration with what a compact one has: its padding, the padding's colours and the
    /// alignment for the whole table, its margin, its frame and their colours, or out of memory.
    /// Colours of a padding and a margin are set even where both of their texts are empty.
    pub fn from_compact(alloc: Global, compact: &CompactConfig) -> Result<SpannedConfig, AllocError>
        ensures { IfOk result (IsOfCompact compact.now) }
    {
        let mut config = SpannedConfig::new(alloc);
        config.set_padding(Entity::Global, *compact.get_padding())?;
        let padding_color = owned_sides(alloc, compact.get_padding_color())?;
        config.set_padding_color(Entity::Global, padding_color)?;
        config.set_alignment_horizontal(Entity::Global, compact.get_alignment_horizontal())?;
        config.set_margin(*compact.get_margin());
        config.set_margin_color(owned_sides(alloc, compact.get_margin_color())?);
        config.set_borders(*compact.get_borders());
        config.set_borders_color(owned_frame(alloc, compact.get_borders_color())?);
        Ok(config)
    }
}

// Copies of the colours of four sides. As with a frame, the copies have one way out where memory
// lacks, and not one for each part.
fn owned_sides(
    alloc: Global,
    colors: &Sides<ANSIStr<'static>>,
) -> Result<Sides<Option<ANSIBuf>>, AllocError>
    ensures { IfOk result (AreColoredSides colors.now) }
{
    let mut is_refused = false;
    let sides = Sides {
        top: copy_part(alloc, Some(colors.top), &mut is_refused),
        bottom: copy_part(alloc, Some(colors.bottom), &mut is_refused),
        left: copy_part(alloc, Some(colors.left), &mut is_refused),
        right: copy_part(alloc, Some(colors.right), &mut is_refused),
    };
    if is_refused {
        drop(sides);
        return Err(AllocError);
    }
    Ok(sides)
}

// Copies of the colours of a frame.
fn owned_frame(
    alloc: Global,
    colors: &Borders<ANSIStr<'static>>,
) -> Result<Borders<ANSIBuf>, AllocError>
    ensures { IfOk result (IsColoredFrame colors.now) }
{
    let mut is_refused = false;
    let frame = Borders {
        top: copy_part(alloc, colors.top, &mut is_refused),
        top_left: copy_part(alloc, colors.top_left, &mut is_refused),
        top_right: copy_part(alloc, colors.top_right, &mut is_refused),
        top_intersection: copy_part(alloc, colors.top_intersection, &mut is_refused),
        bottom: copy_part(alloc, colors.bottom, &mut is_refused),
        bottom_left: copy_part(alloc, colors.bottom_left, &mut is_refused),
        bottom_right: copy_part(alloc, colors.bottom_right, &mut is_refused),
        bottom_intersection: copy_part(alloc, colors.bottom_intersection, &mut is_refused),
        horizontal: copy_part(alloc, colors.horizontal, &mut is_refused),
        vertical: copy_part(alloc, colors.vertical, &mut is_refused),
        intersection: copy_part(alloc, colors.intersection, &mut is_refused),
        left: copy_part(alloc, colors.left, &mut is_refused),
        left_intersection: copy_part(alloc, colors.left_intersection, &mut is_refused),
        right: copy_part(alloc, colors.right, &mut is_refused),
        right_intersection: copy_part(alloc, colors.right_intersection, &mut is_refused),
    };
    if is_refused {
        drop(frame);
        return Err(AllocError);
    }
    Ok(frame)
}

// A copy of a part that is set. Out of memory it is none, and that is noted.
fn copy_part(
    alloc: Global,
    color: Option<ANSIStr<'static>>,
    is_refused: &mut bool,
) -> Option<ANSIBuf>
    ensures { is_refused.new ≡ false →
        (is_refused.old ≡ false) × (result ≡ option_map texts_of color.entry) }
{
    let copy = ANSIBuf::copy_of(alloc, color?);
    *is_refused |= copy.is_err();
    copy.ok()
}
