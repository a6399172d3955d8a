//! The calls that change a configuration, as values.

ghost use Rattle.std.specs.Prelude.{◌≡◌, IfOk};
ghost use Rattle.papergrid_config.specs.Applied.{has_neighbours, is_in_range};

use papergrid_values::{
    ANSIBuf, AlignmentHorizontal, AlignmentVertical, Border, Borders, Entity, HorizontalLine,
    Indent, Offset, Position, Sides, VerticalLine, laws,
};
use std::alloc::AllocError;

/// A call that changes a `SpannedConfig`: each has the arguments of the method with its name, in
/// the same order, and they mean and ask for what they do there.
#[derive(Debug, Drop)]
pub enum Setting {
    SetMargin(Sides<Indent>),
    SetMarginColor(Sides<Option<ANSIBuf>>),
    SetMarginOffset(Sides<Offset>),
    RemoveBorders,
    RemoveBordersColors,
    RemoveColorLineHorizontal,
    RemoveColorLineVertical,
    RemoveHorizontalChars,
    RemoveVerticalChars,
    SetBorders(Borders<char>),
    SetBorderDefault(char),
    SetBordersColor(Borders<ANSIBuf>),
    SetBorderColorDefault(ANSIBuf),
    SetBordersMissing(char),
    InsertHorizontalLine(usize, HorizontalLine<char>),
    RemoveHorizontalLine(usize, usize),
    InsertVerticalLine(usize, VerticalLine<char>),
    RemoveVerticalLine(usize, usize),
    SetHorizontalChar(Position, Offset, char),
    RemoveOverriddenHorizontal(Position),
    SetVerticalChar(Position, Offset, char),
    RemoveOverriddenVertical(Position),
    SetHorizontalCharColor(Position, Offset, ANSIBuf),
    SetVerticalCharColor(Position, Offset, ANSIBuf),
    SetPadding(Entity, Sides<Indent>),
    SetPaddingColor(Entity, Sides<Option<ANSIBuf>>),
    SetTrimHorizontal(Entity, bool),
    SetTrimVertical(Entity, bool),
    SetLineAlignment(Entity, bool),
    SetAlignmentHorizontal(Entity, AlignmentHorizontal),
    SetAlignmentVertical(Entity, AlignmentVertical),
    SetJustification(Entity, char),
    SetJustificationColor(Entity, Option<ANSIBuf>),
    SetBorder(Position, Border<char>),
    SetBorderColor(Position, Border<ANSIBuf>),
    RemoveBorder(Position, (usize, usize)),
    RemoveBorderColor(Position, (usize, usize)),
    SetColumnSpan(Position, usize),
    SetRowSpan(Position, usize),
    RemoveColumnSpans,
    RemoveRowSpans,
}

// Only the settings with colours allocate.
impl Clone for Setting {
    ghost is_clone = { λ setting copy. copy ≡ setting };

    fn clone(&self) -> Result<Setting, AllocError> {
        Ok(match self {
            Setting::SetMargin(margin) => Setting::SetMargin(*margin),
            Setting::SetMarginColor(colors) => Setting::SetMarginColor(same_sides(colors)?),
            Setting::SetMarginOffset(offsets) => Setting::SetMarginOffset(*offsets),
            Setting::RemoveBorders => Setting::RemoveBorders,
            Setting::RemoveBordersColors => Setting::RemoveBordersColors,
            Setting::RemoveColorLineHorizontal => Setting::RemoveColorLineHorizontal,
            Setting::RemoveColorLineVertical => Setting::RemoveColorLineVertical,
            Setting::RemoveHorizontalChars => Setting::RemoveHorizontalChars,
            Setting::RemoveVerticalChars => Setting::RemoveVerticalChars,
            Setting::SetBorders(borders) => Setting::SetBorders(*borders),
            Setting::SetBorderDefault(c) => Setting::SetBorderDefault(*c),
            Setting::SetBordersColor(colors) => Setting::SetBordersColor(same_frame(colors)?),
            Setting::SetBorderColorDefault(color) => Setting::SetBorderColorDefault(color.clone()?),
            Setting::SetBordersMissing(c) => Setting::SetBordersMissing(*c),
            Setting::InsertHorizontalLine(row, line) => Setting::InsertHorizontalLine(*row, *line),
            Setting::RemoveHorizontalLine(row, count) => Setting::RemoveHorizontalLine(
                *row, *count,
            ),
            Setting::InsertVerticalLine(col, line) => Setting::InsertVerticalLine(*col, *line),
            Setting::RemoveVerticalLine(col, count) => Setting::RemoveVerticalLine(*col, *count),
            Setting::SetHorizontalChar(position, offset, c) => Setting::SetHorizontalChar(
                *position, *offset, *c,
            ),
            Setting::RemoveOverriddenHorizontal(position) => Setting::RemoveOverriddenHorizontal(
                *position,
            ),
            Setting::SetVerticalChar(position, offset, c) => Setting::SetVerticalChar(
                *position, *offset, *c,
            ),
            Setting::RemoveOverriddenVertical(position) => Setting::RemoveOverriddenVertical(
                *position,
            ),
            Setting::SetHorizontalCharColor(position, offset, color) =>
                Setting::SetHorizontalCharColor(*position, *offset, color.clone()?),
            Setting::SetVerticalCharColor(position, offset, color) => Setting::SetVerticalCharColor(
                *position,
                *offset,
                color.clone()?,
            ),
            Setting::SetPadding(entity, padding) => Setting::SetPadding(*entity, *padding),
            Setting::SetPaddingColor(entity, colors) => Setting::SetPaddingColor(
                *entity,
                same_sides(colors)?,
            ),
            Setting::SetTrimHorizontal(entity, on) => Setting::SetTrimHorizontal(*entity, *on),
            Setting::SetTrimVertical(entity, on) => Setting::SetTrimVertical(*entity, *on),
            Setting::SetLineAlignment(entity, on) => Setting::SetLineAlignment(*entity, *on),
            Setting::SetAlignmentHorizontal(entity, alignment) => Setting::SetAlignmentHorizontal(
                *entity, *alignment,
            ),
            Setting::SetAlignmentVertical(entity, alignment) => Setting::SetAlignmentVertical(
                *entity, *alignment,
            ),
            Setting::SetJustification(entity, c) => Setting::SetJustification(*entity, *c),
            Setting::SetJustificationColor(entity, color) => Setting::SetJustificationColor(
                *entity,
                color.clone()?,
            ),
            Setting::SetBorder(position, border) => Setting::SetBorder(*position, *border),
            Setting::SetBorderColor(position, colors) => Setting::SetBorderColor(
                *position,
                same_border(colors)?,
            ),
            Setting::RemoveBorder(position, shape) => Setting::RemoveBorder(*position, *shape),
            Setting::RemoveBorderColor(position, shape) => Setting::RemoveBorderColor(
                *position, *shape,
            ),
            Setting::SetColumnSpan(position, span) => Setting::SetColumnSpan(*position, *span),
            Setting::SetRowSpan(position, span) => Setting::SetRowSpan(*position, *span),
            Setting::RemoveColumnSpans => Setting::RemoveColumnSpans,
            Setting::RemoveRowSpans => Setting::RemoveRowSpans,
        })
    }
}

// A clone of the colours of four sides, which equals them.
fn same_sides(colors: &Sides<Option<ANSIBuf>>) -> Result<Sides<Option<ANSIBuf>>, AllocError>
    ensures { IfOk result (λ copy. copy ≡ colors.now) }
{
    laws::equal_clones::<Option<ANSIBuf>>();
    colors.clone()
}

// A clone of a frame's colours.
fn same_frame(colors: &Borders<ANSIBuf>) -> Result<Borders<ANSIBuf>, AllocError>
    ensures { IfOk result (λ copy. copy ≡ colors.now) }
{
    laws::equal_clones::<ANSIBuf>();
    colors.clone()
}

// A clone of a border's colours.
fn same_border(colors: &Border<ANSIBuf>) -> Result<Border<ANSIBuf>, AllocError>
    ensures { IfOk result (λ copy. copy ≡ colors.now) }
{
    laws::equal_clones::<ANSIBuf>();
    colors.clone()
}

impl Setting {
    /// Whether the setting may be applied: whether the next row and column exist in `usize` where
    /// it is one for a single cell's border, and always for others.
    pub fn is_in_range(&self) -> bool
        ensures { result ≡ is_in_range self.now }
    {
        match self {
            Setting::SetBorder(position, _)
            | Setting::SetBorderColor(position, _)
            | Setting::RemoveBorder(position, _)
            | Setting::RemoveBorderColor(position, _) => has_neighbours(*position),
            _ => true,
        }
    }
}

// Whether the next row and the next column exist.
fn has_neighbours(position: Position) -> bool
    ensures { result ≡ has_neighbours position }
{
    position.row < usize::MAX && position.col < usize::MAX
}
