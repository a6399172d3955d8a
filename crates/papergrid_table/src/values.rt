//! What the values of options say, and how they are spelled in messages.

ghost use Rattle.std.specs.Prelude.{◌≡◌, IfOk, Some, option_map};
ghost use Rattle.papergrid_script.specs.Settings.{spaced_sides};
ghost use Rattle.papergrid_table.specs.Arguments.{column_told, width_told};
ghost use Rattle.papergrid_table.specs.Values.{alignment_named, column_number, columns_aligned, delimiter_told, four_sides, padding_told, span_size, span_told, vertical_named};

use papergrid_csv::{Alignment, ColumnName, Span};
use papergrid_script::program::{number, position, split_at_byte, split_at_last_byte};
use papergrid_values::{AlignmentHorizontal, AlignmentVertical, Indent, Position, Sides};
use std::alloc::{AllocError, Global};

/// An alignment by its name.
#[tactic(auto, unfolding(crate::specs::Values::alignment_named))]
pub fn alignment_of(name: &str) -> Option<Alignment>
    ensures { result ≡ alignment_named name.now }
{
    match name {
        "left" => Some(Alignment::Fixed(AlignmentHorizontal::Left)),
        "center" => Some(Alignment::Fixed(AlignmentHorizontal::Center)),
        "right" => Some(Alignment::Fixed(AlignmentHorizontal::Right)),
        "auto" => Some(Alignment::Auto),
        _ => None,
    }
}

/// The name of an alignment.
#[tactic(auto, unfolding(crate::specs::Values::alignment_named))]
pub fn alignment_name(alignment: Alignment) -> &'static str
    ensures { alignment_named result.now ≡ Some alignment }
{
    match alignment {
        Alignment::Fixed(AlignmentHorizontal::Left) => "left",
        Alignment::Fixed(AlignmentHorizontal::Center) => "center",
        Alignment::Fixed(AlignmentHorizontal::Right) => "right",
        Alignment::Auto => "auto",
    }
}

/// An alignment of lines in a row by its name.
#[tactic(auto, unfolding(crate::specs::Values::vertical_named))]
pub fn vertical_of(name: &str) -> Option<AlignmentVertical>
    ensures { result ≡ vertical_named name.now }
{
    match name {
        "top" => Some(AlignmentVertical::Top),
        "center" => Some(AlignmentVertical::Center),
        "bottom" => Some(AlignmentVertical::Bottom),
        _ => None,
    }
}

/// A column and its alignment, as `c2=right` or `age=right`. What is no number after `c` is a head.
#[tactic(auto, unfolding(crate::specs::Values::columns_aligned))]
pub fn column_alignment(
    alloc: Global,
    value: &str,
) -> Result<Option<(ColumnName, Alignment)>, AllocError>
    ensures { IfOk result (λ columns. option_map column_told columns
        ≡ columns_aligned value.now) }
{
    let Some((column, name)) = split_at_last_byte(value, b'=') else {
        return Ok(None);
    };
    let Some(alignment) = alignment_of(name) else {
        return Ok(None);
    };
    match column_number(column) {
        Some(number) => Ok(Some((ColumnName::Number(number), alignment))),
        None => {
            let head = String::from_str(alloc, column)?;
            Ok(Some((ColumnName::Head(head), alignment)))
        }
    }
}

/// A number after `c`.
#[tactic(auto, unfolding(crate::specs::Values::column_number))]
fn column_number(column: &str) -> Option<usize>
    ensures { result ≡ column_number column.now }
{
    number(column.strip_prefix('c')?)
}

/// The byte between fields.
#[tactic(auto, unfolding(crate::specs::Values::delimiter_told))]
pub fn delimiter_of(value: &str) -> Option<u8>
    ensures { result ≡ delimiter_told value.now }
{
    match value.as_bytes() {
        b"tab" => Some(b'\t'),
        [byte] if byte.is_ascii() && *byte != b'"' && *byte != b'\n' && *byte != b'\r' => {
            Some(*byte)
        }
        _ => None,
    }
}

/// A greatest width: a number from 1 to 1000. Each smaller one may be tried.
pub fn width_of(value: &str) -> Option<usize>
    ensures { result ≡ width_told value.now }
{
    let width = number(value)?;
    if 0 < width && width <= 1000 {
        return Some(width);
    }
    None
}

/// Paddings: so many spaces on both sides, as `2`, or left, right, above and below, as `2,1,0,0`.
#[tactic(auto, unfolding(crate::specs::Values::padding_told))]
pub fn padding_of(value: &str) -> Option<Sides<usize>>
    ensures { result ≡ padding_told value.now }
{
    match number(value) {
        Some(side) => Some(Sides::new(side, side, 0, 0)),
        None => four_sides(value),
    }
}

/// Four numbers with commas between them: left, right, above and below.
#[tactic(auto, unfolding(crate::specs::Values::four_sides))]
fn four_sides(value: &str) -> Option<Sides<usize>>
    ensures { result ≡ four_sides value.now }
{
    let (left, others) = split_at_byte(value, b',')?;
    let (right, others) = split_at_byte(others, b',')?;
    let (top, bottom) = split_at_byte(others, b',')?;
    Some(Sides::new(number(left)?, number(right)?, number(top)?, number(bottom)?))
}

/// So many spaces left and right, and so many blank lines above and below.
pub fn padding(sizes: Sides<usize>) -> Sides<Indent>
    ensures { result ≡ spaced_sides sizes }
{
    Sides::new(
        Indent::spaced(sizes.left),
        Indent::spaced(sizes.right),
        Indent::spaced(sizes.top),
        Indent::spaced(sizes.bottom),
    )
}

/// A cell that spans columns, as `0,1=3`, or rows and columns, as `0,1=2x3`.
#[tactic(auto, unfolding(crate::specs::Values::span_told))]
pub fn span_of(value: &str) -> Option<Span>
    ensures { result ≡ span_told value.now }
{
    let (place, size) = split_at_byte(value, b'=')?;
    let position = position(place)?;
    let (rows, columns) = span_size(size)?;
    if rows == 0 || columns == 0 {
        return None;
    }
    Some(Span {
        position,
        rows,
        columns,
    })
}

/// How many rows and columns a span has, as `3` or `2x3`.
#[tactic(auto, unfolding(crate::specs::Values::span_size))]
fn span_size(size: &str) -> Option<(usize, usize)>
    ensures { result ≡ span_size size.now }
{
    match split_at_byte(size, b'x') {
        Some((rows, columns)) => Some((number(rows)?, number(columns)?)),
        None => Some((1, number(size)?)),
    }
}

/// A span as its option says it.
pub fn span_text(alloc: Global, span: &Span) -> Result<String, AllocError> {
    let Position { row, col } = span.position;
    let (rows, columns) = (span.rows, span.columns);
    if rows == 1 {
        return format!(in alloc; "--span {row},{col}={columns}");
    }
    format!(in alloc; "--span {row},{col}={rows}x{columns}")
}
