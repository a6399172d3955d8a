//! What is said of a table that is wider than it may be.

ghost use Rattle.std.specs.Prelude.{◌≡◌, ◌<◌, ◌^◌, All, IfOk, IfSome, OnOk, Some, map};
ghost use Rattle.papergrid_csv.specs.Certified.{HasPicture};
ghost use Rattle.papergrid_csv.specs.Rows.{held_texts};
ghost use Rattle.papergrid_table.specs.Places.{IsLineOfRecord};
ghost use Rattle.papergrid_table.specs.Wide.{AreWidestFirst, asked_at};

use crate::places::line_of_record;
use crate::rows::{shown_rows, text_at};
use bumpalo::Bump;
use papergrid::util::string::get_text_dimension;
use papergrid_csv::{Request, Rows, certify_csv, has_picture};
use papergrid_layout::Solved;
use papergrid_script::program::shown;
use papergrid_values::Position;
use std::alloc::{AllocError, Global};

/// How many cells are named at most.
const NAMED: usize = 3;

/// A cell that asks for so many columns of a terminal.
#[derive(Clone, Copy)]
struct Asking {
    position: Position,
    width: usize,
}

/// What is said of a table of this width, which is more than it may have: the widest of the cells that show that
/// no table with room for all texts is narrower, if there are such cells, and where to cut. The request has that cut then.
pub fn too_wide(
    alloc: Global,
    request: &mut Request,
    name: &str,
    input: &[u8],
    width: usize,
) -> Result<String, AllocError> {
    let most = request.max_width.unwrap_or(0);
    let mut text = format!(in alloc;
        "{name}: the table is {width} columns wide, and --max-width allows {most}"
    )?;
    add_what_helps(alloc, &mut text, request, input, width)?;
    Ok(text)
}

/// Adds which cells make a table as wide as it is, and where to cut, where sizes are found.
fn add_what_helps(
    alloc: Global,
    text: &mut String,
    request: &mut Request,
    input: &[u8],
    width: usize,
) -> Result<(), AllocError> {
    match certify_csv(alloc, request, input)? {
        Some(found) => { add_cells_and_cut(alloc, text, request, input, (&found.columns, width)) }
        None => Ok(()),
    }
}

/// The same by the widths that were found.
fn add_cells_and_cut(
    alloc: Global,
    text: &mut String,
    request: &mut Request,
    input: &[u8],
    (widths, width): (&Solved, usize),
) -> Result<(), AllocError> {
    if let Some(witness) = &widths.certificate {
        name_cells(alloc, text, request, input, (witness.as_slice(), width))?;
    }
    match cut_that_fits(alloc, request, widths, input)? {
        Some(columns) => write!(text, "; --cut {columns} would fit"),
        None => Ok(()),
    }
}

/// A cut by which the table of a text, which has these widths and no spans, is no wider than it may be, if there is one. The
/// request has it then.
fn cut_that_fits(
    alloc: Global,
    request: &mut Request,
    widths: &Solved,
    input: &[u8],
) -> Result<Option<usize>, AllocError>
    ensures fits { IfOk result (λ found. IfSome found (λ columns.
        HasPicture request.new input.now × (request.new.cut ≡ Some columns))) }
    ensures request { request.new ≡ record request.old { cut = request.new.cut } }
{
    let most = request.max_width.unwrap_or(0);
    let Some(columns) = sure_cut(request, widths, most) else {
        return Ok(None);
    };
    request.cut = Some(columns);
    if has_picture(alloc, request, input)? {
        Ok(Some(columns))
    } else {
        Ok(None)
    }
}

/// What is said of a table that is wider than it may be by every cut, and has this width by a cut to one column.
pub fn no_cut_fits(
    alloc: Global,
    name: &str,
    most: usize,
    width: usize,
) -> Result<String, AllocError> {
    let columns = if most == 1 { "column" } else { "columns" };
    format!(in alloc;
        "{name}: no cut makes the table at most {most} {columns} wide: with fields cut to one column it has {width}"
    )
}

/// A text that was read by a request, and its rows.
#[derive(Clone, Copy)]
struct Read<'a, 't> {
    request: &'a Request,
    input: &'a [u8],
    rows: &'a Rows<'t>,
}

/// Adds the widest of the cells, and what the others and the lines take.
fn name_cells(
    alloc: Global,
    text: &mut String,
    request: &Request,
    input: &[u8],
    (witness, width): (&[Position], usize),
) -> Result<(), AllocError> {
    let texts = Bump::new(alloc);
    match shown_rows(alloc, &texts, request, input)? {
        Some(rows) => {
            let read = Read {
                request,
                input,
                rows: &rows,
            };
            name_widest_of(alloc, text, read, witness, width)
        }
        None => Ok(()),
    }
}

/// The same of a text that was read.
fn name_widest_of(
    alloc: Global,
    text: &mut String,
    read: Read<'_, '_>,
    witness: &[Position],
    width: usize,
) -> Result<(), AllocError> {
    let cells = widest_first(alloc, read, witness)?;
    name_widest(alloc, text, read, &cells, width)
}

/// What the cells ask for, the widest first.
fn widest_first(
    alloc: Global,
    read: Read<'_, '_>,
    cells: &[Position],
) -> Result<Vec<Asking>, AllocError>
    ensures { let asked = asked_at read.entry.request.now (held_texts read.entry.rows.now.rows) in
        IfOk result (λ asking. AreWidestFirst (map asked cells.now) asking.items) }
{
    let mut asking = all_asking(alloc, read, cells)?;
    sort_widest_first(&mut asking)?;
    Ok(asking)
}

/// What the cells ask for.
fn all_asking(
    alloc: Global,
    read: Read<'_, '_>,
    cells: &[Position],
) -> Result<Vec<Asking>, AllocError>
    ensures { let asked = asked_at read.entry.request.now (held_texts read.entry.rows.now.rows) in
        IfOk result (λ asking. asking.items ≡ map asked cells.now) }
{
    cells
        .iter()
        .map(|position| asked_of(read, *position))
        .collect(alloc)
}

/// Sorts cells by what they ask for, the widest first.
fn sort_widest_first(asking: &mut Vec<Asking>) -> Result<(), AllocError>
    requires { All (λ cell. cell.width < 2 ^ 64) asking.old.items }
    ensures { OnOk result (AreWidestFirst asking.old.items asking.new.items) }
{
    asking.sort_by_key(|cell| usize::MAX - cell.width)?;
    Ok(())
}

/// Adds the first of the cells, and what is left of the width of the table.
fn name_widest(
    alloc: Global,
    text: &mut String,
    read: Read<'_, '_>,
    cells: &[Asking],
    width: usize,
) -> Result<(), AllocError> {
    let (mut rest, mut is_first) = (width, true);
    for cell in cells.iter().take(NAMED) {
        let begin = if is_first { ": " } else { ", " };
        add_cell(alloc, text, read, begin, *cell)?;
        rest = rest.saturating_sub(cell.width);
        is_first = false;
    }
    write!(text, ", lines and the rest {rest}")
}

/// Adds this beginning, and what a cell takes.
fn add_cell(
    alloc: Global,
    text: &mut String,
    read: Read<'_, '_>,
    begin: &str,
    Asking { position, width }: Asking,
) -> Result<(), AllocError> {
    let (name, line) = cell_name(alloc, read, position)?;
    write!(text, "{begin}{name} (line {line}) takes {width}")
}

/// What a cell asks for: the width of its text and of its padding.
fn asked_of(read: Read<'_, '_>, position: Position) -> Asking
    ensures { result
        ≡ asked_at read.entry.request.now (held_texts read.entry.rows.now.rows) position }
{
    let padding = &read.request.padding;
    let sides = padding.left.size.saturating_add(padding.right.size);
    let (_, text) = get_text_dimension(text_at(read.rows, position).unwrap_or(""));
    Asking {
        position,
        width: text.saturating_add(sides),
    }
}

/// The head of the column of a cell, or its number, and the line of its record.
fn cell_name(
    alloc: Global,
    read: Read<'_, '_>,
    position: Position,
) -> Result<(String, usize), AllocError>
    ensures { IfOk result (λ named. IsLineOfRecord read.entry.request.now.reading
        read.entry.input.now position.row named.1) }
{
    let line = line_of_record(read.request.reading, read.input, position.row);
    let head = match text_at(read.rows, Position::new(0, position.col)) {
        Some(head) if read.request.has_head && !head.is_empty() => shown(alloc, head)?,
        _ => {
            let column = position.col;
            format!(in alloc; "column {column}")?
        }
    };
    Ok((head, line))
}

/// The greatest cut by which a table of these widths and without spans is at most so wide, whatever its texts are. A greater one
/// may do, too, where a cut falls into a character of two columns.
fn sure_cut(request: &Request, widths: &Solved, most: usize) -> Option<usize> {
    if !request.spans.is_empty() {
        return None;
    }
    let sides = request
        .padding
        .left
        .size
        .saturating_add(request.padding.right.size);
    let (mut low, mut high) = (0, most);
    // So many halvings leave one number.
    for _ in 0..64 {
        if low < high {
            let middle = high - (high - low) / 2;
            if cut_width(widths, sides, middle) <= most {
                low = middle;
            } else {
                high = middle - 1;
            }
        }
    }
    if low == 0 { None } else { Some(low) }
}

/// How wide a table is at most whose fields are cut.
fn cut_width(widths: &Solved, sides: usize, columns: usize) -> usize {
    let (mut taken, mut total) = (0usize, 0usize);
    for size in &widths.sizes {
        taken = taken.saturating_add(*size);
        total = total.saturating_add((*size).min(columns.saturating_add(sides)));
    }
    // What the widths leave of the whole is the lines.
    total.saturating_add(widths.total.saturating_sub(taken))
}
