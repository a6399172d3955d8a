//! The text that the program writes.

ghost use Rattle.std.specs.Prelude.{◌≡◌, ◌++◌, IfOk, OnOk, decimal};
ghost use Rattle.papergrid_script.specs.Estimates.{OutOfTable, Sized, TooLarge};
ghost use Rattle.papergrid_script.specs.Outputs.{bad_line_text, certificate_line, certificates_text, estimate_text, number_line, spaced_positions};
ghost use Rattle.papergrid_layout.specs.Certificates.{solutions_of};
ghost use Rattle.papergrid_tracks.specs.Sizings.{positions_of};

use itoa::Buffer;
use papergrid_layout::Solved;
use papergrid_values::{PerDirection, Position};
use std::alloc::{AllocError, Global};

/// The lines `widths`, `heights`, `total`, `witness widths` and `witness heights`.
pub fn sizes_text(alloc: Global, found: &PerDirection<Solved>) -> Result<Vec<u8>, AllocError>
    ensures { IfOk result (λ text. text.items ≡ estimate_text (Sized (solutions_of found.now))) }
{
    let mut text = Vec::new(alloc);
    let PerDirection { columns, rows } = found;
    push_line(&mut text, b"widths", columns.sizes.as_slice())?;
    push_line(&mut text, b"heights", rows.sizes.as_slice())?;
    let totals = [columns.total, rows.total];
    push_line(&mut text, b"total", totals.as_slice())?;
    push_certificates(&mut text, found)?;
    Ok(text)
}

/// The lines `witness widths` and `witness heights`.
pub fn certificates_text(alloc: Global, found: &PerDirection<Solved>) -> Result<Vec<u8>, AllocError>
    ensures { IfOk result (λ text. text.items ≡ certificates_text (solutions_of found.now)) }
{
    let mut text = Vec::new(alloc);
    push_certificates(&mut text, found)?;
    Ok(text)
}

/// Adds those lines.
fn push_certificates(text: &mut Vec<u8>, found: &PerDirection<Solved>) -> Result<(), AllocError>
    ensures { OnOk result (text.new.items
        ≡ text.old.items ++ certificates_text (solutions_of found.now)) }
{
    push_certificate(text, b"witness widths", &found.columns.certificate)?;
    push_certificate(text, b"witness heights", &found.rows.certificate)
}

/// Adds a line: the word, and a space and a number for each.
fn push_line(text: &mut Vec<u8>, word: &[u8], numbers: &[usize]) -> Result<(), AllocError>
    ensures { OnOk result (text.new.items ≡ text.old.items ++ number_line word.now numbers.now) }
{
    text.extend_from_slice(word)?;
    // Each takes two bytes at least.
    text.reserve(2 * numbers.len())?;
    for number in numbers {
        text.push(b' ')?;
        push_number(text, *number)?;
    }
    text.push(b'\n')?;
    Ok(())
}

/// Adds a line: the word, and the cells that certify sizes, or that there are none such.
fn push_certificate(
    text: &mut Vec<u8>,
    word: &[u8],
    certificate: &Option<Vec<Position>>,
) -> Result<(), AllocError>
    ensures { OnOk result (text.new.items ≡ text.old.items ++ certificate_line word.now
        (positions_of certificate.now)) }
{
    text.extend_from_slice(word)?;
    match certificate {
        None => text.extend_from_slice(b" none")?,
        Some(positions) => push_positions(text, positions.as_slice())?,
    }
    text.push(b'\n')?;
    Ok(())
}

/// Adds a space, the row, a comma and the column for each.
fn push_positions(text: &mut Vec<u8>, positions: &[Position]) -> Result<(), AllocError>
    ensures { OnOk result (text.new.items ≡ text.old.items ++ spaced_positions positions.now) }
{
    // Each takes four bytes at least.
    text.reserve(4 * positions.len())?;
    for position in positions {
        text.push(b' ')?;
        push_number(text, position.row)?;
        text.push(b',')?;
        push_number(text, position.col)?;
    }
    Ok(())
}

/// Adds the digits of the number. Most numbers of a table have one.
#[tactic(auto, using(std::proofs::lemmas::Fmt::decimal_digit))]
fn push_number(text: &mut Vec<u8>, number: usize) -> Result<(), AllocError>
    ensures { OnOk result (text.new.items ≡ text.old.items ++ decimal number) }
{
    if number < 10 {
        text.push(b'0' + number as u8)?;
        return Ok(());
    }
    let mut digits = Buffer::new();
    text.extend_from_slice(digits.format(number).as_bytes())
}

/// The line for a cell out of the table.
pub fn out_of_table_text(alloc: Global, position: Position) -> Result<Vec<u8>, AllocError>
    ensures { IfOk result (λ text. text.items ≡ estimate_text (OutOfTable position)) }
{
    let Position { row, col } = position;
    let text = format!(in alloc; "refused: out of table at {row},{col}\n")?;
    Ok(text.into_bytes())
}

/// The line for totals past the greatest number.
pub fn too_large_text(alloc: Global) -> Result<Vec<u8>, AllocError>
    ensures { IfOk result (λ text. text.items ≡ estimate_text TooLarge) }
{
    Vec::from_slice(alloc, b"refused: too large\n")
}

/// The line for a bad script.
pub fn bad_script_text(alloc: Global, number: usize) -> Result<Vec<u8>, AllocError>
    ensures { IfOk result (λ text. text.items ≡ bad_line_text number) }
{
    let text = format!(in alloc; "bad script at line {number}\n")?;
    Ok(text.into_bytes())
}
