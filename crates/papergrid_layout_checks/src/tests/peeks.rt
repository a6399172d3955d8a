//! Records that are read by position: what `VecRecords`, references to them and records of one's own answer.

ghost use Rattle.std.specs.Prelude.{◌≡◌, length, string_bytes};
ghost use Rattle.std.specs.Str.Lines.{lines as std_lines};
ghost use Rattle.papergrid_text.specs.Held.{HasCell, cell_text};
ghost use Rattle.papergrid_text.specs.HeldRows.{rows_held};
ghost use Rattle.papergrid_text.specs.Text.{text_width};

use crate::tests::texts::given_lines;
use papergrid_text::{PeekableRecords, Text, VecRecords};
use papergrid_values::Position;
use std::alloc::{AllocError, Global};

/// Whether these are the text of a cell, how many lines it has, its width, and a line with its width.
pub fn is_peeked<R: PeekableRecords>(
    records: &R,
    position: Position,
    line: usize,
    expected: (&str, usize, usize, &str, usize),
) -> bool
    requires at { R.has records.now position }
    requires there { R.has_line records.now position line }
{
    let (text, lines, width, of_line, line_width) = expected;
    records.get_text(position) == text
        && records.count_lines(position) == lines
        && records.get_width(position) == width
        && records.get_line(position, line) == of_line
        && records.get_line_width(position, line) == line_width
}

/// Records that write `get_text` alone.
#[derive(Drop)]
struct OneText;

impl PeekableRecords for OneText {
    ghost use Rattle.std.specs.Prelude.{⊤, ◌∷◌, []};

    ghost has = { λ _ _. ⊤ };

    ghost text = { λ _ _. 97 ∷ 10 ∷ 98 ∷ [] };

    fn get_text(&self, _position: Position) -> &str {
        "a\nb"
    }
}

#[test]
fn provided_peeks(rt: HostRuntime) {
    let position = Position::new(0, 0);
    let one = OneText;
    assert!(rt;
        is_peeked(&one, position, 1, ("a\nb", 2, 1, "b", 1))
            && is_peeked(&&one, position, 1, ("a\nb", 2, 1, "b", 1))
            && one.get_line(position, 2) == ""
    );
}

/// Whether records answer what a cell of one line tells of its width, and one that tells its lines too.
fn are_exact<R: PeekableRecords>(records: &R) -> bool
    requires first { R.has records.now (record { row = 0; col = 0 }) }
    requires line { R.has_line records.now (record { row = 0; col = 0 }) 0 }
    requires second { R.has records.now (record { row = 0; col = 1 }) }
    requires second_line { R.has_line records.now (record { row = 0; col = 1 }) 1 }
{
    is_peeked(records, Position::new(0, 0), 0, ("ab", 1, 7, "ab", 7))
        && is_peeked(records, Position::new(0, 1), 1, ("xyz", 2, 9, "bc", 2))
}

/// Whether records answer so themselves, through a reference, and through one to a reference.
fn are_exact_through<R: PeekableRecords>(records: &R) -> bool
    requires first { R.has records.now (record { row = 0; col = 0 }) }
    requires line { R.has_line records.now (record { row = 0; col = 0 }) 0 }
    requires second { R.has records.now (record { row = 0; col = 1 }) }
    requires second_line { R.has_line records.now (record { row = 0; col = 1 }) 1 }
{
    are_exact(records) && are_exact(&records) && are_exact(&&records)
}

fn are_exact_cells(alloc: Global) -> Result<bool, AllocError> {
    let lines = given_lines(alloc)?;
    let cells = [
        Text::exact("ab", 7, Vec::new(alloc)),
        Text::exact("xyz", 9, lines),
    ];
    let row = Vec::from_array(alloc, cells)?;
    let records = VecRecords::new(vec![in alloc; row]?);
    Ok(
        PeekableRecords::count_lines(&records, Position::new(0, 0)) == 1
            && PeekableRecords::count_lines(&records, Position::new(0, 1)) == 2
            && are_exact_through(&records),
    )
}

#[test]
fn exact_cells(rt: HostRuntime) {
    assert!(rt; are_exact_cells(rt.alloc()) == Ok(true));
}

// The number of lines and the width of a cell whose lines and width are those of its text.
fn measures<R: PeekableRecords>(records: &R, position: Position) -> (usize, usize)
    requires there { R.has records.now position }
    requires plain { R.is_plain_at records.now position }
    ensures { let text = R.text records.now position in
        result ≡ (length (std_lines text), text_width text) }
{
    (records.count_lines(position), records.get_width(position))
}

/// The same by a caller that learns them exactly, through a reference too.
pub fn of_strings(records: &VecRecords<String>, position: Position) -> (usize, usize)
    requires { HasCell (rows_held records.now).items position }
    ensures { let text = cell_text string_bytes (rows_held records.now).items position in
        result ≡ (length (std_lines text), text_width text) }
{
    measures(&records, position)
}
