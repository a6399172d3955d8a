//! The cells that show why a table is no smaller.

ghost use Rattle.std.specs.Prelude.{◌≡◌, IfOk, MatchOption, Option, option_map, string_bytes};
ghost use Rattle.papergrid_values.specs.declared.per_direction.PerDirection.{PerDirection};
ghost use Rattle.papergrid_tracks.specs.declared.solution.Solved.{Solved};
ghost use Rattle.papergrid_layout.specs.Certificates.{solutions_of};
ghost use Rattle.papergrid_script.specs.Outputs.{OfOutcome, outcome_sizes};
ghost use Rattle.papergrid_script.specs.ScriptLines.{IsWithoutLast};
ghost use Rattle.papergrid_script.specs.Texts.{newline};
ghost use Rattle.papergrid_csv.specs.Certified.{HasNoSizes, IsCsvCertified};
ghost use Rattle.papergrid_csv.specs.Pictures.{IsCsvRun};
ghost use Rattle.papergrid_table.specs.Witness.{IsMessageOf, IsTextOf, witness_lines};

use papergrid::Sizing;
use papergrid_csv::{Request, certify_csv};
use papergrid_layout::{PerDirection, Solved};
use papergrid_script::answer::certify_script;
use papergrid_script::output::certificates_text;
use std::alloc::{AllocError, Global};

/// The lines `witness widths` and `witness heights` of the table of a text, or nothing where it has no sizes.
fn lines_of_text(alloc: Global, request: &Request, input: &[u8]) -> Result<Vec<u8>, AllocError>
    ensures { IfOk result (λ lines. (found : Option (PerDirection Solved))
        × MatchOption found (HasNoSizes (IsCsvRun request.now input.now))
        (IsCsvCertified request.now input.now)
        × (lines.items ≡ witness_lines (option_map solutions_of found))) }
{
    witness_lines(alloc, certify_csv(alloc, request, input)?)
}

/// The same of the table of a script.
fn lines_of_script(alloc: Global, sizing: Sizing, script: &[u8]) -> Result<Vec<u8>, AllocError>
    ensures { IfOk result (λ lines. OfOutcome sizing script.now (λ outcome.
        lines.items ≡ witness_lines (outcome_sizes outcome))) }
{
    witness_lines(alloc, certify_script(alloc, sizing, script)?)
}

/// The lines that name the cells that certify sizes, if there are any.
fn witness_lines(alloc: Global, found: Option<PerDirection<Solved>>) -> Result<Vec<u8>, AllocError>
    ensures { IfOk result (λ lines.
        lines.items ≡ witness_lines (option_map solutions_of found)) }
{
    match found {
        Some(found) => certificates_text(alloc, &found),
        None => Ok(Vec::new(alloc)),
    }
}

/// The lines of a text's table as a message, which has no line feed after the last.
pub fn witness_of_text(alloc: Global, request: &Request, input: &[u8]) -> Result<String, AllocError>
    ensures { IfOk result (λ message. (found : Option (PerDirection Solved))
        × MatchOption found (HasNoSizes (IsCsvRun request.now input.now))
        (IsCsvCertified request.now input.now)
        × IsMessageOf (witness_lines (option_map solutions_of found)) (string_bytes message)) }
{
    message_of(alloc, &lines_of_text(alloc, request, input)?)
}

/// The same of a script's.
pub fn witness_of_script(alloc: Global, sizing: Sizing, script: &[u8]) -> Result<String, AllocError>
    ensures { IfOk result (λ message. OfOutcome sizing script.now (λ outcome.
        IsMessageOf (witness_lines (outcome_sizes outcome)) (string_bytes message))) }
{
    message_of(alloc, &lines_of_script(alloc, sizing, script)?)
}

/// Lines without a line feed after the last.
fn message_of(alloc: Global, lines: &[u8]) -> Result<String, AllocError>
    ensures { IfOk result (λ message. IsMessageOf lines.now (string_bytes message)) }
{
    String::from_str(alloc, text_of(without_last_end(lines)))
}

/// The same without a line feed at the end.
fn without_last_end(lines: &[u8]) -> &[u8]
    ensures { IsWithoutLast newline lines.now result.now }
{
    match lines.strip_suffix(b"\n".as_slice()) {
        Some(kept) => kept,
        None => lines,
    }
}

/// The text that bytes are, or nothing where they are none.
fn text_of(bytes: &[u8]) -> &str
    ensures { IsTextOf bytes.now result.now }
{
    match std::str::from_utf8(bytes) {
        Ok(text) => text,
        Err(_) => "",
    }
}
