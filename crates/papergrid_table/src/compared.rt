//! A picture that is compared with the table of an input.

ghost use Rattle.std.specs.Prelude.{◌≡◌, ◌↔◌, ℕ, IfErr, IfOk, IfSome, List, None, OnOk, false};
ghost use Rattle.papergrid_script.specs.Inputs.{IsWholeInput};
ghost use Rattle.papergrid_table.specs.Pictures.{IsCutOf, IsRunOf};
ghost use Rattle.papergrid_table.specs.Places.{first_mismatch, same_bytes};
ghost use Rattle.papergrid_table.specs.ForProofs.Drafts.{IsReadOrMemory};

use crate::arguments::Wanted;
use crate::picture::{End, run_input};
use crate::places::{column_after, spot_after};
use papergrid::{ByteSink, RunFault, Source};
use std::alloc::Global;

/// Where a picture differs from a table: the line and the character of the line, both counted from 1.
#[derive(Clone, Copy)]
pub struct Difference {
    pub line: usize,
    pub column: usize,
}

/// Draws the table of the input that is read, keeps the input, and answers how that ended and where the picture differs first.
pub fn compare<S: Source>(
    alloc: Global,
    wanted: &mut Wanted,
    reader: &mut S,
    picture: &[u8],
    input: &mut Vec<u8>,
) -> Result<(End, Option<Difference>), RunFault>
    requires reader { S.has_failed reader.old ≡ false }
    ensures compared { IfOk result (λ compared. (table : List ℕ)
        × IsRunOf wanted.old.kind wanted.old wanted.new.request.cut input.new.items compared.0 table
        × ((compared.1 ≡ None) ↔ (picture.now ≡ table))
        × IfSome compared.1 (λ difference.
        difference ≡ first_mismatch picture.now table)) }
    ensures read { OnOk result (IsWholeInput (S.remaining reader.old) (S.remaining reader.new)
        input.new.items) }
    ensures wanted { OnOk result (IsCutOf wanted.old.kind wanted.old wanted.new) }
    ensures fault { IfErr result (IsReadOrMemory (S.has_failed reader.new)) }
{
    let mut table = ByteSink::new(alloc);
    match run_input(alloc, wanted, reader, &mut table, input) {
        Ok(end) => Ok((end, first_difference(picture, &table.into_bytes()))),
        // Only an allocation fails there.
        Err(RunFault::Write) => Err(RunFault::Memory),
        Err(fault) => Err(fault),
    }
}

/// Where the picture differs first from the table, if it does.
fn first_difference(picture: &[u8], table: &[u8]) -> Option<Difference>
    ensures none { (result ≡ None) ↔ (picture.now ≡ table.now) }
    ensures first { IfSome result (λ difference.
        difference ≡ first_mismatch picture.now table.now) }
{
    if picture == table {
        return None;
    }
    let same = same_bytes(picture, table);
    Some(Difference {
        line: spot_after(picture, same).line,
        column: column_after(picture, same),
    })
}

/// How many bytes at the front are the same.
fn same_bytes(left: &[u8], right: &[u8]) -> usize
    ensures { result ≡ same_bytes left.now right.now }
{
    left.iter().zip(right).take_while(|(a, b)| a == b).count()
}
