//! A run: the table of an input drawn, or compared, and what keeps it from being drawn.

ghost use Rattle.std.specs.Prelude.{◌&&◌, ◌≡◌, ℕ, IfErr, MatchResult, if◌then◌else◌, is_some, nat_eq};
ghost use Rattle.std.specs.Process.{exit_status};
ghost use Rattle.papergrid_table.specs.Statuses.{HasStatus, end_status};

use crate::arguments::Wanted;
use crate::compared::{Difference, compare};
use crate::document::{DocumentEnd, said_of_document};
use crate::messages::message_of as message_of_text;
use crate::picture::{End, run_input};
use crate::progress::{Progress, Watched};
use crate::wide::no_cut_fits;
use crate::witness::{witness_of_script, witness_of_text};
use papergrid::{ReadSource, RunEnd, RunFault, WriteSink, read_all};
use papergrid_csv::CsvEnd;
use papergrid_script::program::{Output, fault, message_of, shown, status, unopened};
use std::alloc::{AllocError, Global};
use std::fs::File;
use std::io::{BufWriter, Read, Write};
use std::process::ExitCode;

/// What is said of spans that don't tile a table.
const UNTILED: &str = "spans overlap there, or leave the position to no visible cell";

/// How many bytes go out at a time.
const PIECE: usize = 65536;

/// Draws the table of the input that is read, of this name, or compares it. Whether the input is typed in is told.
pub fn answered_from<R: Read + Drop>(
    rt: &HostRuntime,
    mut wanted: Wanted,
    name: &str,
    reader: R,
    is_typed: bool,
) -> ExitCode {
    let progress = Progress::new(rt, is_typed);
    match wanted.check.take() {
        None => drawn(rt, &progress, &mut wanted, name, reader),
        Some(path) => compared(rt, &progress, &mut wanted, (name, path.as_str()), reader),
    }
}

/// Draws the table on standard output, in pieces.
fn drawn<R: Read + Drop>(
    rt: &HostRuntime,
    progress: &Progress<'_>,
    wanted: &mut Wanted,
    name: &str,
    reader: R,
) -> ExitCode {
    let reader = Watched {
        inner: reader,
        progress,
    };
    let output = Watched {
        inner: Output::new(rt.stdout()),
        progress,
    };
    let Ok(mut out) = BufWriter::with_capacity(rt.alloc(), PIECE, output) else {
        return fault(rt, name, RunFault::Memory, false);
    };
    let mut input = Vec::new(rt.alloc());
    let mut source = ReadSource::new(reader);
    let mut sink = WriteSink::new(&mut out);
    let mut end = run_input(rt.alloc(), wanted, &mut source, &mut sink, &mut input);
    if end.is_ok() && out.flush().is_err() {
        end = Err(RunFault::Write);
    }
    progress.end();
    // After a fault nothing more is written.
    let (output, _) = out.into_parts();
    finished(rt, wanted, name, &input, end, output.inner.is_closed())
}

/// Ends a run that drew a table. Whether nobody reads the output any more is told.
fn finished(
    rt: &HostRuntime,
    wanted: &mut Wanted,
    name: &str,
    input: &[u8],
    end: Result<End, RunFault>,
    is_closed: bool,
) -> ExitCode
    ensures { MatchResult end (λ end. HasStatus end wanted.old.witness (exit_status result))
        (λ _. exit_status result ≡ 3) }
{
    match end {
        Ok(end) => ended(rt, wanted, name, input, end),
        Err(reason) => fault(rt, name, reason, is_closed),
    }
}

/// A file that a table is compared with.
#[derive(Drop)]
struct Picture {
    /// Its name, as messages tell it.
    name: String,
    bytes: Vec<u8>,
}

/// Compares the table of the input of this name with the file at a path.
fn compared<R: Read + Drop>(
    rt: &HostRuntime,
    progress: &Progress<'_>,
    wanted: &mut Wanted,
    (name, path): (&str, &str),
    reader: R,
) -> ExitCode {
    let picture = match picture_at(rt, name, path) {
        Ok(picture) => picture,
        Err(code) => return code,
    };
    let mut source = ReadSource::new(Watched {
        inner: reader,
        progress,
    });
    let mut input = Vec::new(rt.alloc());
    let compared = compare(rt.alloc(), wanted, &mut source, &picture.bytes, &mut input);
    progress.end();
    finished_check(rt, wanted, (name, picture.name.as_str()), &input, compared)
}

/// Ends a run that compared the table of the first name with the file of the second.
fn finished_check(
    rt: &HostRuntime,
    wanted: &mut Wanted,
    names: (&str, &str),
    input: &[u8],
    compared: Result<(End, Option<Difference>), RunFault>,
) -> ExitCode
    // Where a picture differs it has 1. An input that has no table differs from none.
    ensures { MatchResult compared (λ found. (code : ℕ)
        × HasStatus found.0 wanted.old.witness code
        × (exit_status result
        ≡ (if nat_eq (end_status found.0) 0 && is_some found.1 then 1 else code)))
        (λ _. exit_status result ≡ 3) }
{
    match compared {
        Ok((end, difference)) => {
            let code = ended(rt, wanted, names.0, input, end);
            judged(rt, code, names, end, difference)
        }
        Err(reason) => fault(rt, names.0, reason, false),
    }
}

/// The file at a path, or the status where it is not read. The name is that of the input.
fn picture_at(rt: &HostRuntime, name: &str, path: &str) -> Result<Picture, ExitCode>
    ensures { IfErr result (λ code. exit_status code ≡ 3) }
{
    let file = match File::open(rt, path) {
        Ok(file) => file,
        Err(error) => return Err(unopened(rt, rt.alloc(), path, &error)),
    };
    let Ok(shown_name) = shown(rt.alloc(), path) else {
        return Err(fault(rt, name, RunFault::Memory, false));
    };
    let mut source = ReadSource::new(file);
    match read_all(rt.alloc(), &mut source) {
        Ok(bytes) => Ok(Picture {
            name: shown_name,
            bytes,
        }),
        Err(reason) => Err(fault(rt, shown_name.as_str(), reason, false)),
    }
}

/// Says where the picture of the second name differs from the table of the first, if it does. Else the status stays.
fn judged(
    rt: &HostRuntime,
    code: ExitCode,
    names: (&str, &str),
    end: End,
    difference: Option<Difference>,
) -> ExitCode
    // An input that has no table differs from no picture.
    ensures { exit_status result ≡ (if nat_eq (end_status end) 0 && is_some difference then 1
        else exit_status code) }
{
    let (name, picture) = names;
    match difference {
        Some(Difference { line, column }) if is_drawn(end) => {
            let _ = eprintln!(rt;
                "{picture}: line {line}, column {column}: differs from the table of {name} (--check)"
            );
            ExitCode::from(1)
        }
        _ => code,
    }
}

/// Whether a picture was written.
fn is_drawn(end: End) -> bool
    ensures { result ≡ nat_eq (end_status end) 0 }
{
    matches!(
        end,
        End::OfText(CsvEnd::Drawn)
            | End::OfScript(RunEnd::Done)
            | End::OfDocument(DocumentEnd::Drawn)
    )
}

/// Says what kept the table from being drawn, or which cells show that it is no smaller, where that is asked.
fn ended(rt: &HostRuntime, wanted: &mut Wanted, name: &str, input: &[u8], end: End) -> ExitCode
    // Where there is no memory for what is said, it is a fault.
    ensures { HasStatus end wanted.old.witness (exit_status result) }
{
    if is_drawn(end) && !wanted.witness {
        return ExitCode::from(0);
    }
    let said = match end {
        End::OfText(CsvEnd::Drawn) => witness_of_text(rt.alloc(), &wanted.request, input),
        End::OfText(end) => said_of_text(rt.alloc(), wanted, name, input, end),
        End::OfScript(RunEnd::Done) => {
            witness_of_script(rt.alloc(), wanted.request.sizing, input)
        }
        End::OfScript(_) => said_of_script(rt.alloc(), wanted, input),
        End::OfDocument(end) => said_of_document(rt.alloc(), name, input, end),
    };
    match said {
        Ok(text) => {
            let text = text.as_str();
            let _ = eprintln!(rt; "{text}");
            code_of(rt, name, end)
        }
        Err(_) => fault(rt, name, RunFault::Memory, false),
    }
}

/// What keeps a text from its picture.
fn said_of_text(
    alloc: Global,
    wanted: &mut Wanted,
    name: &str,
    text: &[u8],
    end: CsvEnd,
) -> Result<String, AllocError> {
    match (wanted.width, end) {
        (Some(most), CsvEnd::TooWide(width)) => no_cut_fits(alloc, name, most, width),
        _ => message_of_text(alloc, &mut wanted.request, name, text, end),
    }
}

/// What keeps a script from its picture. Where it has sizes, it's the spans.
fn said_of_script(alloc: Global, wanted: &Wanted, script: &[u8]) -> Result<String, AllocError> {
    match message_of(alloc, wanted.request.sizing, script)? {
        Some(text) => Ok(text),
        None => String::from_str(alloc, UNTILED),
    }
}

/// The status of a run that ended so.
fn code_of(rt: &HostRuntime, name: &str, end: End) -> ExitCode
    ensures { exit_status result ≡ end_status end }
{
    match end {
        End::OfScript(end) => status(rt, name, Ok(end), false),
        End::OfText(CsvEnd::Drawn) | End::OfDocument(DocumentEnd::Drawn) => ExitCode::from(0),
        End::OfDocument(DocumentEnd::Refused(_)) => ExitCode::from(1),
        End::OfText(CsvEnd::Refused(_) | CsvEnd::TooWide(_) | CsvEnd::Hides(_)) => {
            ExitCode::from(1)
        }
        End::OfText(_) | End::OfDocument(DocumentEnd::Bad) => ExitCode::from(2),
    }
}
