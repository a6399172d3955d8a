//! Reads a script from a file or on standard input, and writes the sizes of its table on standard output.
#![tactic(auto)]

mod arguments;
mod help;
mod totals;

use arguments::{Wanted, asked_for};
use help::help_text;
use papergrid::{ReadSource, RunEnd, RunFault, Sizing, WriteSink, run_keeping};
use papergrid_script::program::{
    Output, Request, STANDARD_INPUT, fault, message_of, shown, status, told, unexpected, unopened,
    unread_words,
};
use std::env;
use std::fs::File;
use std::io::{Read, Write};
use std::process::ExitCode;
use totals::TotalsSink;

/// What the arguments may be.
const TAKES: &str = "papergrid_sizes takes --least, --total and one FILE, or --help, or --version";

/// The options.
const OPTIONS: [&str; 4] = ["--least", "--total", "--help", "--version"];

/// Ends with status 0 where the sizes were written, 1 where the table has none, 2 where the script has a
/// bad line or an argument is not taken, and 3 at a fault. What went wrong is written to standard error.
fn main(rt: HostRuntime) -> ExitCode {
    let mut words = match env::args(&rt) {
        Ok(words) => words,
        Err(error) => return unread_words(&rt, &error, TAKES),
    };
    // The first word is the program's name.
    let _ = words.next();
    match asked_for(words) {
        Ok((request, wanted)) => answered(&rt, request, wanted),
        Err(argument) => unexpected(&rt, rt.alloc(), argument, &OPTIONS, TAKES),
    }
}

/// Does what is asked for.
fn answered(rt: &HostRuntime, request: Request, wanted: Wanted) -> ExitCode {
    match request {
        Request::OfInput => answered_from(rt, wanted, STANDARD_INPUT, rt.stdin()),
        Request::OfFile(path) => sizes_of_file(rt, wanted, path.as_str()),
        Request::Help => match help_text(rt.alloc()) {
            Ok(text) => told(rt, text.as_str()),
            Err(_) => fault(rt, "", RunFault::Memory, false),
        },
        Request::Version => told(rt, "papergrid_sizes 0.18.0\n"),
    }
}

/// Answers the script that is read from the named input, and says what keeps it from having sizes.
fn answered_from<R: Read + Drop>(
    rt: &HostRuntime,
    wanted: Wanted,
    name: &str,
    reader: R,
) -> ExitCode {
    let mut script = Vec::new(rt.alloc());
    let mut output = Output::new(rt.stdout());
    let end = sizes(rt, wanted, reader, &mut output, &mut script);
    if end == Ok(RunEnd::Refused) || end == Ok(RunEnd::BadScript) {
        say_why(rt, wanted.sizing, &script);
    }
    status(rt, name, end, output.is_closed())
}

/// Writes the sizes of the script that is read, keeps the script, and answers how that ended.
fn sizes<R: Read + Drop, W: Write + Drop>(
    rt: &HostRuntime,
    wanted: Wanted,
    reader: R,
    output: &mut W,
    script: &mut Vec<u8>,
) -> Result<RunEnd, RunFault> {
    let mut source = ReadSource::new(reader);
    let mut writer = WriteSink::new(&mut *output);
    let end = if wanted.only_totals {
        let mut totals = TotalsSink { sink: writer };
        run_keeping(rt.alloc(), wanted.sizing, &mut source, &mut totals, script)?
    } else {
        run_keeping(rt.alloc(), wanted.sizing, &mut source, &mut writer, script)?
    };
    match output.flush() {
        Ok(()) => Ok(end),
        Err(_) => Err(RunFault::Write),
    }
}

/// Answers the script in a file.
fn sizes_of_file(rt: &HostRuntime, wanted: Wanted, path: &str) -> ExitCode {
    let file = match File::open(rt, path) {
        Ok(file) => file,
        Err(error) => return unopened(rt, rt.alloc(), path, &error),
    };
    match shown(rt.alloc(), path) {
        Ok(name) => answered_from(rt, wanted, name.as_str(), file),
        Err(_) => fault(rt, path, RunFault::Memory, false),
    }
}

/// Says why a script has no sizes that are chosen so.
fn say_why(rt: &HostRuntime, sizing: Sizing, script: &[u8]) {
    if let Ok(Some(text)) = message_of(rt.alloc(), sizing, script) {
        let _ = eprintln!(rt; "{text}");
    }
}
