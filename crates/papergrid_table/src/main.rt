//! Reads a CSV text, a TSV text, a JSON document or a script from a file or on standard input, and draws its table on standard output.
#![tactic(auto)]

mod arguments;
mod chosen;
mod compared;
mod document;
mod help;
mod help_json;
mod messages;
mod options;
mod picture;
mod places;
mod progress;
mod rows;
mod run;
mod spans;
mod styles;
mod values;
mod wide;
mod witness;

use arguments::{Misuse, Wanted, asked_for};
use help::help_text;
use help_json::json_help_text;
use options::option_names;
use papergrid::RunFault;
use papergrid_script::program::{
    Request as Asked, STANDARD_INPUT, fault, shown, told, unexpected, unopened, unread_words,
};
use run::answered_from;
use std::alloc::AllocError;
use std::env;
use std::fs::File;
use std::io::IsTerminal;
use std::process::ExitCode;

/// What the arguments may be.
const TAKES: &str = "papergrid_table takes options and one FILE; --help tells all";

/// Ends with status 0 where the table was drawn, 1 where it is refused, 2 where the input is bad or an argument
/// is not taken, and 3 at a fault. What went wrong is written to standard error.
fn main(rt: HostRuntime) -> ExitCode {
    let mut words = match env::args(&rt) {
        Ok(words) => words,
        Err(error) => return unread_words(&rt, &error, TAKES),
    };
    // The first word is the program's name.
    let _ = words.next();
    match asked_for(rt.alloc(), words) {
        Ok((asked, wanted)) => answered(&rt, &asked, wanted),
        Err(Misuse::Said(text)) => {
            let _ = eprintln!(rt; "{text}");
            ExitCode::from(2)
        }
        Err(Misuse::Unexpected(argument)) => {
            unexpected(&rt, rt.alloc(), argument, &option_names(), TAKES)
        }
        Err(Misuse::Memory) => fault(&rt, "", RunFault::Memory, false),
    }
}

/// Does what is asked for.
fn answered(rt: &HostRuntime, asked: &Asked, wanted: Wanted) -> ExitCode {
    if wanted.explains_json {
        return explained(rt, json_help_text(rt.alloc()));
    }
    match asked {
        Asked::OfInput => {
            let input = rt.stdin();
            let is_typed = input.is_terminal();
            answered_from(rt, wanted, STANDARD_INPUT, input, is_typed)
        }
        Asked::OfFile(path) => table_of_file(rt, wanted, path.as_str()),
        Asked::Help => explained(rt, help_text(rt.alloc())),
        Asked::Version => told(rt, "papergrid_table 0.18.0\n"),
    }
}

/// Writes what the program says of itself.
fn explained(rt: &HostRuntime, text: Result<String, AllocError>) -> ExitCode {
    match text {
        Ok(text) => told(rt, text.as_str()),
        Err(_) => fault(rt, "", RunFault::Memory, false),
    }
}

/// Answers the input in a file.
fn table_of_file(rt: &HostRuntime, wanted: Wanted, path: &str) -> ExitCode {
    let file = match File::open(rt, path) {
        Ok(file) => file,
        Err(error) => return unopened(rt, rt.alloc(), path, &error),
    };
    match shown(rt.alloc(), path) {
        Ok(name) => answered_from(rt, wanted, name.as_str(), file, false),
        Err(_) => fault(rt, path, RunFault::Memory, false),
    }
}
