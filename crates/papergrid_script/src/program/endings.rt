//! How a program ends.

ghost use Rattle.std.specs.Prelude.{◌≡◌, ◌⊎◌};
ghost use Rattle.std.specs.Process.{exit_status};
ghost use Rattle.papergrid_script.specs.Statuses.{run_status};

use crate::answer::RunEnd;
use crate::program::arguments::Unexpected;
use crate::program::names::{not_an_option, shown};
use crate::program::output::Output;
use crate::reading::RunFault;
use std::alloc::{AllocError, Global};
use std::io;
use std::io::{ErrorKind, Write};
use std::process::ExitCode;

/// The status of a run over the named input that ended so. A fault is named, unless nobody reads the output any more.
pub fn status(
    rt: &HostRuntime,
    input: &str,
    end: Result<RunEnd, RunFault>,
    is_closed: bool,
) -> ExitCode
    ensures { exit_status result ≡ run_status end }
{
    match end {
        Ok(RunEnd::Done) => ExitCode::from(0),
        Ok(RunEnd::Refused) => ExitCode::from(1),
        Ok(RunEnd::BadScript) => ExitCode::from(2),
        Err(reason) => fault(rt, input, reason, is_closed),
    }
}

/// Writes a text on standard output.
pub fn told(rt: &HostRuntime, text: &str) -> ExitCode
    ensures { (exit_status result ≡ 0) ⊎ (exit_status result ≡ 3) }
{
    let mut output = Output::new(rt.stdout());
    let is_written = output.write_all(text.as_bytes()).is_ok() && output.flush().is_ok();
    if is_written {
        return ExitCode::from(0);
    }
    fault(rt, "", RunFault::Write, output.is_closed())
}

// Where even a line on standard error cannot be written, the status still tells.

/// Names the fault of a run over the named input, unless nobody reads the output any more.
pub fn fault(rt: &impl Eprint, input: &str, reason: RunFault, is_closed: bool) -> ExitCode
    ensures { exit_status result ≡ 3 }
{
    match reason {
        RunFault::Memory => {
            let _ = eprintln!(rt; "fault: memory");
        }
        RunFault::Read => {
            let _ = eprintln!(rt; "{input}: can't be read");
        }
        RunFault::Write if is_closed => {}
        RunFault::Write => {
            let _ = eprintln!(rt; "fault: write");
        }
    }
    ExitCode::from(3)
}

/// Names the file that can't be opened.
pub fn unopened(rt: &impl Eprint, alloc: Global, path: &str, error: &io::Error) -> ExitCode
    ensures { exit_status result ≡ 3 }
{
    match shown(alloc, path) {
        Ok(name) if error.kind() == ErrorKind::NotFound => {
            let _ = eprintln!(rt; "{name}: no such file");
        }
        Ok(name) => {
            let _ = eprintln!(rt; "{name}: {error}");
        }
        Err(_) => return fault(rt, path, RunFault::Memory, false),
    }
    ExitCode::from(3)
}

/// Names the argument that isn't taken, and says what is, by the names of the options or in words.
pub fn unexpected(
    rt: &impl Eprint,
    alloc: Global,
    argument: Unexpected,
    names: &[&str],
    takes: &str,
) -> ExitCode
    ensures { (exit_status result ≡ 2) ⊎ (exit_status result ≡ 3) }
{
    match unexpected_text(alloc, argument, names, takes) {
        Ok(text) => {
            let _ = eprintln!(rt; "{text}");
            ExitCode::from(2)
        }
        Err(_) => fault(rt, "", RunFault::Memory, false),
    }
}

fn unexpected_text(
    alloc: Global,
    argument: Unexpected,
    names: &[&str],
    takes: &str,
) -> Result<String, AllocError> {
    match argument {
        Unexpected::NoOption(word) => not_an_option(alloc, word.as_str(), names),
        Unexpected::Another(word) => {
            let word = word.as_str();
            format!(in alloc; "unexpected argument {word:?}; {takes}")
        }
    }
}

/// Says why the arguments can't be read: one is no text, or an allocation failed.
pub fn unread_words(rt: &impl Eprint, error: &io::Error, takes: &str) -> ExitCode
    ensures { (exit_status result ≡ 2) ⊎ (exit_status result ≡ 3) }
{
    if error.kind() == ErrorKind::InvalidData {
        let _ = eprintln!(rt; "an argument is not UTF-8; {takes}");
        return ExitCode::from(2);
    }
    fault(rt, "", RunFault::Memory, false)
}
