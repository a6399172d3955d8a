//! Calls that allocate and that `tests/refused-calls.txt` does not tell. Where no request is refused, each test passes.
//! Where one is refused to a call that a test is about, the test ends with `refused` and the number of the call, once
//! what the call changes equals its clone of before. Where one is refused to what is made for a call, it ends with
//! `AllocError`. `tests/refuse-each` refuses each request of each test, and sees that each call was refused something.

pub mod colors;
mod estimates;
mod map_calls;
mod records;
mod settings;

use papergrid_values::ANSIBuf;
use std::alloc::{AllocError, Global};
use std::process::Abort;
use std::test::Fail;

/// The number of a call among those that a test is about, from 1 on, and how many they are.
type CallNumber = (usize, usize);

/// The one call of a test.
const ONLY: CallNumber = (1, 1);

/// What a test ends with by the answer of a call.
fn says<A: Drop>(call: CallNumber, answer: Result<A, AllocError>) -> Result<(), Fail> {
    match answer {
        Ok(_) => Ok(()),
        Err(AllocError) => {
            let (number, of) = call;
            Err(Fail::new(format_args!("refused: call {number} of {of}")))
        }
    }
}

/// The same of a call that leaves a value, which has to equal the one of before where an allocation
/// failed.
fn keeps<T: PartialEq + Drop, A: Drop>(
    rt: &impl Abort,
    call: CallNumber,
    value: T,
    before: T,
    answer: Result<A, AllocError>,
) -> Result<(), Fail> {
    assert!(rt; answer.is_ok() || value == before);
    says(call, answer)
}

/// A value that is made, and its clone.
pub fn with_clone<T: Clone + Drop>(made: Result<T, AllocError>) -> Result<(T, T), AllocError> {
    let value = made?;
    let copy = value.clone()?;
    Ok((value, copy))
}

/// What a test ends with that clones a value, which is made for it.
fn clones<T: Clone + PartialEq + Drop>(
    rt: &impl Abort,
    call: CallNumber,
    made: Result<T, AllocError>,
) -> Result<(), Fail> {
    let (value, before) = with_clone(made)?;
    let copy: Result<T, AllocError> = value.clone();
    keeps(rt, call, value, before, copy)
}

/// A colour that owns its texts.
pub fn color(alloc: Global) -> Result<ANSIBuf, AllocError> {
    ANSIBuf::new(alloc, "<red>", "</>")
}
