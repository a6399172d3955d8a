//! Calls of the facade that allocate, for `tests/refuse-each`, as those of `papergrid_layout_checks`: where a request is
//! refused to a call, the test ends with `refused` and the number of the call.

use crate::tests::layouts::{PICTURE, picture_settings, widths_of};
use crate::tests::scripts::EXAMPLES;
use papergrid::dimension::LayoutError;
use papergrid::{Sizing, explain};
use std::alloc::{AllocError, Global};
use std::process::Abort;
use std::test::Fail;

/// What a test of so many calls ends with by the answer of one.
fn says<A: Drop>(number: usize, of: usize, answer: Result<A, AllocError>) -> Result<(), Fail> {
    match answer {
        Ok(_) => Ok(()),
        Err(AllocError) => Err(Fail::new(format_args!("refused: call {number} of {of}"))),
    }
}

/// What the test ends with by the layout of the picture, which has sizes.
fn lays_out(rt: &(impl Abort + AllocGlobal), number: usize, sizing: Sizing) -> Result<(), Fail> {
    let settings = picture_settings(rt.alloc())?;
    match widths_of(rt.alloc(), sizing, settings, 4, &PICTURE) {
        Ok(Some(_)) => Ok(()),
        Ok(None) => panic!(rt; "a setting is out of range, or a row is not one line high"),
        Err(LayoutError::Memory(error)) => says(number, 2, Err::<(), AllocError>(error)),
        Err(error) => panic!(rt; "{error:?}"),
    }
}

#[test]
fn layouts(rt: HostRuntime) -> Result<(), Fail> {
    lays_out(&rt, 1, Sizing::ByShares)?;
    lays_out(&rt, 2, Sizing::Least)
}

/// A script that has sizes, and to know that allocates.
#[test]
fn explain_of_picture(rt: HostRuntime) -> Result<(), Fail> {
    let [(script, reason), ..] = EXAMPLES;
    let answer = explain(rt.alloc(), Sizing::ByShares, script);
    assert!(rt; answer == Ok(reason) || answer == Err(AllocError));
    says(1, 1, answer)
}
