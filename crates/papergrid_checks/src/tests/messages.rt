//! What errors say, as the guide has it.

use crate::errors::first_place;
use crate::tests::rows_of;
use anyhow::Error;
use papergrid::RunFault;
use papergrid::config::Position;
use papergrid::config::spanned::{Setting, Stopped};
use papergrid::dimension::{LayoutError, PlaceError};
use std::alloc::{AllocError, Global};
use std::fmt::Display;

/// Whether an error has these words.
fn says<E: Display + Drop>(alloc: Global, error: E, words: &str) -> bool {
    let said: Result<String, AllocError> = format!(in alloc; "{error}");
    said.is_ok_and(|text| text.as_str() == words)
}

#[test]
fn of_sizes(rt: HostRuntime) {
    let (alloc, out) = (rt.alloc(), LayoutError::OutOfTable(Position::new(1, 0)));
    assert!(rt;
        says(
            alloc,
            out,
            "the cell at row 1, column 0 reaches out of the table"
        ) && says(
            alloc,
            LayoutError::TooLarge,
            "the table is too large for 64 bits"
        ) && says(alloc, LayoutError::Memory(AllocError), "out of memory")
    );
}

#[test]
fn of_places(rt: HostRuntime) {
    let alloc = rt.alloc();
    assert!(rt;
        says(
            alloc,
            PlaceError::Hidden,
            "the cell is hidden by the span of another one"
        ) && says(
            alloc,
            PlaceError::OutOfTable,
            "the cell reaches out of the table"
        ) && says(
            alloc,
            PlaceError::TooLarge,
            "the table is too large for 64 bits"
        )
    );
}

#[test]
fn of_lists_and_runs(rt: HostRuntime) {
    let (alloc, stopped) = (rt.alloc(), Stopped { done: 2 });
    assert!(rt;
        says(alloc, stopped, "out of memory after 2 of the calls")
            && says(alloc, RunFault::Memory, "out of memory")
            && says(alloc, RunFault::Read, "the input can't be read")
            && says(alloc, RunFault::Write, "the output can't be written")
    );
}

/// Whether these are the words that are said of a row of two texts where the cell at a position spans so many columns.
fn says_of_span(
    alloc: Global,
    position: Position,
    span: usize,
    words: &str,
) -> Result<bool, AllocError> {
    let rows = rows_of(alloc, &[&["one", "two"]])?;
    let settings = vec![in alloc; Setting::SetColumnSpan(position, span)]?;
    let refused = first_place(alloc, settings, &rows).err();
    Ok(refused.is_some_and(|error| says_with_context(alloc, error, words)))
}

/// Whether an error with what it is about has these words.
fn says_with_context(alloc: Global, error: Error, words: &str) -> bool {
    let said: Result<String, AllocError> = format!(in alloc; "{error:#}");
    said.is_ok_and(|text| text.as_str() == words)
}

#[test]
fn with_context(rt: HostRuntime) {
    let second = Position::new(0, 1);
    let words = "no sizes: the cell at row 0, column 1 reaches out of the table";
    assert!(rt; says_of_span(rt.alloc(), second, 3, words) == Ok(true));
}
