//! Counts of long runs, and what measured texts keep where they are moved, cloned, compared and hashed.

use crate::tests::refused::with_clone;
use papergrid_text::string::{Lines, count_lines, get_lines};
use papergrid_text::{Cell, StrWithWidth, Text, count_byte};
use std::alloc::{AllocError, Global};
use std::borrow::CowStr;
use std::cmp::Ordering;
use std::convert::AsStr;
use std::hash::{DefaultHasher, Hash, Hasher};
use std::iter::Iterator;

fn are_counted(alloc: Global) -> Result<bool, AllocError> {
    let mut newlines = String::new(alloc);
    let mut are = true;
    for count in 0..66usize {
        are = are && is_counted(newlines.as_str(), count);
        newlines.push('\n')?;
    }
    Ok(are)
}

fn is_counted(newlines: &str, count: usize) -> bool {
    count_byte(newlines.as_bytes(), b'\n') == count && count_lines(newlines) == count + 1
}

fn is_next(lines: &mut Lines<'_>, line: Option<&str>) -> bool {
    lines.next() == line
}

// The lines stay at their end.
#[test]
fn lines_end(rt: HostRuntime) {
    let mut lines = get_lines("\na\n");
    let are_lines = is_next(&mut lines, Some(""))
        && is_next(&mut lines, Some("a"))
        && is_next(&mut lines, Some(""));
    assert!(rt; are_lines && is_next(&mut lines, None) && is_next(&mut lines, None));
}

/// A text of two lines that was measured.
fn measured(alloc: Global) -> Result<Text<String>, AllocError> {
    Text::new(alloc, String::from_str(alloc, "a\nbc")?)
}

/// The line `bc`, as a text of its own.
fn owned_line(alloc: Global) -> Result<StrWithWidth<'static>, AllocError> {
    Ok(StrWithWidth::new(CowStr::Owned(String::from_str(alloc, "bc")?), 2))
}

/// The lines `a` and `bc`, as texts of their own.
pub fn given_lines(alloc: Global) -> Result<Vec<StrWithWidth<'static>>, AllocError> {
    let mut lines = Vec::new(alloc);
    lines.push(StrWithWidth::new(CowStr::Borrowed("a"), 1))?;
    lines.push(owned_line(alloc)?)?;
    Ok(lines)
}

fn is_kept(text: &Text<String>) -> bool {
    text.count_lines() == 2
        && text.line(1) == "bc"
        && text.line_width(1) == 2
        && text.as_str() == "a\nbc"
}

fn is_moved_and_cloned(alloc: Global) -> Result<bool, AllocError> {
    let (moved, copy) = with_clone(measured(alloc))?;
    Ok(is_kept(&moved) && is_kept(&copy))
}

fn is_cloned(text: &Text<&'static str>) -> Result<bool, AllocError> {
    let copy = text.clone()?;
    Ok(copy == *text)
}

fn is_shown(alloc: Global, text: &Text<&'static str>, as_text: &str) -> Result<bool, AllocError> {
    let shown = format!(in alloc; "{text}")?;
    Ok(shown.as_str() == as_text)
}

fn is_exact(alloc: Global) -> Result<bool, AllocError> {
    let exact = Text::exact("ab", 7, Vec::new(alloc));
    let is_same = is_cloned(&exact)? & is_shown(alloc, &exact, "ab")?;
    Ok(is_same & (exact.into_inner() == "ab"))
}

fn hash_of<T: Hash>(value: &T) -> u64 {
    let mut state = DefaultHasher::new();
    value.hash(&mut state);
    state.finish()
}

/// The same text as one of these lines.
fn exact(alloc: Global, lines: Vec<StrWithWidth<'static>>) -> Result<Text<String>, AllocError> {
    Ok(Text::exact(String::from_str(alloc, "a\nbc")?, 2, lines))
}

fn are_alike<T: Hash + Ord + Drop>(text: &T, other: T) -> bool {
    *text == other && text.cmp(&other) == Ordering::Equal && hash_of(text) == hash_of(&other)
}

fn is_less<T: PartialOrd + Drop>(text: T, other: &T) -> bool {
    text < *other && text != *other
}

fn is_alike_exact(alloc: Global, text: &Text<String>) -> Result<bool, AllocError> {
    Ok(are_alike(text, exact(alloc, given_lines(alloc)?)?))
}

fn is_more_than_none(alloc: Global, text: &Text<String>) -> Result<bool, AllocError> {
    Ok(is_less(exact(alloc, Vec::new(alloc))?, text))
}

fn is_new_exact(alloc: Global) -> Result<bool, AllocError> {
    let first = measured(alloc)?;
    Ok(is_alike_exact(alloc, &first)? & is_more_than_none(alloc, &first)?)
}

/// The line `bc` of such a width, which is lent.
fn lent_line(width: usize) -> StrWithWidth<'static> {
    StrWithWidth::new(CowStr::Borrowed("bc"), width)
}

fn is_as_owned(alloc: Global) -> Result<bool, AllocError> {
    Ok(lent_line(2) == owned_line(alloc)?)
}

fn is_copy_narrower() -> Result<bool, AllocError> {
    Ok(is_less(lent_line(2).clone()?, &lent_line(3)))
}

#[test]
fn measured_texts(rt: HostRuntime) {
    let alloc = rt.alloc();
    assert!(rt; are_counted(alloc) == Ok(true));
    assert!(rt; is_moved_and_cloned(alloc) == Ok(true));
    assert!(rt; is_exact(alloc) == Ok(true));
    assert!(rt; is_new_exact(alloc) == Ok(true));
    assert!(rt; is_as_owned(alloc) == Ok(true));
    assert!(rt; is_copy_narrower() == Ok(true));
}
