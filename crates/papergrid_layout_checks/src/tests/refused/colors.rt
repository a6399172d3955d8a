//! Colours, and what is made of them.

use super::{clones, color, says};
use papergrid_values::{ANSIBuf, Border, Borders, HorizontalLine, Sides, VerticalLine};
use std::alloc::{AllocError, Global};
use std::test::Fail;

#[test]
fn colors(rt: HostRuntime) -> Result<(), Fail> {
    let alloc = rt.alloc();
    says((1, 4), ANSIBuf::new(alloc, "<red>", "</>"))?;
    let color = color(alloc)?;
    says((2, 4), ANSIBuf::copy_of(alloc, color.as_ref()))?;
    says((3, 4), Border::filled(&color).cloned())?;
    clones(&rt, (4, 4), Ok(color))
}

fn two(alloc: Global) -> Result<(Option<ANSIBuf>, Option<ANSIBuf>), AllocError> {
    Ok((Some(color(alloc)?), Some(color(alloc)?)))
}

pub fn frame(alloc: Global) -> Result<Borders<ANSIBuf>, AllocError> {
    let (top, right_intersection) = two(alloc)?;
    let mut frame = Borders::empty();
    frame.top = top;
    frame.right_intersection = right_intersection;
    Ok(frame)
}

pub fn sides(alloc: Global) -> Result<Sides<Option<ANSIBuf>>, AllocError> {
    let (left, top) = two(alloc)?;
    Ok(Sides::new(left, None, top, None))
}

fn border(alloc: Global) -> Result<Border<ANSIBuf>, AllocError> {
    Border::filled(&color(alloc)?).cloned()
}

pub fn horizontal_line(alloc: Global) -> Result<HorizontalLine<ANSIBuf>, AllocError> {
    let (main, right) = two(alloc)?;
    Ok(HorizontalLine::new(main, None, None, right))
}

fn vertical_line(alloc: Global) -> Result<VerticalLine<ANSIBuf>, AllocError> {
    let (main, bottom) = two(alloc)?;
    Ok(VerticalLine::new(main, None, None, bottom))
}

/// Clones of what is made of two colours.
#[test]
fn of_two(rt: HostRuntime) -> Result<(), Fail> {
    let alloc = rt.alloc();
    clones(&rt, (1, 5), sides(alloc))?;
    clones(&rt, (2, 5), border(alloc))?;
    clones(&rt, (3, 5), frame(alloc))?;
    clones(&rt, (4, 5), horizontal_line(alloc))?;
    clones(&rt, (5, 5), vertical_line(alloc))
}
