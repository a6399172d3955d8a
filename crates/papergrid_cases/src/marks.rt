//! Borders, frames and lines, as they are drawn: a mark for each part, and `_` where none is set.

use crate::reading::Words;
use papergrid_values::{ANSIBuf, ANSIStr, Border, Borders, HorizontalLine, VerticalLine};
use std::alloc::AllocError;

/// What a mark may stand for.
pub trait Marked: Lettered {
    /// What the next mark of a line stands for.
    fn read(words: &mut Words<'_>) -> Option<Self>;
}

/// What has a mark.
pub trait Lettered: Sized + Drop {
    /// The mark.
    fn letter(&self) -> char;
}

impl<T: Lettered> Lettered for &T {
    fn letter(&self) -> char {
        (**self).letter()
    }
}

impl Marked for char {
    fn read(words: &mut Words<'_>) -> Option<char> {
        words.mark()
    }
}

impl Lettered for char {
    fn letter(&self) -> char {
        *self
    }
}

/// The letter of a colour, and its texts before and after.
const STYLES: [(char, &str, &str); 17] = [
    ('r', "<red>", "</>"),
    ('b', "<blue>", "</>"),
    ('m', "m", "M"),
    ('p', "p", "P"),
    ('l', "l", "L"),
    ('a', "a", "z"),
    ('z', "z", ""),
    ('0', "", ""),
    ('R', "{r ", "}"),
    ('G', "{g ", "}"),
    ('B', "{b ", "}"),
    ('Y', "{y ", "}"),
    ('T', "{t ", "}"),
    ('S', "P", "S"),
    ('s', "P", "s"),
    ('e', "\u{1b}[31m", "\u{1b}[39m"),
    ('f', "\u{1b}[32m", "\u{1b}[39m"),
];

impl Marked for ANSIStr<'static> {
    fn read(words: &mut Words<'_>) -> Option<ANSIStr<'static>> {
        let letter = words.mark()?;
        for (known, prefix, suffix) in &STYLES {
            if *known == letter {
                return Some(ANSIStr::new(*prefix, *suffix));
            }
        }
        words.lacks("the letter of a colour");
        None
    }
}

impl Lettered for ANSIStr<'static> {
    fn letter(&self) -> char {
        letter_of(self.get_prefix(), self.get_suffix())
    }
}

impl Marked for ANSIBuf {
    fn read(words: &mut Words<'_>) -> Option<ANSIBuf> {
        let style = ANSIStr::read(words)?;
        match ANSIBuf::copy_of(words.alloc(), style) {
            Ok(color) => Some(color),
            Err(AllocError) => {
                words.lacks("memory");
                None
            }
        }
    }
}

impl Lettered for ANSIBuf {
    fn letter(&self) -> char {
        letter_of(self.get_prefix(), self.get_suffix())
    }
}

/// The letter of a colour by its texts, or `?`.
fn letter_of(before: &str, after: &str) -> char {
    for style in &STYLES {
        let (letter, prefix, suffix) = *style;
        if prefix == before && suffix == after {
            return letter;
        }
    }
    '?'
}

/// The colour of a letter.
pub fn color(words: &mut Words<'_>) -> Option<ANSIBuf> {
    let color = ANSIBuf::read(words);
    if color.is_none() {
        words.lacks("the letter of a colour");
    }
    color
}

/// The eight parts round a cell: three above it, two beside it, three below it.
pub fn border<T: Marked>(words: &mut Words<'_>) -> Border<T> {
    Border {
        left_top_corner: T::read(words),
        top: T::read(words),
        right_top_corner: T::read(words),
        left: T::read(words),
        right: T::read(words),
        left_bottom_corner: T::read(words),
        bottom: T::read(words),
        right_bottom_corner: T::read(words),
    }
}

/// The parts of a frame: four of the first line, three between lines, four of a line between rows, four of the last line.
pub fn frame<T: Marked>(words: &mut Words<'_>) -> Borders<T> {
    Borders {
        top_left: T::read(words),
        top: T::read(words),
        top_intersection: T::read(words),
        top_right: T::read(words),
        left: T::read(words),
        vertical: T::read(words),
        right: T::read(words),
        left_intersection: T::read(words),
        horizontal: T::read(words),
        intersection: T::read(words),
        right_intersection: T::read(words),
        bottom_left: T::read(words),
        bottom: T::read(words),
        bottom_intersection: T::read(words),
        bottom_right: T::read(words),
    }
}

/// Its left end, the line itself, where lines cross it, its right end.
pub fn horizontal_line(words: &mut Words<'_>) -> HorizontalLine<char> {
    HorizontalLine {
        left: words.mark(),
        main: words.mark(),
        intersection: words.mark(),
        right: words.mark(),
    }
}

/// Its upper end, the line itself, where lines cross it, its lower end.
pub fn vertical_line(words: &mut Words<'_>) -> VerticalLine<char> {
    VerticalLine {
        top: words.mark(),
        main: words.mark(),
        intersection: words.mark(),
        bottom: words.mark(),
    }
}
