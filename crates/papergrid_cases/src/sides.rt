//! Indents, offsets, colours and alignments, as they are read.

use crate::marks::Marked;
use crate::reading::Words;
use papergrid_values::{
    ANSIBuf, ANSIStr, AlignmentHorizontal, AlignmentVertical, Indent, Offset, Sides,
};

const HORIZONTAL: [(&str, AlignmentHorizontal); 3] = [
    ("Left", AlignmentHorizontal::Left),
    ("Center", AlignmentHorizontal::Center),
    ("Right", AlignmentHorizontal::Right),
];

const VERTICAL: [(&str, AlignmentVertical); 3] = [
    ("Top", AlignmentVertical::Top),
    ("Center", AlignmentVertical::Center),
    ("Bottom", AlignmentVertical::Bottom),
];

/// What there is one of for each side.
pub trait Side {
    /// The next one of a line.
    fn next(words: &mut Words<'_>) -> Self;
}

/// A number of spaces, or of another character, as `3` or `3:.`.
impl Side for Indent {
    fn next(words: &mut Words<'_>) -> Indent {
        let word = words.word();
        let (size, fill) = word.split_once(':').unwrap_or((word, "\\s"));
        let fill = Words::new(words.alloc(), fill).character();
        Indent::new(words.number_of(size), fill)
    }
}

/// From the start or from the end: `+1` or `-1`.
impl Side for Offset {
    fn next(words: &mut Words<'_>) -> Offset {
        let word = words.word();
        if let Some(number) = word.strip_prefix('+') {
            return Offset::Start(words.number_of(number));
        }
        Offset::End(words.number_of(word.strip_prefix('-').unwrap_or("")))
    }
}

/// A mark.
impl Side for Option<ANSIBuf> {
    fn next(words: &mut Words<'_>) -> Option<ANSIBuf> {
        ANSIBuf::read(words)
    }
}

/// A mark, where `_` is the colour with no texts.
impl Side for ANSIStr<'static> {
    fn next(words: &mut Words<'_>) -> ANSIStr<'static> {
        match ANSIStr::read(words) {
            Some(style) => style,
            None => ANSIStr::empty(),
        }
    }
}

/// Left, right, top, bottom.
pub fn sides<T: Side>(words: &mut Words<'_>) -> Sides<T> {
    Sides {
        left: T::next(words),
        right: T::next(words),
        top: T::next(words),
        bottom: T::next(words),
    }
}

pub fn alignment_horizontal(words: &mut Words<'_>) -> AlignmentHorizontal {
    let left = AlignmentHorizontal::Left;
    words.named(&HORIZONTAL, "Left, Center or Right", left)
}

pub fn alignment_vertical(words: &mut Words<'_>) -> AlignmentVertical {
    let top = AlignmentVertical::Top;
    words.named(&VERTICAL, "Top, Center or Bottom", top)
}
