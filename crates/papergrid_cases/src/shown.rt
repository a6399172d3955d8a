//! Values as answers, spelled as they are read.

use crate::answer::Answer;
use crate::marks::Lettered;
use crate::reading::Words;
use crate::running::Outcome;
use crate::size_questions::Shown;
use papergrid_values::{
    ANSIBuf, AlignmentHorizontal, AlignmentVertical, Border, Borders, HorizontalLine, Indent,
    Offset, Position, Sides, VerticalLine,
};
use std::alloc::AllocError;
use std::collections::HashMap;

impl Answer {
    /// The eight parts round a cell: three above it, two beside it, three below it.
    pub fn border<T: Lettered>(&mut self, border: &Border<T>) {
        let (left, right) = (&border.left_top_corner, &border.right_top_corner);
        self.parts(&[left, &border.top, right]);
        self.parts(&[&border.left, &border.right]);
        let (left, right) = (&border.left_bottom_corner, &border.right_bottom_corner);
        self.parts(&[left, &border.bottom, right]);
    }

    /// The parts of a frame, as they are read.
    pub fn frame<T: Lettered>(&mut self, frame: &Borders<T>) {
        let (left, right) = (&frame.top_left, &frame.top_right);
        self.parts(&[left, &frame.top, &frame.top_intersection, right]);
        self.parts(&[&frame.left, &frame.vertical, &frame.right]);
        let (left, right) = (&frame.left_intersection, &frame.right_intersection);
        self.parts(&[left, &frame.horizontal, &frame.intersection, right]);
        let (left, right) = (&frame.bottom_left, &frame.bottom_right);
        self.parts(&[left, &frame.bottom, &frame.bottom_intersection, right]);
    }

    pub fn line<T: Shown>(&mut self, line: Option<&T>) {
        match line {
            Some(line) => line.show(self),
            None => self.word("none"),
        }
    }

    /// Left, right, top, bottom: a size each, and its character where that isn't a space.
    pub fn indents(&mut self, sides: &Sides<Indent>) {
        for indent in [sides.left, sides.right, sides.top, sides.bottom] {
            self.number(indent.size);
            if indent.fill != ' ' {
                self.push(":");
                self.spelled(indent.fill, ' ');
            }
        }
    }

    pub fn offsets(&mut self, sides: &Sides<Offset>) {
        for offset in [sides.left, sides.right, sides.top, sides.bottom] {
            self.offset(offset);
        }
    }

    pub fn offset(&mut self, offset: Offset) {
        let (sign, number) = match offset {
            Offset::Start(number) => ("+", number),
            Offset::End(number) => ("-", number),
        };
        self.word(sign);
        self.digits(number);
    }

    /// A word of a mark for each side.
    pub fn sides<T: Lettered>(&mut self, sides: &Sides<T>) {
        self.space();
        self.part(Some(&sides.left));
        self.part(Some(&sides.right));
        self.part(Some(&sides.top));
        self.part(Some(&sides.bottom));
    }

    /// A mark for each colour.
    pub fn colors(&mut self, colors: [Option<&ANSIBuf>; 4]) {
        for color in colors {
            self.mark(color);
        }
    }

    pub fn alignment_horizontal(&mut self, alignment: AlignmentHorizontal) {
        self.word(match alignment {
            AlignmentHorizontal::Left => "Left",
            AlignmentHorizontal::Center => "Center",
            AlignmentHorizontal::Right => "Right",
        });
    }

    pub fn alignment_vertical(&mut self, alignment: AlignmentVertical) {
        self.word(match alignment {
            AlignmentVertical::Top => "Top",
            AlignmentVertical::Center => "Center",
            AlignmentVertical::Bottom => "Bottom",
        });
    }

    /// How many spans are found, and the one of the position that the line names, if it names one: so in the next one.
    pub fn spans(
        &mut self,
        found: Result<HashMap<Position, usize>, AllocError>,
        words: &mut Words<'_>,
    ) -> Outcome {
        let spans = found?;
        self.number(spans.len());
        if !words.is_empty() {
            self.found_number(spans.get(&words.position()).copied());
        }
        Ok(())
    }

    pub fn lines<T: Shown>(
        &mut self,
        found: Result<HashMap<usize, T>, AllocError>,
        words: &mut Words<'_>,
    ) -> Outcome {
        let lines = found?;
        self.number(lines.len());
        if !words.is_empty() {
            self.line(lines.get(&words.number()));
        }
        Ok(())
    }
}

impl Shown for HorizontalLine<char> {
    fn show(&self, answer: &mut Answer) {
        answer.parts(&[&self.left, &self.main, &self.intersection, &self.right]);
    }
}

impl Shown for VerticalLine<char> {
    fn show(&self, answer: &mut Answer) {
        answer.parts(&[&self.top, &self.main, &self.intersection, &self.bottom]);
    }
}
