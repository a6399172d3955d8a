//! Cases of values and of texts, which are asked for by themselves: nothing is kept from line to line.

use crate::answer::Answer;
use crate::marks::{border, frame};
use crate::reading::Words;
use crate::running::{Outcome, Subject};
use crate::text_questions::ask_text;
use papergrid_values::{Border, Borders, Offset};
use std::alloc::Global;

/// Nothing is told.
#[derive(Drop)]
pub struct PlainCases {
    alloc: Global,
}

impl Subject for PlainCases {
    fn start(alloc: Global) -> PlainCases {
        PlainCases { alloc }
    }

    fn tell(&mut self, _word: &str, words: &mut Words<'_>) -> Outcome {
        words.lacks("a question");
        Ok(())
    }

    fn ask(&mut self, word: &str, words: &mut Words<'_>, answer: &mut Answer) -> Outcome {
        match word {
            "walk" => walk(words, answer),
            "has_intersection" => {
                answer.flag(words.position().has_intersection(words.position()));
            }
            "has_coverage" => answer.flag(words.position().has_coverage(words.position())),
            "compared" => answer.ordering(words.position().cmp(&words.position())),
            "offset_of_usize" => answer.offset(Offset::from(words.number())),
            "offset_of_i32" => answer.offset(Offset::from(narrow(words))),
            "offset_of_i64" => answer.offset(Offset::from(wide(words))),
            "border" => show_border_sides(border(words), answer),
            "is_same" => answer.flag(border::<char>(words).is_same()),
            "frame" => show_frame_sides(&frame(words), answer),
            _ => return ask_text(self.alloc, word, words, answer),
        }
        Ok(())
    }
}

/// A number of 32 bits.
fn narrow(words: &mut Words<'_>) -> i32 {
    match words.word().parse::<i32>() {
        Ok(number) => number,
        Err(_) => {
            words.lacks("a number of 32 bits");
            0
        }
    }
}

/// A number of 64 bits.
fn wide(words: &mut Words<'_>) -> i64 {
    match words.word().parse::<i64>() {
        Ok(number) => number,
        Err(_) => {
            words.lacks("a number of 64 bits");
            0
        }
    }
}

/// The positions of an entity in a table of so many rows and columns; `more` where the walk goes on after its end.
fn walk(words: &mut Words<'_>, answer: &mut Answer) {
    let entity = words.entity();
    let (rows, columns) = words.pair();
    let mut walk = entity.iter(rows, columns);
    for position in walk.by_ref() {
        answer.position(position);
    }
    answer.word(if walk.next().is_some() { "more" } else { "end" });
}

/// Shows whether a border is empty, else which sides it has.
fn show_border_sides(border: Border<char>, answer: &mut Answer) {
    let sides = [
        ("empty", border.is_empty()),
        ("left", border.has_left()),
        ("right", border.has_right()),
        ("top", border.has_top()),
        ("bottom", border.has_bottom()),
    ];
    show_names(&sides, answer);
}

/// Shows whether a frame is empty, else which lines it has.
fn show_frame_sides(frame: &Borders<char>, answer: &mut Answer) {
    let sides = [
        ("empty", frame.is_empty()),
        ("left", frame.has_left()),
        ("right", frame.has_right()),
        ("top", frame.has_top()),
        ("bottom", frame.has_bottom()),
        ("horizontal", frame.has_horizontal()),
        ("vertical", frame.has_vertical()),
    ];
    show_names(&sides, answer);
}

/// Shows the names of what holds.
fn show_names(flags: &[(&str, bool)], answer: &mut Answer) {
    for (name, holds) in flags {
        if *holds {
            answer.word(name);
        }
    }
}
