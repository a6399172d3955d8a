//! Tables of borders and of offsets, both of characters, and tables of spans.

use crate::answer::Answer;
use crate::marks::{border, frame, horizontal_line, vertical_line};
use crate::pair::{Kind, copy};
use crate::reading::Words;
use crate::running::Outcome;
use crate::sides::Side;
use crate::size_questions::show_found;
use papergrid_maps::SpanTable;
use papergrid_tables::{BorderTable, OffsetTable};
use papergrid_values::Offset;
use std::alloc::Global;

impl Kind for BorderTable<char> {
    fn new_one(alloc: Global) -> BorderTable<char> {
        BorderTable::new(alloc)
    }

    fn tell(&mut self, word: &str, words: &mut Words<'_>) -> Outcome {
        match word {
            "insert_border" => return self.insert_border(words.inner_position(), border(words)),
            "insert_horizontal_line" => {
                return self.insert_horizontal_line(words.number(), horizontal_line(words));
            }
            "insert_vertical_line" => {
                return self.insert_vertical_line(words.number(), vertical_line(words));
            }
            "remove_border" => self.remove_border(words.inner_position(), words.pair()),
            "remove_horizontal_line" => self.remove_horizontal_line(words.number(), words.number()),
            "remove_vertical_line" => self.remove_vertical_line(words.number(), words.number()),
            "set_borders" => self.set_borders(frame(words)),
            "set_global" => self.set_global(words.character()),
            _ => words.lacks("a call"),
        }
        Ok(())
    }

    fn ask(&self, word: &str, words: &mut Words<'_>, answer: &mut Answer) -> Outcome {
        match word {
            "get_horizontal_lines" => return answer.lines(self.get_horizontal_lines(), words),
            "get_vertical_lines" => return answer.lines(self.get_vertical_lines(), words),
            "get_horizontal_line" => answer.line(self.get_horizontal_line(words.number())),
            "get_vertical_line" => answer.line(self.get_vertical_line(words.number())),
            "get_borders" => answer.frame(self.get_borders()),
            "get_global" => answer.mark(self.get_global()),
            _ => ask_borders(self, word, words, answer),
        }
        Ok(())
    }

    fn is_like(&self, other: &BorderTable<char>) -> bool {
        self == other
    }

    fn copy_from(&mut self, other: &BorderTable<char>) -> Outcome {
        copy(self, other)
    }
}

fn ask_borders(table: &BorderTable<char>, word: &str, words: &mut Words<'_>, answer: &mut Answer) {
    match word {
        "get_border" => {
            answer.border(&table.get_border(words.inner_position(), words.pair()));
        }
        "get_vertical" => answer.mark(table.get_vertical(words.position(), words.number())),
        "get_horizontal" => answer.mark(table.get_horizontal(words.position(), words.number())),
        "get_intersection" => {
            answer.mark(table.get_intersection(words.position(), words.pair()))
        }
        "is_empty" => answer.flag(table.is_empty()),
        _ => ask_lines(table, word, words, answer),
    }
}

/// Answers a question on which parts of lines are set.
fn ask_lines(table: &BorderTable<char>, word: &str, words: &mut Words<'_>, answer: &mut Answer) {
    let flag = match word {
        "has_vertical" => table.has_vertical(words.number(), words.number()),
        "has_horizontal" => table.has_horizontal(words.number(), words.number()),
        "is_vertical_set" => table.is_vertical_set(words.number(), words.number()),
        "is_horizontal_set" => table.is_horizontal_set(words.number(), words.number()),
        _ => return words.lacks("a question"),
    };
    answer.flag(flag);
}

impl Kind for OffsetTable<char> {
    fn new_one(alloc: Global) -> OffsetTable<char> {
        OffsetTable::new(alloc)
    }

    fn tell(&mut self, word: &str, words: &mut Words<'_>) -> Outcome {
        match word {
            "set" => return self.set(words.position(), Offset::next(words), words.character()),
            "remove" => self.remove(words.position()),
            "clear" => self.clear(),
            _ => words.lacks("a call"),
        }
        Ok(())
    }

    fn ask(&self, word: &str, words: &mut Words<'_>, answer: &mut Answer) -> Outcome {
        match word {
            "lookup" => {
                answer.mark(self.lookup(words.position(), words.number(), words.number()))
            }
            "is_overridden" => answer.flag(self.is_overridden(words.position())),
            "is_empty" => answer.flag(self.is_empty()),
            _ => words.lacks("a question"),
        }
        Ok(())
    }

    fn is_like(&self, other: &OffsetTable<char>) -> bool {
        self == other
    }

    fn copy_from(&mut self, other: &OffsetTable<char>) -> Outcome {
        copy(self, other)
    }
}

impl Kind for SpanTable {
    fn new_one(alloc: Global) -> SpanTable {
        SpanTable::new(alloc)
    }

    fn tell(&mut self, word: &str, words: &mut Words<'_>) -> Outcome {
        match word {
            "set_column" => return self.set_column(words.position(), words.number()),
            "set_row" => return self.set_row(words.position(), words.number()),
            "remove_columns" => self.remove_columns(),
            "remove_rows" => self.remove_rows(),
            _ => words.lacks("a call"),
        }
        Ok(())
    }

    fn ask(&self, word: &str, words: &mut Words<'_>, answer: &mut Answer) -> Outcome {
        match word {
            "columns" => return answer.spans(self.columns(), words),
            "rows" => return answer.spans(self.rows(), words),
            "anchors" => return show_found(self.anchors(), answer),
            "get_column" => answer.found_number(self.get_column(words.position())),
            "get_row" => answer.found_number(self.get_row(words.position())),
            _ => ask_flags(self, word, words, answer),
        }
        Ok(())
    }

    fn is_like(&self, other: &SpanTable) -> bool {
        self == other
    }

    fn copy_from(&mut self, other: &SpanTable) -> Outcome {
        copy(self, other)
    }
}

/// Answers a question whose answer is true or false.
fn ask_flags(spans: &SpanTable, word: &str, words: &mut Words<'_>, answer: &mut Answer) {
    let flag = match word {
        "has_columns" => spans.has_columns(),
        "has_rows" => spans.has_rows(),
        "covered_by_column" => spans.covered_by_column(words.position()),
        "covered_by_row" => spans.covered_by_row(words.position()),
        "covered_by_both" => spans.covered_by_both(words.position()),
        "is_visible" => spans.is_visible(words.position()),
        "end_within" => spans.end_within(words.direction(), words.number()),
        "are_visible" => are_visible(spans, words),
        _ => return words.lacks("a question"),
    };
    answer.flag(flag);
}

/// Whether two positions are visible, of which the second stands below the first and right of it.
fn are_visible(spans: &SpanTable, words: &mut Words<'_>) -> bool {
    let direction = words.direction();
    let (first, second) = (words.position(), words.position());
    if first.row < second.row && first.col < second.col {
        return spans.are_visible(direction, &[first, second]);
    }
    words.lacks("a position below and right of the first");
    false
}
