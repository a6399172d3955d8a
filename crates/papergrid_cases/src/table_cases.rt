//! Cases of tables: one is told, and it is asked for its sizes, what certifies them and its places.

use crate::answer::Answer;
use crate::certificate_questions::ask_certificates;
use crate::config_cases::Config;
use crate::pair::Kind;
use crate::reading::Words;
use crate::running::{Outcome, Subject, add_to};
use crate::size_questions::Sizes;
use crate::table::{Table, Told};
use std::alloc::{AllocError, Global};

/// A configuration, rows of texts, the counts that the records give, and sizes for the questions on places.
#[derive(Drop)]
pub struct TableCases {
    alloc: Global,
    config: Config,
    rows: Vec<Vec<String>>,
    count_rows: usize,
    columns: usize,
    sizes: Option<Sizes>,
}

impl Subject for TableCases {
    fn start(alloc: Global) -> TableCases {
        TableCases {
            alloc,
            config: Config::new_one(alloc),
            rows: Vec::new(alloc),
            count_rows: 0,
            columns: 0,
            sizes: None,
        }
    }

    /// `columns N` and `rows N` tell the records' counts, `sizes 3 4 | 1 1` the sizes. `| a | b |` is a row of two cells,
    /// `row` one of none, and `cell a` one more cell of the last row. `times N LINE` is one of these three, so many
    /// times. Any other line is a setting.
    fn tell(&mut self, word: &str, words: &mut Words<'_>) -> Outcome {
        match word {
            "columns" => self.columns = words.number(),
            "rows" => self.count_rows = words.number(),
            "sizes" => return tell_sizes(&mut self.sizes, words),
            "times" => return add_times(&mut self.rows, words),
            "|" | "row" | "cell" => return add(&mut self.rows, word, words),
            _ => return self.config.tell(word, words),
        }
        Ok(())
    }

    fn ask(&mut self, word: &str, words: &mut Words<'_>, answer: &mut Answer) -> Outcome {
        self.config.settle(words)?;
        self.ask_settled(word, words, answer)
    }
}

impl TableCases {
    /// Answers a question, once the settings are applied.
    fn ask_settled(&self, word: &str, words: &mut Words<'_>, answer: &mut Answer) -> Outcome {
        let rows = self.rows.as_slice();
        let table = Table::new(self.alloc, rows, self.count_rows, self.columns)?;
        let told = Told {
            alloc: self.alloc,
            table: &table,
            config: self.config.settled(),
            sizes: &self.sizes,
        };
        let outcome = ask_certificates(told, word, words, answer);
        drop(table);
        outcome
    }
}

/// Adds the row or the cell that is told after a count, so many times.
fn add_times(rows: &mut Vec<Vec<String>>, words: &mut Words<'_>) -> Outcome {
    let (count, word, rest) = (words.number(), words.word(), words.rest());
    for _ in 0..count {
        let mut line = Words::new(words.alloc(), rest);
        add(rows, word, &mut line)?;
        words.takes_lack(&line);
    }
    Ok(())
}

/// Adds a row, or a cell to the last one.
fn add(rows: &mut Vec<Vec<String>>, word: &str, words: &mut Words<'_>) -> Outcome {
    match word {
        "row" => add_to(rows, Vec::new(words.alloc())),
        "|" => {
            let row = row_of(words)?;
            add_to(rows, row)
        }
        "cell" => add_cell(rows, words),
        _ => {
            words.lacks("a row or a cell");
            Ok(())
        }
    }
}

/// Adds what is left as a cell of the last row.
fn add_cell(rows: &mut [Vec<String>], words: &mut Words<'_>) -> Outcome {
    match rows.last_mut() {
        Some(row) => add_to(row, words.spelled()),
        None => {
            words.lacks("a row before it");
            Ok(())
        }
    }
}

/// The cells between the bars that are left.
fn row_of(words: &mut Words<'_>) -> Result<Vec<String>, AllocError> {
    let cells = words.rest();
    let mut row = Vec::new(words.alloc());
    for cell in cells.strip_suffix('|').unwrap_or(cells).split('|') {
        row.push(cell_of(cell, words))?;
    }
    Ok(row)
}

/// The text of a cell; what it lacks, the line lacks.
fn cell_of(cell: &str, words: &mut Words<'_>) -> String {
    let mut text = Words::new(words.alloc(), cell);
    let spelled = text.spelled();
    words.takes_lack(&text);
    spelled
}

/// Takes widths, a bar and heights.
fn tell_sizes(sizes: &mut Option<Sizes>, words: &mut Words<'_>) -> Outcome {
    *sizes = Some((numbers_to(words, "|")?, numbers_to(words, "")?));
    Ok(())
}

/// The numbers before the next word that is this one, which is passed; all that are left for the empty word.
pub fn numbers_to(words: &mut Words<'_>, end: &str) -> Result<Vec<usize>, AllocError> {
    let mut numbers = Vec::new(words.alloc());
    for _ in 0..usize::MAX {
        match number_before(words, end) {
            Some(number) => numbers.push(number)?,
            None => break,
        }
    }
    Ok(numbers)
}

/// The number that is next, if it stands before this word.
fn number_before(words: &mut Words<'_>, end: &str) -> Option<usize> {
    let word = words.word();
    if word == end {
        return None;
    }
    if word.is_empty() {
        words.lacks("one more word");
        return None;
    }
    Some(words.number_of(word))
}
