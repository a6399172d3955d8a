//! What comes of a question, as a text.

use crate::marks::Lettered;
use papergrid_values::Position;
use std::alloc::Global;
use std::cmp::Ordering;

/// The words of an answer, with a space between two. Where an allocation fails, the answer is lost,
/// and no call fails.
#[derive(Drop)]
pub struct Answer {
    text: String,
    is_lost: bool,
}

impl Answer {
    pub fn new(alloc: Global) -> Answer {
        Answer {
            text: String::new(alloc),
            is_lost: false,
        }
    }

    pub fn as_str(&self) -> &str {
        self.text.as_str()
    }

    /// Whether this is the answer.
    pub fn is(&self, text: &str) -> bool {
        !self.is_lost && self.text.as_str() == text
    }

    pub fn word(&mut self, word: &str) {
        self.space();
        self.push(word);
    }

    pub fn flag(&mut self, flag: bool) {
        self.word(if flag { "true" } else { "false" });
    }

    pub fn ordering(&mut self, ordering: Ordering) {
        self.word(match ordering {
            Ordering::Less => "Less",
            Ordering::Equal => "Equal",
            Ordering::Greater => "Greater",
        });
    }

    pub fn number(&mut self, number: usize) {
        self.space();
        self.digits(number);
    }

    /// A number, or `_` for none.
    pub fn found_number(&mut self, number: Option<usize>) {
        match number {
            Some(number) => self.number(number),
            None => self.word("_"),
        }
    }

    pub fn position(&mut self, position: Position) {
        self.space();
        self.digits(position.row);
        self.push(",");
        self.digits(position.col);
    }

    /// The mark of a value, or `_` for none.
    pub fn mark<T: Lettered>(&mut self, value: Option<&T>) {
        self.space();
        self.part(value);
    }

    /// A character, or `_` for none.
    pub fn character(&mut self, character: Option<char>) {
        self.mark(character.as_ref());
    }

    /// A word of marks.
    pub fn parts<T: Lettered>(&mut self, values: &[&Option<T>]) {
        self.space();
        for value in values {
            self.part(value.as_ref());
        }
    }

    /// The next mark of a word.
    pub fn part<T: Lettered>(&mut self, value: Option<&T>) {
        match value {
            Some(value) => self.spelled(value.letter(), ' '),
            None => self.push("_"),
        }
    }

    /// A text in quotes, with escapes.
    pub fn text(&mut self, text: &str) {
        self.word("\"");
        for c in text.chars() {
            self.spelled(c, '"');
        }
        self.push("\"");
    }

    /// Ends the word before.
    pub fn space(&mut self) {
        if !self.text.is_empty() {
            self.push(" ");
        }
    }

    pub fn push(&mut self, text: &str) {
        if self.text.push_str(text).is_err() {
            self.is_lost = true;
        }
    }

    pub fn digits(&mut self, number: usize) {
        if write!(self.text, "{number}").is_err() {
            self.is_lost = true;
        }
    }

    /// A character, by an escape where it is no printed one, or the one that would end what it stands in.
    pub fn spelled(&mut self, c: char, end: char) {
        match c {
            '\n' => self.push("\\n"),
            '\r' => self.push("\\r"),
            '\t' => self.push("\\t"),
            '\u{1b}' => self.push("\\u{1b}"),
            '\u{200b}' => self.push("\\u{200b}"),
            '\\' => self.push("\\\\"),
            c if c == end => self.push(if end == ' ' { "\\s" } else { "\\\"" }),
            c => self.pushed(c),
        }
    }

    fn pushed(&mut self, c: char) {
        if self.text.push(c).is_err() {
            self.is_lost = true;
        }
    }
}
