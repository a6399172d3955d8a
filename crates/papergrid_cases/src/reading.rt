//! The words of a line.

ghost use Rattle.std.specs.Prelude.{◌+◌, ◌-◌, ◌<◌, ◌^◌};

use papergrid_values::{Direction, Entity, Position};
use std::alloc::{AllocError, Global};

const DIRECTIONS: [(&str, Direction); 2] = [
    ("columns", Direction::Columns),
    ("rows", Direction::Rows),
];

const FLAGS: [(&str, bool); 2] = [("true", true), ("false", false)];

/// What is left of a line. What can't be read is noted, and something is given in its place: so no call fails before the
/// line ends.
#[derive(Drop)]
pub struct Words<'a> {
    alloc: Global,
    rest: &'a str,
    lack: Option<&'static str>,
}

impl<'a> Words<'a> {
    pub fn new(alloc: Global, line: &'a str) -> Words<'a> {
        Words {
            alloc,
            rest: line.trim(),
            lack: None,
        }
    }

    /// Where what is read has its memory from.
    pub fn alloc(&self) -> Global {
        self.alloc
    }

    pub fn is_empty(&self) -> bool {
        self.rest.is_empty()
    }

    /// Notes what is lacking.
    pub fn lacks(&mut self, what: &'static str) {
        self.lack = Some(what);
    }

    /// Notes what other words lack, if anything.
    pub fn takes_lack(&mut self, other: &Words<'_>) {
        if let Some(what) = other.lack() {
            self.lacks(what);
        }
    }

    /// What was lacking, which may be the end of the line.
    pub fn lack(&self) -> Option<&'static str> {
        if self.lack.is_some() || self.rest.is_empty() {
            return self.lack;
        }
        Some("the end of the line")
    }

    /// The next word, up to a space; empty where the line ends.
    pub fn word(&mut self) -> &'a str {
        let (word, rest) = self.rest.split_once(' ').unwrap_or((self.rest, ""));
        self.rest = rest.trim_start();
        word
    }

    /// All that is left.
    pub fn rest(&mut self) -> &'a str {
        let rest = self.rest;
        self.rest = "";
        rest
    }

    /// Whether what is left begins like this; that is passed then.
    pub fn passes(&mut self, text: &str) -> bool {
        match self.rest.strip_prefix(text) {
            Some(rest) => {
                self.rest = rest;
                true
            }
            None => false,
        }
    }

    pub fn number(&mut self) -> usize {
        let word = self.word();
        self.number_of(word)
    }

    /// The number that a word spells.
    pub fn number_of(&mut self, word: &str) -> usize {
        match word.parse::<usize>() {
            Ok(number) => number,
            Err(_) => {
                self.lacks("a number");
                0
            }
        }
    }

    /// A number that has a next one.
    pub fn inner_number(&mut self) -> usize
        ensures { result < 2 ^ 64 - 1 }
    {
        let number = self.number();
        if number < usize::MAX {
            return number;
        }
        self.lacks("a number that has a next one");
        0
    }

    /// Two numbers, as `3,4`.
    pub fn pair(&mut self) -> (usize, usize) {
        let word = self.word();
        self.pair_of(word)
    }

    fn pair_of(&mut self, word: &str) -> (usize, usize) {
        let (first, second) = word.split_once(',').unwrap_or(("", ""));
        (self.number_of(first), self.number_of(second))
    }

    /// A row and a column, as `3,4`.
    pub fn position(&mut self) -> Position {
        let (row, col) = self.pair();
        Position { row, col }
    }

    /// A row and a column that have next ones.
    pub fn inner_position(&mut self) -> Position
        ensures row { result.row + 1 < 2 ^ 64 }
        ensures col { result.col + 1 < 2 ^ 64 }
    {
        let position = self.position();
        if position.row < usize::MAX && position.col < usize::MAX {
            return position;
        }
        self.lacks("a row and a column that have next ones");
        Position { row: 0, col: 0 }
    }

    /// All cells, a column, a row or a cell: `*`, `c4`, `r3` or `3,4`.
    pub fn entity(&mut self) -> Entity {
        let word = self.word();
        if word == "*" {
            return Entity::Global;
        }
        if let Some(number) = word.strip_prefix('c') {
            return Entity::Column(self.number_of(number));
        }
        if let Some(number) = word.strip_prefix('r') {
            return Entity::Row(self.number_of(number));
        }
        let (row, col) = self.pair_of(word);
        Entity::Cell(row, col)
    }

    pub fn direction(&mut self) -> Direction {
        self.named(&DIRECTIONS, "columns or rows", Direction::Rows)
    }

    pub fn flag(&mut self) -> bool {
        self.named(&FLAGS, "true or false", false)
    }

    /// The value that the next word names; where it names none, that is noted, and this one is given.
    pub fn named<T: Copy>(
        &mut self,
        values: &[(&str, T)],
        wanted: &'static str,
        otherwise: T,
    ) -> T {
        let word = self.word();
        for (name, value) in values {
            if *name == word {
                return *value;
            }
        }
        self.lacks(wanted);
        otherwise
    }

    /// The next character, whether a space follows or not.
    pub fn character(&mut self) -> char {
        let c = self.next();
        self.rest = self.rest.trim_start();
        c
    }

    /// The same, or none for `_`.
    pub fn mark(&mut self) -> Option<char> {
        let is_none = self.rest.starts_with('_');
        let c = self.character();
        if is_none { None } else { Some(c) }
    }

    /// A text in quotes, with escapes.
    pub fn text(&mut self) -> String {
        let mut text = String::new(self.alloc);
        match self.rest.strip_prefix('"') {
            Some(quoted) => self.rest = quoted,
            None => self.lacks("a text in quotes"),
        }
        for _ in 0..self.rest.len() {
            if let Some(rest) = self.rest.strip_prefix('"') {
                self.rest = rest.trim_start();
                return text;
            }
            let c = self.next();
            if text.push(c).is_err() {
                self.lacks("memory");
            }
        }
        self.lacks("the quote that ends a text");
        text
    }

    /// All that is left, with escapes.
    pub fn spelled(&mut self) -> String {
        let mut text = String::new(self.alloc);
        for _ in 0..self.rest.len() {
            if self.rest.is_empty() {
                break;
            }
            let c = self.next();
            if text.push(c).is_err() {
                self.lacks("memory");
            }
        }
        text
    }

    /// The next character, where a backslash begins an escape.
    fn next(&mut self) -> char {
        match self.passed() {
            Some('\\') => self.escaped(),
            Some(c) => c,
            None => {
                self.lacks("one more character");
                ' '
            }
        }
    }

    fn passed(&mut self) -> Option<char> {
        let mut chars = self.rest.chars();
        let c = chars.next();
        self.rest = chars.as_str();
        c
    }

    /// What stands for itself after a backslash but for `n`, `r`, `t`, `s` and `u{..}`.
    fn escaped(&mut self) -> char {
        match self.passed() {
            Some('n') => '\n',
            Some('r') => '\r',
            Some('t') => '\t',
            Some('s') => ' ',
            Some('u') => self.numbered(),
            Some(c) => c,
            None => {
                self.lacks("what a backslash escapes");
                ' '
            }
        }
    }

    /// The character with the hexadecimal number in braces.
    fn numbered(&mut self) -> char {
        let (number, rest) = self.rest.split_once('}').unwrap_or(("", ""));
        self.rest = rest;
        let digits = number.strip_prefix('{').unwrap_or("");
        let number = u32::from_str_radix(digits, 16).unwrap_or(u32::MAX);
        match char::from_u32(number) {
            Some(c) => c,
            None => {
                self.lacks("the number of a character");
                ' '
            }
        }
    }
}
