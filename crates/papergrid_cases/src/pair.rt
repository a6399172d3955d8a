//! Tables, maps and configurations, each with another one that it is compared with.

use crate::answer::Answer;
use crate::reading::Words;
use crate::running::{Outcome, Report, Subject, run};
use std::alloc::Global;
use std::mem;

/// What can be told calls and asked for what they left.
pub trait Kind: Sized + Drop {
    /// One that nothing was told of.
    fn new_one(alloc: Global) -> Self;

    /// Makes the call that the word names.
    fn tell(&mut self, word: &str, words: &mut Words<'_>) -> Outcome;

    /// Makes the calls that were told, where they are kept to be made as a list.
    fn settle(&mut self, _words: &mut Words<'_>) -> Outcome {
        Ok(())
    }

    /// Answers the question that begins with the word.
    fn ask(&self, word: &str, words: &mut Words<'_>, answer: &mut Answer) -> Outcome;

    /// Whether both were left the same.
    fn is_like(&self, other: &Self) -> bool;

    /// Becomes a clone of another one.
    fn copy_from(&mut self, other: &Self) -> Outcome;
}

/// Makes one a clone of another one.
pub fn copy<T: Clone + Drop>(one: &mut T, other: &T) -> Outcome {
    *one = other.clone()?;
    Ok(())
}

/// One that is spoken of, and another one: `swap` exchanges them, and `copy` makes the other one equal the first.
#[derive(Drop)]
pub struct Pair<T> {
    one: T,
    other: T,
}

/// Runs the cases of a text that speak of pairs.
pub fn run_pair<T: Kind>(rt: &HostRuntime, file: &str, text: &str) -> Report {
    run::<Pair<T>>(rt, file, text)
}

impl<T: Kind> Subject for Pair<T> {
    fn start(alloc: Global) -> Pair<T> {
        Pair {
            one: T::new_one(alloc),
            other: T::new_one(alloc),
        }
    }

    fn tell(&mut self, word: &str, words: &mut Words<'_>) -> Outcome {
        match word {
            "swap" => {
                self.one.settle(words)?;
                mem::swap(&mut self.one, &mut self.other);
                Ok(())
            }
            "copy" => {
                self.one.settle(words)?;
                self.other.copy_from(&self.one)
            }
            _ => self.one.tell(word, words),
        }
    }

    fn ask(&mut self, word: &str, words: &mut Words<'_>, answer: &mut Answer) -> Outcome {
        self.one.settle(words)?;
        if word == "equals_other" {
            answer.flag(self.one.is_like(&self.other));
            return Ok(());
        }
        self.one.ask(word, words, answer)
    }
}
