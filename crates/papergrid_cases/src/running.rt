//! The cases of a file: what is told and asked, line by line.

use crate::answer::Answer;
use crate::reading::Words;
use std::alloc::{AllocError, Global};

/// How what a line says ends: it is done, or an allocation failed.
pub type Outcome = Result<(), AllocError>;

/// Adds one to a list, unless memory runs out.
pub fn add_to<T: Drop>(list: &mut Vec<T>, one: T) -> Outcome {
    list.push(one)?;
    Ok(())
}

/// What the lines of a case speak of.
pub trait Subject: Sized + Drop {
    /// What a case begins with.
    fn start(alloc: Global) -> Self;

    /// Does what the line says that begins with the word.
    fn tell(&mut self, word: &str, words: &mut Words<'_>) -> Outcome;

    /// Answers the question that begins with the word.
    fn ask(&mut self, word: &str, words: &mut Words<'_>, answer: &mut Answer) -> Outcome;
}

/// What came of a file.
#[derive(Clone, Copy)]
pub struct Report {
    pub cases: usize,
    pub answers: usize,
    /// Whether each answer was the one that was wanted.
    pub is_right: bool,
}

impl Report {
    /// That of a file that is none of cases.
    pub fn of_no_case() -> Report {
        Report {
            cases: 0,
            answers: 0,
            is_right: false,
        }
    }
}

/// Runs the cases of a text, and writes a line for each answer that differs. An empty line says nothing, and neither
/// does one that begins with `#`. After `case NAME` a new subject is spoken of. Other lines are `WORD ARGUMENTS`, which
/// tells something, and `WORD ARGUMENTS = ANSWER`.
pub fn run<S: Subject>(rt: &HostRuntime, file: &str, text: &str) -> Report {
    let mut report = Report {
        cases: 0,
        answers: 0,
        is_right: true,
    };
    let mut subject = S::start(rt.alloc());
    // Lines are counted from 1.
    let mut number = 0_usize;
    for line in text.lines() {
        number = number.saturating_add(1);
        if line.starts_with("case ") {
            report.cases = report.cases.saturating_add(1);
            subject = S::start(rt.alloc());
        } else if !line.is_empty() && !line.starts_with('#') {
            run_line(rt, file, number, line, &mut subject, &mut report);
        }
    }
    report
}

/// Does what a line says, and notes in the report whether the answer is the one that the line wants.
fn run_line<S: Subject>(
    rt: &HostRuntime,
    file: &str,
    number: usize,
    line: &str,
    subject: &mut S,
    report: &mut Report,
) {
    let (said, wanted) = parts_of(line);
    let is_asked = wanted.is_some();
    let came = followed(rt.alloc(), subject, said, is_asked);
    report.answers = report.answers.saturating_add(usize::from(is_asked));
    // A line that is no question wants no answer.
    if !came.is(wanted.unwrap_or("")) {
        report.is_right = false;
        complain(rt, file, number, line, came.as_str());
    }
}

/// What a line says, and the answer that it wants where it is a question.
fn parts_of(line: &str) -> (&str, Option<&str>) {
    match line.split_once(" = ") {
        Some((question, wanted)) => (question, Some(wanted)),
        None => (line, None),
    }
}

/// Writes an answer that differs.
fn complain(rt: &impl Print, file: &str, number: usize, line: &str, came: &str) {
    let _ = println!(rt; "{file}:{number}: {line}: came {came}");
}

/// Does what a line says: the answer, and what the line lacks.
fn followed<S: Subject>(alloc: Global, subject: &mut S, line: &str, is_asked: bool) -> Answer {
    let mut answer = Answer::new(alloc);
    let mut words = Words::new(alloc, line);
    let word = words.word();
    let done = if is_asked {
        subject.ask(word, &mut words, &mut answer)
    } else {
        subject.tell(word, &mut words)
    };
    if done.is_err() {
        words.lacks("memory");
    }
    if let Some(what) = words.lack() {
        answer.word("expected");
        answer.word(what);
    }
    answer
}
