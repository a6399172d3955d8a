//! Questions on texts: their widths, lines and tabs, and what they are as cells.

use crate::answer::Answer;
use crate::reading::Words;
use crate::running::Outcome;
use papergrid_text::string::{
    count_tabs, get_char_width, get_line_width, get_lines, get_string_width, get_text_dimension,
    get_text_width, replace_tab,
};
use papergrid_text::width::{count_printable, width};
use papergrid_text::{Cell, StrWithWidth, Text};
use std::alloc::{AllocError, Global};
use std::borrow::CowStr;
use std::convert::AsStr;

/// Answers a question on the text that stands next.
pub fn ask_text(alloc: Global, word: &str, words: &mut Words<'_>, answer: &mut Answer) -> Outcome {
    let text = words.text();
    match word {
        "text_cell" => return ask_measured(alloc, text, answer),
        "exact_cell" => return ask_exact(alloc, text, words, answer),
        "str_cell" => show_cell(answer, &text.as_str()),
        "string_cell" => show_cell(answer, &&text),
        "replace_tab" => ask_tab(alloc, text.as_str(), words.number(), answer),
        _ => ask_measure(word, text.as_str(), words, answer),
    }
    drop(text);
    Ok(())
}

fn ask_measure(word: &str, text: &str, words: &mut Words<'_>, answer: &mut Answer) {
    match word {
        "text_dimension" => {
            let (lines, width) = get_text_dimension(text);
            answer.number(lines);
            answer.number(width);
        }
        "text_width" => answer.number(get_text_width(text)),
        "string_width" => answer.number(get_string_width(text)),
        "line_width" => answer.number(get_line_width(text)),
        "char_widths" => {
            for c in text.chars() {
                answer.number(get_char_width(c));
            }
        }
        "count_tabs" => answer.number(count_tabs(text)),
        "lines" => show_lines(text, answer),
        "width" => answer.number(width(text)),
        // How many bytes at the front are printable ASCII.
        "printable" => answer.number(count_printable(text)),
        _ => words.lacks("a question"),
    }
}

fn show_lines(text: &str, answer: &mut Answer) {
    for line in get_lines(text) {
        answer.text(line);
    }
}

/// Shows the text with its tabs replaced; `lent` where it is the same one.
fn ask_tab(alloc: Global, text: &str, count: usize, answer: &mut Answer) {
    match replace_tab(alloc, text, count) {
        Ok(CowStr::Borrowed(text)) => {
            answer.word("lent");
            answer.text(text);
        }
        Ok(CowStr::Owned(text)) => answer.text(text.as_str()),
        Err(AllocError) => answer.word("out of memory"),
    }
}

fn ask_measured(alloc: Global, text: String, answer: &mut Answer) -> Outcome {
    let cell = clone_of(Text::new(alloc, text))?;
    show_cell(answer, &cell);
    drop(cell);
    Ok(())
}

/// A clone of what is made, which has to be like it.
fn clone_of<T: Clone + Drop>(made: Result<T, AllocError>) -> Result<T, AllocError> {
    let made = made?;
    made.clone()
}

/// Shows a text with a width and lines that are told, each with its width.
fn ask_exact(alloc: Global, text: String, words: &mut Words<'_>, answer: &mut Answer) -> Outcome {
    let width = words.number();
    let mut lines = Vec::new(alloc);
    for _ in 0..usize::MAX {
        if words.is_empty() {
            break;
        }
        let line = CowStr::Owned(words.text());
        lines.push(StrWithWidth::new(line, words.number()))?;
    }
    let cell = clone_of(Ok(Text::exact(text, width, lines)))?;
    show_cell(answer, &cell);
    drop(cell);
    Ok(())
}

/// Shows what a text is as a cell: its text, its width, and its lines with theirs.
fn show_cell<C: Cell>(answer: &mut Answer, cell: &C) {
    answer.text(cell.text());
    answer.number(cell.width());
    for line in 0..cell.count_lines() {
        answer.text(cell.line(line));
        answer.number(cell.line_width(line));
    }
}
