//! Questions on the cells that certify sizes.

use crate::answer::Answer;
use crate::hidden_questions::ask_hidden;
use crate::reading::Words;
use crate::running::Outcome;
use crate::size_questions::show;
use crate::table::Told;
use crate::table_cases::numbers_to;
use papergrid_config::SpannedConfig;
use papergrid_layout::iterable::{
    check_height_witness, check_width_witness, height_witness, width_witness,
};
use papergrid_layout::least::{height_certificate, width_certificate};
use papergrid_text::{IntoRecords, Records};
use papergrid_values::Position;
use std::alloc::{AllocError, Global};
use std::convert::AsStr;

/// Answers a question on certificates of either kind, what a checker says of sizes and cells, or
/// another question.
pub fn ask_certificates(
    told: Told<'_>,
    word: &str,
    words: &mut Words<'_>,
    answer: &mut Answer,
) -> Outcome {
    match word {
        "width_witness" | "height_witness" | "width_certificate" | "height_certificate" => {
            show_cells(told.alloc, told.table.lent(), told.config, word, answer);
            Ok(())
        }
        "check_widths" | "check_heights" => ask_checker(told, word, words, answer),
        _ => ask_hidden(told, word, words, answer),
    }
}

/// Shows the cells that certify the sizes along a direction, of the kind that the word names.
fn show_cells<R: Records + Drop>(
    alloc: Global,
    records: R,
    config: &SpannedConfig,
    word: &str,
    answer: &mut Answer,
)
where
    <<R as Records>::Iter as IntoRecords>::Cell: AsStr + Drop,
    requires { R.is_lawful records }
{
    match word {
        "width_witness" => show(width_witness(alloc, records, config), answer),
        "height_witness" => show(height_witness(alloc, records, config), answer),
        "width_certificate" => show(width_certificate(alloc, records, config), answer),
        _ => show(height_certificate(alloc, records, config), answer),
    }
}

/// Answers what a checker says of sizes, the word `by` and cells.
fn ask_checker(told: Told<'_>, word: &str, words: &mut Words<'_>, answer: &mut Answer) -> Outcome {
    let sizes = numbers_to(words, "by")?;
    let cells = cells(words)?;
    answer.flag(if word == "check_widths" {
        check_width_witness(told.table.lent(), told.config, &sizes, &cells)
    } else {
        check_height_witness(told.table.lent(), told.config, &sizes, &cells)
    });
    Ok(())
}

/// The cells that are left, or one so many times, as `times 1000 9,9`.
fn cells(words: &mut Words<'_>) -> Result<Vec<Position>, AllocError> {
    let mut cells = Vec::new(words.alloc());
    for _ in 0..usize::MAX {
        if words.is_empty() {
            break;
        }
        let (count, cell) = next_cell(words);
        for _ in 0..count {
            cells.push(cell)?;
        }
    }
    Ok(cells)
}

/// The next cell, and how many times it stands.
fn next_cell(words: &mut Words<'_>) -> (usize, Position) {
    if words.passes("times ") {
        (words.number(), words.position())
    } else {
        (1, words.position())
    }
}
