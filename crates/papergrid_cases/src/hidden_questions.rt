//! Questions on which cells are hidden.

use crate::answer::Answer;
use crate::place_questions::ask_places;
use crate::reading::Words;
use crate::running::Outcome;
use crate::size_questions::show_found;
use crate::table::Told;
use papergrid_config::SpannedConfig;
use papergrid_values::Position;

/// Answers which cells of a table of so many rows and columns are hidden, or which anchors there are: each one's
/// position, and how many rows and columns it spans. Or another question.
pub fn ask_hidden(
    told: Told<'_>,
    word: &str,
    words: &mut Words<'_>,
    answer: &mut Answer,
) -> Outcome {
    match word {
        "hidden" => show_hidden(told.config, words.number(), words.number(), answer),
        "anchors" => return show_found(told.config.anchors(), answer),
        _ => ask_places(told, word, words, answer),
    }
    Ok(())
}

/// Shows the hidden cells by row and then by column, `-` where there are none.
fn show_hidden(config: &SpannedConfig, rows: usize, columns: usize, answer: &mut Answer) {
    for row in 0..rows {
        show_row(config, row, columns, answer);
    }
    if answer.is("") {
        answer.word("-");
    }
}

/// Shows the hidden cells of a row.
fn show_row(config: &SpannedConfig, row: usize, columns: usize, answer: &mut Answer) {
    for col in 0..columns {
        let position = Position { row, col };
        if !config.is_cell_visible(position) {
            answer.position(position);
        }
    }
}
