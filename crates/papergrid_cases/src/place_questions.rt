//! Questions on where cells stand, by the sizes that are told or else by those of an estimate.

use crate::answer::Answer;
use crate::reading::Words;
use crate::size_questions::{Sizes, ask_sizes, by_texts, show};
use crate::table::Told;
use papergrid_config::SpannedConfig;
use papergrid_layout::{
    Dimension, Place, PlaceError, cell_at, place, places, total_height, total_width,
};
use papergrid_values::Position;
use std::alloc::Global;

/// Widths of columns and heights of rows.
#[derive(Clone, Copy)]
struct Taken<'a> {
    widths: &'a [usize],
    heights: &'a [usize],
}

impl<'a> Dimension for Taken<'a> {
    ghost use Rattle.std.specs.Prelude.{◌<◌, length, slice_index};

    ghost has_column = { λ d column. column < length d.widths.now };

    ghost has_row = { λ d row. row < length d.heights.now };

    ghost width_of = { λ d column. slice_index d.widths.now column };

    ghost height_of = { λ d row. slice_index d.heights.now row };

    fn get_width(&self, column: usize) -> usize {
        self.widths[column]
    }

    fn get_height(&self, row: usize) -> usize {
        self.heights[row]
    }
}

/// Answers a question on places, or on sizes.
pub fn ask_places(told: Told<'_>, word: &str, words: &mut Words<'_>, answer: &mut Answer) {
    match word {
        "place" | "places" | "cell_at" | "totals_of_sizes" => {
            ask_sized(told, word, words, answer);
        }
        _ => ask_sizes(told, word, words, answer),
    }
}

fn ask_sized(told: Told<'_>, word: &str, words: &mut Words<'_>, answer: &mut Answer) {
    match told.sizes {
        Some(sizes) => by_sizes(told, sizes, word, words, answer),
        None => match by_texts(told) {
            Ok(sizes) => by_sizes(told, &sizes, word, words, answer),
            Err(error) => show(Err::<usize, _>(error), answer),
        },
    }
}

fn by_sizes(told: Told<'_>, sizes: &Sizes, word: &str, words: &mut Words<'_>, answer: &mut Answer) {
    let taken = Taken {
        widths: sizes.0.as_slice(),
        heights: sizes.1.as_slice(),
    };
    match word {
        "place" => show_place(answer, place_of(taken, told.config, words.position())),
        "places" => show_places(told.alloc, told.config, taken, answer),
        "cell_at" => ask_points(told.config, taken, words, answer),
        _ => {
            show(total_width(&taken, told.config, taken.widths.len()), answer);
            show(
                total_height(&taken, told.config, taken.heights.len()),
                answer,
            );
        }
    }
}

fn place_of(taken: Taken<'_>, config: &SpannedConfig, cell: Position) -> Result<Place, PlaceError> {
    place(
        &taken,
        config,
        (taken.heights.len(), taken.widths.len()),
        cell,
    )
}

/// Shows the first column of the terminal and the first line, the width and the height.
fn show_place(answer: &mut Answer, place: Result<Place, PlaceError>) {
    match place {
        Ok(place) => {
            for number in [place.left, place.top, place.width, place.height] {
                answer.number(number);
            }
        }
        Err(PlaceError::Hidden) => answer.word("hidden"),
        Err(PlaceError::OutOfTable) => answer.word("out of table"),
        Err(PlaceError::TooLarge) => answer.word("too large"),
    }
}

/// Shows all cells that have a place.
fn show_places(alloc: Global, config: &SpannedConfig, taken: Taken<'_>, answer: &mut Answer) {
    let shape = (taken.heights.len(), taken.widths.len());
    match places(alloc, &taken, config, shape) {
        Ok(found) => {
            for (cell, _) in found.as_slice() {
                answer.position(*cell);
            }
            if found.is_empty() {
                answer.word("-");
            }
        }
        Err(error) => show(Err::<usize, _>(error), answer),
    }
}

/// Shows the cell at each of the points, a column of the terminal and a line.
fn ask_points(
    config: &SpannedConfig,
    taken: Taken<'_>,
    words: &mut Words<'_>,
    answer: &mut Answer,
) {
    let shape = (taken.heights.len(), taken.widths.len());
    for _ in 0..usize::MAX {
        if words.is_empty() {
            break;
        }
        let (column, line) = words.pair();
        match cell_at(&taken, config, shape, column, line) {
            Some(cell) => answer.position(cell),
            None => answer.word("none"),
        }
    }
}
