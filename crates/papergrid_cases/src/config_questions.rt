//! What a configuration is asked for, by the names of its methods: each function answers the questions of its kind, and
//! hands other words on to the next one.

use crate::answer::Answer;
use crate::reading::Words;
use crate::running::Outcome;
use crate::size_questions::show_found;
use papergrid_config::SpannedConfig;
use papergrid_values::{Direction, Position};

/// Answers a question about a configuration.
pub fn ask(
    config: &SpannedConfig,
    word: &str,
    words: &mut Words<'_>,
    answer: &mut Answer,
) -> Outcome {
    match word {
        "get_column_spans" => answer.spans(config.get_column_spans(), words),
        "get_row_spans" => answer.spans(config.get_row_spans(), words),
        "get_horizontal_lines" => answer.lines(config.get_horizontal_lines(), words),
        "get_vertical_lines" => answer.lines(config.get_vertical_lines(), words),
        "padded_cells" => show_found(config.padded_cells(), answer),
        _ => {
            ask_flags(config, word, words, answer);
            Ok(())
        }
    }
}

fn ask_flags(config: &SpannedConfig, word: &str, words: &mut Words<'_>, answer: &mut Answer) {
    let flag = match word {
        "has_border_colors" => config.has_border_colors(),
        "has_offset_chars" => config.has_offset_chars(),
        "has_justification" => config.has_justification(),
        "has_padding" => config.has_padding(),
        "has_padding_color" => config.has_padding_color(),
        "has_formatting" => config.has_formatting(),
        "has_alignment_vertical" => config.has_alignment_vertical(),
        "has_alignment_horizontal" => config.has_alignment_horizontal(),
        "has_column_spans" => config.has_column_spans(),
        "has_row_spans" => config.has_row_spans(),
        "has_vertical" => config.has_vertical(words.number(), words.number()),
        "has_horizontal" => config.has_horizontal(words.number(), words.number()),
        "column_spans_end_within" => config.spans_end_within(Direction::Columns, words.number()),
        "row_spans_end_within" => config.spans_end_within(Direction::Rows, words.number()),
        _ => return ask_table(config, word, words, answer),
    };
    answer.flag(flag);
}

fn ask_table(config: &SpannedConfig, word: &str, words: &mut Words<'_>, answer: &mut Answer) {
    match word {
        "get_margin" => answer.indents(&config.get_margin()),
        "get_margin_offset" => answer.offsets(&config.get_margin_offset()),
        "get_margin_color" => {
            let colors = config.get_margin_color();
            answer.colors([colors.left, colors.right, colors.top, colors.bottom]);
        }
        "get_borders" => answer.frame(config.get_borders()),
        "get_color_borders" => answer.frame(config.get_color_borders()),
        "get_border_default" => answer.mark(config.get_border_default()),
        "get_border_color_default" => answer.mark(config.get_border_color_default()),
        "get_borders_missing" => answer.character(Some(config.get_borders_missing())),
        "count_vertical" => answer.number(config.count_vertical(words.inner_number())),
        "count_horizontal" => answer.number(config.count_horizontal(words.inner_number())),
        "get_horizontal_line" => answer.line(config.get_horizontal_line(words.number())),
        "get_vertical_line" => answer.line(config.get_vertical_line(words.number())),
        _ => ask_borders(config, word, words, answer),
    }
}

fn ask_borders(config: &SpannedConfig, word: &str, words: &mut Words<'_>, answer: &mut Answer) {
    match word {
        "get_border" => {
            answer.border(&config.get_border(words.inner_position(), words.pair()));
        }
        "get_border_color" => {
            answer.border(&config.get_border_color(words.inner_position(), words.pair()));
        }
        _ => ask_cell(config, word, words.position(), words, answer),
    }
}

fn ask_cell(
    config: &SpannedConfig,
    word: &str,
    position: Position,
    words: &mut Words<'_>,
    answer: &mut Answer,
) {
    match word {
        "get_padding" => answer.indents(config.get_padding(position)),
        "get_padding_color" => {
            let colors = config.get_padding_color(position);
            let (left, right) = (colors.left.as_ref(), colors.right.as_ref());
            answer.colors([left, right, colors.top.as_ref(), colors.bottom.as_ref()]);
        }
        "get_justification" => answer.character(Some(config.get_justification(position))),
        "get_justification_color" => answer.mark(config.get_justification_color(position)),
        "get_alignment_horizontal" => {
            answer.alignment_horizontal(*config.get_alignment_horizontal(position));
        }
        "get_alignment_vertical" => answer.alignment_vertical(*config.get_alignment_vertical(
            position,
        )),
        "get_formatting" => {
            let formatting = config.get_formatting(position);
            answer.flag(formatting.horizontal_trim);
            answer.flag(formatting.vertical_trim);
            answer.flag(formatting.allow_lines_alignment);
        }
        "get_column_span" => answer.found_number(config.get_column_span(position)),
        "get_row_span" => answer.found_number(config.get_row_span(position)),
        _ => ask_cell_flags(config, word, position, words, answer),
    }
}

fn ask_cell_flags(
    config: &SpannedConfig,
    word: &str,
    position: Position,
    words: &mut Words<'_>,
    answer: &mut Answer,
) {
    let flag = match word {
        "get_trim_horizonal" => config.get_trim_horizonal(position),
        "get_trim_vertical" => config.get_trim_vertical(position),
        "get_line_alignment" => config.get_line_alignment(position),
        "is_overridden_horizontal" => config.is_overridden_horizontal(position),
        "is_overridden_vertical" => config.is_overridden_vertical(position),
        "is_cell_visible" => config.is_cell_visible(position),
        "is_cell_covered_by_column_span" => config.is_cell_covered_by_column_span(position),
        "is_cell_covered_by_row_span" => config.is_cell_covered_by_row_span(position),
        "is_cell_covered_by_both_spans" => config.is_cell_covered_by_both_spans(position),
        _ => return ask_lines(config, word, position, words, answer),
    };
    answer.flag(flag);
}

fn ask_lines(
    config: &SpannedConfig,
    word: &str,
    position: Position,
    words: &mut Words<'_>,
    answer: &mut Answer,
) {
    match word {
        "get_intersection" => return answer.character(config.get_intersection(
            position,
            words.pair(),
        )),
        "get_intersection_color" => {
            return answer.mark(config.get_intersection_color(position, words.pair()));
        }
        _ => {}
    }
    let number = words.number();
    match word {
        "get_vertical" => answer.character(config.get_vertical(position, number)),
        "get_horizontal" => answer.character(config.get_horizontal(position, number)),
        "get_vertical_color" => answer.mark(config.get_vertical_color(position, number)),
        "get_horizontal_color" => answer.mark(config.get_horizontal_color(position, number)),
        _ => ask_overrides(config, word, position, number, words, answer),
    }
}

/// Answers a question on an offset from the beginning of a line, which has an end.
fn ask_overrides(
    config: &SpannedConfig,
    word: &str,
    position: Position,
    offset: usize,
    words: &mut Words<'_>,
    answer: &mut Answer,
) {
    let end = words.number();
    match word {
        "lookup_horizontal_char" => {
            answer.character(config.lookup_horizontal_char(position, offset, end));
        }
        "lookup_vertical_char" => answer.character(config.lookup_vertical_char(
            position, offset, end,
        )),
        "lookup_horizontal_color" => answer.mark(config.lookup_horizontal_color(
            position, offset, end,
        )),
        "lookup_vertical_color" => answer.mark(config.lookup_vertical_color(position, offset, end)),
        _ => words.lacks("a question"),
    }
}
