//! Settings as lines: each reader takes those of its kind, and hands other words on to the next one.

use crate::marks::{Marked, border, color, frame, horizontal_line, vertical_line};
use crate::reading::Words;
use crate::sides::{Side, alignment_horizontal, alignment_vertical, sides};
use papergrid_config::Setting;
use papergrid_values::{ANSIBuf, Offset};

/// The setting that a line tells, by the name of its method.
pub fn setting(word: &str, words: &mut Words<'_>) -> Option<Setting> {
    Some(match word {
        "remove_borders" => Setting::RemoveBorders,
        "remove_borders_colors" => Setting::RemoveBordersColors,
        "remove_color_line_horizontal" => Setting::RemoveColorLineHorizontal,
        "remove_color_line_vertical" => Setting::RemoveColorLineVertical,
        "remove_horizontal_chars" => Setting::RemoveHorizontalChars,
        "remove_vertical_chars" => Setting::RemoveVerticalChars,
        "remove_column_spans" => Setting::RemoveColumnSpans,
        "remove_row_spans" => Setting::RemoveRowSpans,
        "set_margin" => Setting::SetMargin(sides(words)),
        "set_margin_color" => Setting::SetMarginColor(sides(words)),
        "set_margin_offset" => Setting::SetMarginOffset(sides(words)),
        _ => return lines(word, words),
    })
}

fn lines(word: &str, words: &mut Words<'_>) -> Option<Setting> {
    Some(match word {
        "set_borders" => Setting::SetBorders(frame(words)),
        "set_border_default" => Setting::SetBorderDefault(words.character()),
        "set_borders_color" => Setting::SetBordersColor(frame(words)),
        "set_border_color_default" => Setting::SetBorderColorDefault(color(words)?),
        "set_borders_missing" => Setting::SetBordersMissing(words.character()),
        "insert_horizontal_line" => {
            Setting::InsertHorizontalLine(words.number(), horizontal_line(words))
        }
        "insert_vertical_line" => Setting::InsertVerticalLine(words.number(), vertical_line(words)),
        "remove_horizontal_line" => Setting::RemoveHorizontalLine(words.number(), words.number()),
        "remove_vertical_line" => Setting::RemoveVerticalLine(words.number(), words.number()),
        _ => return of_entities(word, words),
    })
}

fn of_entities(word: &str, words: &mut Words<'_>) -> Option<Setting> {
    Some(match word {
        "set_padding" => Setting::SetPadding(words.entity(), sides(words)),
        "set_padding_color" => Setting::SetPaddingColor(words.entity(), sides(words)),
        "set_justification" => Setting::SetJustification(words.entity(), words.character()),
        "set_justification_color" => {
            Setting::SetJustificationColor(words.entity(), ANSIBuf::read(words))
        }
        "set_trim_horizontal" => Setting::SetTrimHorizontal(words.entity(), words.flag()),
        "set_trim_vertical" => Setting::SetTrimVertical(words.entity(), words.flag()),
        "set_line_alignment" => Setting::SetLineAlignment(words.entity(), words.flag()),
        "set_alignment_horizontal" => {
            Setting::SetAlignmentHorizontal(words.entity(), alignment_horizontal(words))
        }
        "set_alignment_vertical" => {
            Setting::SetAlignmentVertical(words.entity(), alignment_vertical(words))
        }
        _ => return of_cells(word, words),
    })
}

fn of_cells(word: &str, words: &mut Words<'_>) -> Option<Setting> {
    let position = words.position();
    Some(match word {
        "set_border" => Setting::SetBorder(position, border(words)),
        "set_border_color" => Setting::SetBorderColor(position, border(words)),
        "remove_border" => Setting::RemoveBorder(position, words.pair()),
        "remove_border_color" => Setting::RemoveBorderColor(position, words.pair()),
        "set_column_span" => Setting::SetColumnSpan(position, words.number()),
        "set_row_span" => Setting::SetRowSpan(position, words.number()),
        "remove_overridden_horizontal" => Setting::RemoveOverriddenHorizontal(position),
        "remove_overridden_vertical" => Setting::RemoveOverriddenVertical(position),
        "set_horizontal_char" => {
            Setting::SetHorizontalChar(position, Offset::next(words), words.character())
        }
        "set_vertical_char" => {
            Setting::SetVerticalChar(position, Offset::next(words), words.character())
        }
        "set_horizontal_char_color" => {
            Setting::SetHorizontalCharColor(position, Offset::next(words), color(words)?)
        }
        "set_vertical_char_color" => {
            Setting::SetVerticalCharColor(position, Offset::next(words), color(words)?)
        }
        _ => {
            words.lacks("a setting");
            return None;
        }
    })
}
