//! Cases of the settings of a table whose cells all have the same ones.

use crate::answer::Answer;
use crate::marks::frame;
use crate::reading::Words;
use crate::running::{Outcome, Subject};
use crate::sides::{alignment_horizontal, sides};
use papergrid_config::CompactConfig;
use std::alloc::Global;
use std::mem;

/// A compact configuration, and another one that it is compared with.
#[derive(Drop)]
pub struct CompactCases {
    config: CompactConfig,
    other: CompactConfig,
}

impl Subject for CompactCases {
    fn start(_alloc: Global) -> CompactCases {
        CompactCases {
            config: CompactConfig::new(),
            other: CompactConfig::default(),
        }
    }

    fn tell(&mut self, word: &str, words: &mut Words<'_>) -> Outcome {
        match word {
            "new" => self.config = CompactConfig::new(),
            "copy" => self.other = self.config,
            "swap" => mem::swap(&mut self.config, &mut self.other),
            _ => self.config = with_setting(self.config, word, words),
        }
        Ok(())
    }

    fn ask(&mut self, word: &str, words: &mut Words<'_>, answer: &mut Answer) -> Outcome {
        match word {
            "compared_to_other" => answer.ordering(self.config.cmp(&self.other)),
            "is_below_other" => answer.flag(self.config < self.other),
            "equals_other" => answer.flag(self.config == self.other),
            _ => ask_config(&self.config, word, words, answer),
        }
        Ok(())
    }
}

fn ask_config(config: &CompactConfig, word: &str, words: &mut Words<'_>, answer: &mut Answer) {
    match word {
        "get_margin" => answer.indents(config.get_margin()),
        "get_padding" => answer.indents(config.get_padding()),
        "get_margin_color" => answer.sides(config.get_margin_color()),
        "get_padding_color" => answer.sides(config.get_padding_color()),
        "get_borders" => answer.frame(config.get_borders()),
        "get_borders_color" => answer.frame(config.get_borders_color()),
        "get_alignment_horizontal" => {
            answer.alignment_horizontal(config.get_alignment_horizontal());
        }
        _ => words.lacks("a question"),
    }
}

/// The configuration with one more setting.
pub fn with_setting(config: CompactConfig, word: &str, words: &mut Words<'_>) -> CompactConfig {
    match word {
        "set_margin" => config.set_margin(sides(words)),
        "set_padding" => config.set_padding(sides(words)),
        "set_margin_color" => config.set_margin_color(sides(words)),
        "set_padding_color" => config.set_padding_color(sides(words)),
        "set_borders" => config.set_borders(frame(words)),
        "set_borders_color" => config.set_borders_color(frame(words)),
        "set_alignment_horizontal" => config.set_alignment_horizontal(alignment_horizontal(words)),
        _ => {
            words.lacks("a setting");
            config
        }
    }
}
