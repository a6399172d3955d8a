//! Configurations: settings, and what each cell, line and margin is set to by them.

use crate::answer::Answer;
use crate::compact_cases::with_setting;
use crate::config_questions;
use crate::pair::{Kind, copy};
use crate::reading::Words;
use crate::running::{Outcome, add_to};
use crate::settings::setting;
use papergrid_config::{CompactConfig, Setting, SpannedConfig};
use std::alloc::{AllocError, Global};
use std::mem;

/// A configuration, and a compact one that it may be made of. Settings are applied as lists, before the next line that
/// is none.
#[derive(Drop)]
pub struct Config {
    alloc: Global,
    config: SpannedConfig,
    compact: CompactConfig,
    settings: Vec<Setting>,
}

impl Config {
    /// The configuration by the settings that were applied.
    pub fn settled(&self) -> &SpannedConfig {
        &self.config
    }

    /// Begins anew with the compact configuration.
    fn become_compact(&mut self) -> Outcome {
        self.config = SpannedConfig::from_compact(self.alloc, &self.compact)?;
        Ok(())
    }
}

impl Kind for Config {
    fn new_one(alloc: Global) -> Config {
        Config {
            alloc,
            config: SpannedConfig::new(alloc),
            compact: CompactConfig::new(),
            settings: Vec::new(alloc),
        }
    }

    fn tell(&mut self, word: &str, words: &mut Words<'_>) -> Outcome {
        match word {
            "compact" => {
                let word = words.word();
                self.compact = with_setting(self.compact, word, words);
                Ok(())
            }
            "from_compact" => self.become_compact(),
            _ => add_setting(&mut self.settings, word, words),
        }
    }

    fn settle(&mut self, words: &mut Words<'_>) -> Outcome {
        let settings = mem::replace(&mut self.settings, Vec::new(self.alloc));
        if !settings.iter().all(|setting| setting.is_in_range()) {
            words.lacks("settings in range above");
            drop(settings);
            return Ok(());
        }
        match self.config.apply_all(settings) {
            Ok(()) => Ok(()),
            Err(_) => Err(AllocError),
        }
    }

    fn ask(&self, word: &str, words: &mut Words<'_>, answer: &mut Answer) -> Outcome {
        if word == "is_in_range" {
            let word = words.word();
            answer.flag(is_in_range(word, words));
            return Ok(());
        }
        config_questions::ask(&self.config, word, words, answer)
    }

    fn is_like(&self, other: &Config) -> bool {
        self.config == other.config
    }

    fn copy_from(&mut self, other: &Config) -> Outcome {
        copy(&mut self.config, &other.config)?;
        self.compact = other.compact;
        Ok(())
    }
}

/// Whether what a line tells is a setting in range.
fn is_in_range(word: &str, words: &mut Words<'_>) -> bool {
    let setting = setting(word, words);
    let is_in_range = match &setting {
        Some(setting) => setting.is_in_range(),
        None => false,
    };
    drop(setting);
    is_in_range
}

/// Adds the setting that a line tells to those that are applied next.
fn add_setting(settings: &mut Vec<Setting>, word: &str, words: &mut Words<'_>) -> Outcome {
    match setting(word, words) {
        Some(setting) => add_to(settings, setting),
        None => Ok(()),
    }
}
