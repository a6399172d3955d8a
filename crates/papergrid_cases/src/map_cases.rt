//! Maps of characters by entity.

use crate::answer::Answer;
use crate::pair::{Kind, copy};
use crate::reading::Words;
use crate::running::{Outcome, add_to};
use crate::size_questions::show_found;
use papergrid_maps::{EntityMap, MapCall};
use std::alloc::{AllocError, Global};
use std::mem;

/// A map of characters that begins with `g` for all cells. Calls are made as lists, before the next line that is none.
#[derive(Drop)]
pub struct Map {
    alloc: Global,
    map: EntityMap<char>,
    calls: Vec<MapCall<char>>,
}

impl Kind for Map {
    fn new_one(alloc: Global) -> Map {
        Map {
            alloc,
            map: EntityMap::new(alloc, 'g'),
            calls: Vec::new(alloc),
        }
    }

    fn tell(&mut self, word: &str, words: &mut Words<'_>) -> Outcome {
        let call = match word {
            "insert" => MapCall::Insert(words.entity(), words.character()),
            "remove" => MapCall::Remove(words.entity()),
            _ => {
                words.lacks("insert, remove, swap or copy");
                return Ok(());
            }
        };
        add_to(&mut self.calls, call)
    }

    fn settle(&mut self, _words: &mut Words<'_>) -> Outcome {
        let calls = mem::replace(&mut self.calls, Vec::new(self.alloc));
        match self.map.apply_all(calls) {
            Ok(()) => Ok(()),
            Err(_) => Err(AllocError),
        }
    }

    fn ask(&self, word: &str, words: &mut Words<'_>, answer: &mut Answer) -> Outcome {
        match word {
            "get" => answer.mark(Some(self.map.get(words.position()))),
            "as_ref" => answer.mark(Some(self.map.as_ref())),
            "any_held" => {
                let wanted = words.character();
                answer.flag(self.map.any_held(|value| *value == wanted));
            }
            "is_empty" => answer.flag(self.map.is_empty()),
            "held_cells" => return show_found(self.map.held_cells(), answer),
            "into_map" => return in_map(&self.map, words, answer),
            _ => words.lacks("a question"),
        }
        Ok(())
    }

    fn is_like(&self, other: &Map) -> bool {
        self.map == other.map
    }

    fn copy_from(&mut self, other: &Map) -> Outcome {
        copy(&mut self.map, &other.map)
    }
}

/// How many values the map holds, and that of the entity that the line names, if it names one.
fn in_map(map: &EntityMap<char>, words: &mut Words<'_>, answer: &mut Answer) -> Outcome {
    let map = map.clone()?;
    let all = map.into_map()?;
    answer.number(all.len());
    if !words.is_empty() {
        answer.mark(all.get(&words.entity()));
    }
    Ok(())
}
