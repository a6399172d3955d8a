//! What stands at a path of a document, and the plain values there.

ghost use Rattle.std.specs.Prelude.{◌≡◌, option_and_then, option_map};
ghost use Rattle.serde_json.specs.Find.{as_array, as_object, as_str, at, get};
ghost use Rattle.serde_json.specs.View.{items_view, members_view, view};
ghost use Rattle.papergrid_json.specs.ForProofs.Reading.{AreItems, IsReading, IsReadingAs, IsTest, found};
ghost use Rattle.papergrid_json.specs.Spots.{character_at, count_at, flag_at, is_list_of, is_missing, list_at, number_at, two_numbers_at, word_at};
ghost use Rattle.papergrid_json.specs.declared.error.Fault.TheVariants.{Unexpected};

use crate::error::Fault;
use crate::path::DocumentPath;
use papergrid_text::string::single_character;
use serde_json::{Map, Value};
use std::alloc::Global;

/// What stands at a path, if something does.
#[derive(Clone, Copy)]
pub struct Spot<'v> {
    pub value: Option<&'v Value>,
    pub path: DocumentPath,
}

impl<'v> Spot<'v> {
    /// A member of the document.
    pub fn member(document: &'v Value, name: &'static str) -> Spot<'v>
        ensures { found result ≡ get name.now (view document.now) }
    {
        Spot {
            value: document.get(name),
            path: DocumentPath::of(name),
        }
    }

    /// An item of the list that stands here.
    pub fn at(&self, index: usize) -> Spot<'v>
        ensures { found result ≡ option_and_then (at index) (found self.now) }
    {
        Spot {
            value: match self.value {
                Some(value) => value.get(index),
                None => None,
            },
            path: self.path.at(index),
        }
    }

    /// A field of what stands here.
    pub fn field(&self, name: &'static str) -> Spot<'v>
        ensures { found result ≡ option_and_then (get name.now) (found self.now) }
    {
        Spot {
            value: match self.value {
                Some(value) => value.get(name),
                None => None,
            },
            path: self.path.field(name),
        }
    }

    /// Whether nothing stands here, or `null`.
    pub fn is_empty(&self) -> bool
        ensures { result ≡ is_missing (found self.now) }
    {
        match self.value {
            Some(value) => value.is_null(),
            None => true,
        }
    }

    /// The items of the list that stands here.
    pub fn list(&self) -> Option<&'v [Value]>
        ensures { option_map (λ items. items_view items.now) result
            ≡ option_and_then as_array (found self.now) }
    {
        match self.value {
            Some(Value::Array(items)) => Some(items.as_slice()),
            _ => None,
        }
    }

    /// The members of the object that stands here.
    pub fn members(&self) -> Option<&'v Map<String, Value>>
        ensures { option_map (λ members. members_view members.now.entries) result
            ≡ option_and_then as_object (found self.now) }
    {
        match self.value {
            Some(Value::Object(members)) => Some(members),
            _ => None,
        }
    }

    /// The text that stands here.
    pub fn text(&self) -> Option<&'v str>
        ensures { option_map (λ text. text.now) result
            ≡ option_and_then as_str (found self.now) }
    {
        match self.value {
            Some(Value::String(text)) => Some(text.as_str()),
            _ => None,
        }
    }

    /// How many items the list that stands here has.
    pub fn count(&self) -> Option<usize>
        ensures { result ≡ count_at (found self.now) }
    {
        match self.list() {
            Some(items) => Some(items.len()),
            None => None,
        }
    }

    /// The word that stands here, alone or before so many other items of a list.
    pub fn word(&self) -> Option<(&'v str, usize)>
        ensures { option_map (λ word. (word.0.now, word.1)) result ≡ word_at (found self.now) }
    {
        match self.count() {
            None => Some((self.text()?, 0)),
            Some(count) => Some((self.at(0).text()?, count.saturating_sub(1))),
        }
    }

    /// That something else is wanted here.
    pub fn unexpected(&self, wanted: &'static str) -> Fault<'v>
        ensures { result ≡ Unexpected self.now.path wanted.entry }
    {
        Fault::Unexpected(self.path, wanted)
    }

    /// The number that stands here.
    pub fn number(&self) -> Result<usize, Fault<'v>>
        ensures { IsReading (number_at (found self.now)) result }
    {
        match self.value.and_then(Value::as_u64) {
            Some(number) => Ok(number as usize),
            None => Err(self.unexpected("a whole number from 0 on")),
        }
    }

    /// The truth value that stands here.
    pub fn flag(&self) -> Result<bool, Fault<'v>>
        ensures { IsReading (flag_at (found self.now)) result }
    {
        match self.value {
            Some(Value::Bool(flag)) => Ok(*flag),
            _ => Err(self.unexpected("true or false")),
        }
    }

    /// The character that stands here.
    pub fn character(&self) -> Result<char, Fault<'v>>
        ensures { IsReading (character_at (found self.now)) result }
    {
        match self.text().and_then(single_character) {
            Some(character) => Ok(character),
            None => Err(self.unexpected("a text of one character")),
        }
    }

    /// That a list of so many items stands here.
    pub fn expect_items(&self, count: usize, wanted: &'static str) -> Result<(), Fault<'v>>
        ensures { IsTest (is_list_of count (found self.now)) result }
    {
        if self.count() == Some(count) {
            Ok(())
        } else {
            Err(self.unexpected(wanted))
        }
    }

    /// The two numbers of the list that stands here.
    pub fn two_numbers(&self, wanted: &'static str) -> Result<(usize, usize), Fault<'v>>
        ensures { IsReading (two_numbers_at (found self.now)) result }
    {
        self.expect_items(2, wanted)?;
        Ok((self.at(0).number()?, self.at(1).number()?))
    }

    /// The numbers of the list that stands here.
    pub fn numbers(&self, alloc: Global) -> Result<Vec<usize>, Fault<'v>>
        ensures { IsReadingAs AreItems (list_at number_at (found self.now)) result }
    {
        let Some(count) = self.count() else {
            return Err(self.unexpected("a list of numbers"));
        };
        let mut numbers = Vec::with_capacity(alloc, count)?;
        for index in 0..count {
            numbers.push(self.at(index).number()?)?;
        }
        Ok(numbers)
    }
}
