//! What the arguments ask for.

ghost use Rattle.std.specs.Prelude.{◌≡◌, IfOk, None, string_bytes};
ghost use Rattle.std.specs.Vec.Iter.{into_iter_items};
ghost use Rattle.papergrid_csv.specs.Requests.{IsSeparating};
ghost use Rattle.papergrid_table.specs.Arguments.{IsAskedFor, finished, kind_of_file, next_said, with_option_word, with_other_word, words_told};
ghost use Rattle.papergrid_table.specs.Options.{option_told};
ghost use Rattle.papergrid_table.specs.ForProofs.Drafts.{IsAnswer, said_of};

use crate::chosen::Chosen;
use crate::options::{ValuedOption, option_of};
use papergrid_csv::Request;
use papergrid_script::program::{Request as Asked, Unexpected, asked_by};
use std::alloc::{AllocError, Global};
use std::env::Args;

/// What is to be done, and how.
pub struct Wanted {
    pub kind: Kind,
    /// What is asked of the table of a text. Its sizing is that of a script or document too.
    pub request: Request,
    /// The greatest width of the table of a text whose fields are cut for that.
    pub width: Option<usize>,
    /// Whether the cells are named that show why the table is no smaller.
    pub witness: bool,
    /// The file that is compared with what would be written.
    pub check: Option<String>,
    /// Whether the form of documents is told, and nothing else is done.
    pub explains_json: bool,
}

// By hand: docs/DECISIONS.md, "Drops".
impl Drop for Wanted {
    fn drop(self) {
        let Wanted {
            kind: _,
            request: _,
            width: _,
            witness: _,
            check: _,
            explains_json: _,
        } = self;
    }
}

/// Why arguments are not taken.
#[derive(Drop)]
pub enum Misuse {
    /// This is said of them.
    Said(String),
    /// The program does not take this word.
    Unexpected(Unexpected),
    /// A growth was refused.
    Memory,
}

impl From<AllocError> for Misuse {
    ghost use Rattle.papergrid_table.specs.declared.arguments.Misuse.TheVariants.{Memory};

    ghost from_gives = { λ _ error. error ≡ Memory };

    fn from(_error: AllocError) -> Misuse {
        Misuse::Memory
    }
}

/// What an input is.
#[derive(Clone, Copy)]
pub enum Kind {
    Csv,
    Tsv,
    Json,
    Script,
}

/// What the words so far say.
struct Draft {
    takes_options: bool,
    asked: Option<Asked>,
    /// The option whose value is the next word.
    waits: Option<ValuedOption>,
    chosen: Chosen,
}

// By hand: docs/DECISIONS.md, "Drops".
impl Drop for Draft {
    fn drop(self) {
        let Draft {
            takes_options: _,
            asked: _,
            waits: _,
            chosen: _,
        } = self;
    }
}

/// What the words after the program's name ask for, of which input or of the program itself, and how: options in any
/// order, and one other word at most. After `--` no word is an option.
pub fn asked_for(alloc: Global, words: Args) -> Result<(Asked, Wanted), Misuse>
    ensures told { IsAskedFor (words_told (into_iter_items words)) result }
    // So each line of the table of a text is as wide as the table, in each style but one without lines or padding.
    ensures separators { IfOk result (λ asked. IsSeparating asked.1.request) }
{
    let mut draft = Draft {
        takes_options: true,
        asked: None,
        waits: None,
        chosen: Chosen::none(alloc),
    };
    for word in words {
        draft.take(word)?;
    }
    draft.finish()
}

impl Draft {
    /// Takes a word, which is the value of the option before it if that waits for one.
    fn take(&mut self, word: String) -> Result<(), Misuse>
        ensures { IsAnswer (λ _. said_of self.new) (next_said (said_of self.old) word) result }
    {
        if let Some(option) = self.waits {
            self.waits = None;
            return self.chosen.set(option, word.as_str());
        }
        if !self.takes_options {
            return self.ask(word);
        }
        if word.as_str() == "--" {
            self.takes_options = false;
            return Ok(());
        }
        self.take_option(word)
    }

    /// Takes a word that may be an option.
    fn take_option(&mut self, word: String) -> Result<(), Misuse>
        requires { self.old.waits ≡ None }
        ensures { IsAnswer (λ _. said_of self.new)
            (with_option_word word (option_told (string_bytes word)) (said_of self.old)) result }
    {
        match option_of(word.as_str()) {
            Some((option, value)) => {
                self.waits = self.chosen.begin(option, value)?;
                Ok(())
            }
            None => self.ask(word),
        }
    }

    /// Takes a word that is no option of a table.
    fn ask(&mut self, word: String) -> Result<(), Misuse>
        ensures { IsAnswer (λ _. said_of self.new)
            (with_other_word word (said_of self.old)) result }
    {
        match asked_by(self.asked.is_some(), word, self.takes_options) {
            Ok(asked) => {
                self.asked = Some(asked);
                Ok(())
            }
            Err(unexpected) => Err(Misuse::Unexpected(unexpected)),
        }
    }

    /// What all words ask for.
    fn finish(self) -> Result<(Asked, Wanted), Misuse>
        ensures told { IsAskedFor (finished (said_of self)) result }
        ensures separators { IfOk result (λ asked. IsSeparating asked.1.request) }
    {
        let Draft {
            takes_options: _,
            asked,
            waits,
            chosen,
        } = self;
        if let Some(option) = waits {
            return Err(chosen.lacks_value(option));
        }
        let asked = asked.unwrap_or(Asked::OfInput);
        let wanted = chosen.wanted(kind_of_file(&asked))?;
        Ok((asked, wanted))
    }
}

/// What a file has by the end of its name.
fn kind_of_file(asked: &Asked) -> Kind
    ensures { result ≡ kind_of_file asked.now }
{
    let Asked::OfFile(path) = asked else {
        return Kind::Csv;
    };
    let name = path.as_str().as_bytes();
    if name.ends_with(b".tsv") {
        Kind::Tsv
    } else if name.ends_with(b".json") {
        Kind::Json
    } else if name.ends_with(b".txt") {
        Kind::Script
    } else {
        Kind::Csv
    }
}
