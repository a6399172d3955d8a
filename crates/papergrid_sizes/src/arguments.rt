//! What the arguments ask for.

ghost use Rattle.std.specs.Prelude.{◌≡◌};
ghost use Rattle.std.specs.Vec.Iter.{into_iter_items};
ghost use Rattle.std.specs.Result.{result_map_both};
ghost use Rattle.papergrid_sizes.specs.Arguments.{asked_by_words, next_requested};
ghost use Rattle.papergrid_sizes.specs.ForProofs.Drafts.{requested_by};

use papergrid::Sizing;
use papergrid_script::program::{Request, Unexpected, asked_by};
use std::env::Args;

/// What is wanted of the table.
#[derive(Clone, Copy)]
pub struct Wanted {
    /// How its sizes are chosen.
    pub sizing: Sizing,
    /// Whether only their totals are written.
    pub only_totals: bool,
}

/// What the words so far say.
#[derive(Drop)]
struct Draft {
    takes_options: bool,
    asked: Option<Request>,
    wanted: Wanted,
}

/// What the words after the program's name ask for: options in any order, and one other word at most. After `--`
/// no word is an option.
pub fn asked_for(words: Args) -> Result<(Request, Wanted), Unexpected>
    ensures { result ≡ asked_by_words (into_iter_items words) }
{
    let mut draft = Draft {
        takes_options: true,
        asked: None,
        wanted: Wanted {
            sizing: Sizing::ByShares,
            only_totals: false,
        },
    };
    for word in words {
        draft.take(word)?;
    }
    let Draft {
        takes_options: _,
        asked,
        wanted,
    } = draft;
    Ok((asked.unwrap_or(Request::OfInput), wanted))
}

impl Draft {
    /// Takes one word more.
    #[tactic(auto, unfolding(crate::specs::Arguments::next_requested))]
    fn take(&mut self, word: String) -> Result<(), Unexpected>
        ensures { result_map_both (λ _. requested_by self.new) (λ word. word) result
            ≡ next_requested (requested_by self.old) word }
    {
        match word.as_str() {
            "--" if self.takes_options => self.takes_options = false,
            "--least" if self.takes_options => self.wanted.sizing = Sizing::Least,
            "--total" if self.takes_options => self.wanted.only_totals = true,
            _ => {
                let request = asked_by(self.asked.is_some(), word, self.takes_options)?;
                self.asked = Some(request);
            }
        }
        Ok(())
    }
}
