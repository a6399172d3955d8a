//! The texts of many cells, in one text.

ghost use Rattle.std.specs.Prelude.{◌≡◌, ◌∷◌, ◌++◌, [], IfOk, OnErr, OnOk, length, map, take};

use std::alloc::{AllocError, Global};
use std::marker::Model;

/// The texts of many cells, one behind another in one text, which is not cut anew for each of them.
pub struct CellTexts {
    text: String,
    /// Where each cell begins in it, and where it ends.
    ranges: Vec<(usize, usize)>,
}

// By hand: docs/DECISIONS.md, "Drops".
impl Drop for CellTexts {
    fn drop(self) {
        let CellTexts { text: _, ranges: _ } = self;
    }
}

impl Model for CellTexts {
    ghost use Rattle.std.specs.Prelude.{List, ℕ, map, string_bytes};
    ghost use Rattle.std.specs.Coded.{coded_list, coded_ℕ};
    ghost use Rattle.papergrid_builder.specs.ForProofs.Texts.{AreCells, text_in};

    ghost Value = { List (List ℕ) };

    ghost coded = { coded_list (coded_list coded_ℕ) };

    ghost view = { λ c. map (text_in (string_bytes c.text)) c.ranges.items };

    ghost invariant = { λ c. AreCells (string_bytes c.text) c.ranges.items };
}

impl CellTexts {
    /// No cells.
    pub fn new(alloc: Global) -> CellTexts
        ensures { result ≡ [] }
    {
        CellTexts {
            text: String::new(alloc),
            ranges: Vec::new(alloc),
        }
    }

    /// How many there are.
    pub fn len(&self) -> usize
        ensures { result ≡ length self.now }
    {
        self.ranges.len()
    }

    /// One more cell. Where an allocation fails there is none more.
    pub fn push(&mut self, cell: &str) -> Result<(), AllocError>
        ensures ok { OnOk result (self.new ≡ self.old ++ cell.now ∷ []) }
        ensures err { OnErr result (self.new ≡ self.old) }
    {
        let start = self.text.len();
        self.text.push_str(cell)?;
        self.ranges.push((start, self.text.len()))?;
        Ok(())
    }

    /// Keeps the first cells, so many of them. The bytes of the others stay in the text.
    pub fn truncate(&mut self, count: usize)
        ensures { self.new ≡ take count self.old }
    {
        self.ranges.truncate(count);
    }

    /// The texts of the cells.
    pub fn texts(&self, alloc: Global) -> Result<Vec<&str>, AllocError>
        ensures { IfOk result (λ texts. map (λ text. text.now) texts.items ≡ self.now) }
    {
        let mut texts = Vec::with_capacity(alloc, self.ranges.len())?;
        for &(start, end) in &self.ranges {
            texts.push(&self.text[start..end])?;
        }
        Ok(texts)
    }
}
