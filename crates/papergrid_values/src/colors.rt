//! The colours of the texts of cells. Source: `colors/mod.rs`, `colors/nocolors.rs`.

ghost use Rattle.std.specs.Prelude.{◌≡◌, ◌↔◌, ⊤, IsTrue, None, Ok, Option, refl};
ghost use Rattle.std.specs.Option.{option_copied};
ghost use Rattle.std.specs.BTreeMap.{get as tree_get};
ghost use Rattle.std.specs.HashMap.{get as map_get};
ghost use Rattle.papergrid_values.specs.declared.position.Position.{Position};
ghost use Rattle.papergrid_values.specs.MapKeys.{position_cmp, position_eq};

use crate::{ANSIFmt, Position};
use std::collections::{BTreeMap, HashMap};
use std::fmt;

/// A colour for each position, or none. Where it says that it is empty, no position has one.
pub trait Colors {
    type Color: ANSIFmt;

    // The colour of each position.
    ghost color_at: { Self → Position → Option Self.Color };

    // Holds of the values that say that they are empty.
    ghost is_blank: { Self → Type 0 };

    /// The colour at a position, if it has one.
    fn get_color(&self, position: Position) -> Option<&Self::Color>
        ensures { option_copied result ≡ color_at self.now position };

    /// Whether it is empty, so that no position has a colour.
    fn is_empty(&self) -> bool
        ensures { IsTrue result ↔ is_blank self.now };

    ghost blank_has_none: { (colors : Self) (position : Position) → is_blank colors → color_at colors position ≡ None };
}

impl<C: Colors> Colors for &C {
    type Color = C::Color;

    ghost color_at = { λ colors. C.color_at colors.now };

    ghost is_blank = { λ colors. C.is_blank colors.now };

    ghost blank_has_none = { λ colors. C.blank_has_none colors.now };

    fn get_color(&self, position: Position) -> Option<&C::Color> {
        C::get_color(*self, position)
    }

    fn is_empty(&self) -> bool {
        C::is_empty(*self)
    }
}

impl<C: ANSIFmt> Colors for HashMap<Position, C> {
    type Color = C;

    ghost color_at = { map_get position_eq };

    ghost is_blank = { λ colors. (position : Position) → map_get position_eq colors position ≡ None };

    ghost blank_has_none = { λ colors position none. none position };

    fn get_color(&self, position: Position) -> Option<&C> {
        self.get(&position)
    }

    fn is_empty(&self) -> bool {
        self.is_empty()
    }
}

impl<C: ANSIFmt> Colors for BTreeMap<Position, C> {
    type Color = C;

    ghost color_at = { tree_get position_cmp };

    ghost is_blank = { λ colors. (position : Position) → tree_get position_cmp colors position ≡ None };

    ghost blank_has_none = { λ colors position none. none position };

    fn get_color(&self, position: Position) -> Option<&C> {
        self.get(&position)
    }

    fn is_empty(&self) -> bool {
        self.is_empty()
    }
}

/// No colours.
#[derive(Clone, Copy, Debug, Default, PartialEq, Eq, PartialOrd, Ord, Hash)]
pub struct NoColors;

impl Colors for NoColors {
    type Color = NoColor;

    ghost color_at = { λ _ _. None };

    ghost is_blank = { λ _. ⊤ };

    ghost blank_has_none = { λ _ _ _. refl };

    fn get_color(&self, _position: Position) -> Option<&NoColor> {
        None
    }

    fn is_empty(&self) -> bool {
        true
    }
}

/// A colour that writes nothing.
#[derive(Clone, Copy, Debug, Default, PartialEq, Eq, PartialOrd, Ord, Hash)]
pub struct NoColor;

impl ANSIFmt for NoColor {
    // It has no suffix of its own, and writes none of a terminal's either.
    ghost suffix_text = { λ _. None };

    fn fmt_ansi_prefix<W: fmt::Write>(&self, f: &mut W) -> fmt::Result
        ensures ok { result ≡ Ok tt }
        ensures nothing { f.new ≡ f.old }
    {
        Ok(())
    }

    fn fmt_ansi_suffix<W: fmt::Write>(&self, f: &mut W) -> fmt::Result
        ensures ok { result ≡ Ok tt }
        ensures nothing { f.new ≡ f.old }
    {
        Ok(())
    }
}
