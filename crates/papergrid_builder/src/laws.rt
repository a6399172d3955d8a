//! Laws of what a builder answers, each the contract of a function that does nothing.

ghost use Rattle.std.specs.Prelude.{◌≡◌, ◌↔◌, true};
ghost use Rattle.papergrid_builder.specs.declared.error.BuilderError.{BuilderError};

use crate::error::BuilderError;

/// A clone equals its original, and two errors are equal exactly where they are the same.
pub fn errors()
    ensures clones { (x y : BuilderError) → ⟦<BuilderError as Clone>⟧.is_clone x y → y ≡ x }
    ensures equal { (x y : BuilderError) →
        (⟦<BuilderError as PartialEq>⟧.eq x y ≡ true) ↔ (x ≡ y) }
{}
