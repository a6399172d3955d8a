//! What a configuration says of one direction.

ghost use Rattle.std.specs.Prelude.{◌≡◌, ◌≤◌, ℕ, Bool};
ghost use Rattle.papergrid_values.specs.declared.position.Position.{Position};

use papergrid_values::Position;

/// The spans and the lines along one direction of a table.
pub trait Axis {
    ghost span_of: { Self → Position → ℕ };

    ghost line: { Self → ℕ → Bool };

    /// How many tracks the cell at a position spans.
    fn span(&self, position: Position) -> usize
        ensures value { result ≡ span_of self.now position }
        ensures positive { 1 ≤ result };

    /// Whether there is a line before track `i`, or, at their count, after the last.
    fn has_line(&self, i: usize) -> bool
        ensures { result ≡ line self.now i };
}
