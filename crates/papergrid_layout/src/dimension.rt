//! What has widths of columns and heights of rows, and what takes them from records. Source:
//! `dimension/mod.rs`.

ghost use Rattle.std.specs.Prelude.{◌≡◌, ℕ, IfErr, IfOk, OnErr};
ghost use Rattle.papergrid_tracks.specs.declared.error.LayoutError.{LayoutError};

use papergrid_tracks::LayoutError;

/// The sizes of a table.
pub trait Dimension {
    // The columns and the rows that have a size.
    ghost has_column: { Self → ℕ → Type 0 };

    ghost has_row: { Self → ℕ → Type 0 };

    // Their sizes.
    ghost width_of: { Self → ℕ → ℕ };

    ghost height_of: { Self → ℕ → ℕ };

    /// The width of a column, in columns of a terminal. Condition: there is one for it.
    fn get_width(&self, column: usize) -> usize
        requires { has_column self.now column }
        ensures { result ≡ width_of self.now column };

    /// The height of a row, in lines. Condition: there is one for it.
    fn get_height(&self, row: usize) -> usize
        requires { has_row self.now row }
        ensures { result ≡ height_of self.now row };
}

impl<T: Dimension> Dimension for &T {
    ghost has_column = { λ d column. T.has_column d.now column };

    ghost has_row = { λ d row. T.has_row d.now row };

    ghost width_of = { λ d column. T.width_of d.now column };

    ghost height_of = { λ d row. T.height_of d.now row };

    fn get_width(&self, column: usize) -> usize {
        T::get_width(*self, column)
    }

    fn get_height(&self, row: usize) -> usize {
        T::get_height(*self, row)
    }
}

/// What takes its sizes from records, by a configuration.
pub trait Estimate<R, C> {
    // The records that it takes.
    ghost accepts: { R → Type 0 };

    // Holds of what has the sizes of the records.
    ghost is_estimate: { Self → R → C → Type 0 };

    // Holds of why the records have no sizes.
    ghost is_refused: { Self → R → C → LayoutError → Type 0 };

    /// Takes the sizes of the records.
    ///
    /// Condition: the records are lawful: they yield one finite list of rows, as each vector of
    /// rows does.
    ///
    /// # Errors
    ///
    /// `OutOfTable` with the first visible cell that overflows the table, else `TooLarge` where the
    /// sizes with the lines of the table (of `CompactGridDimension` the sizes alone, of
    /// `LeastGridDimension` any sizes with room for each visible cell) come to more than the
    /// greatest `usize`; `Memory` in place of any answer. The sizes are then as they were.
    fn estimate(&mut self, records: R, config: &C) -> Result<(), LayoutError>
        requires { accepts records }
        ensures ok { IfOk result (λ _. is_estimate self.new records config.now) }
        ensures err { IfErr result (λ error. is_refused self.old records config.now error) }
        ensures kept { OnErr result (self.new ≡ self.old) };
}

impl<T: Estimate<R, C>, R, C> Estimate<R, C> for &mut T {
    ghost accepts = { T.accepts };

    ghost is_estimate = { λ d records config. T.is_estimate d.now records config };

    ghost is_refused = { λ d records config error. T.is_refused d.now records config error };

    fn estimate(&mut self, records: R, config: &C) -> Result<(), LayoutError> {
        (**self).estimate(records, config)
    }
}
