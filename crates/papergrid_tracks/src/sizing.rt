//! How the sizes of a table are chosen.

/// How the widths of the columns and the heights of the rows of a table are chosen.
#[derive(Clone, Copy, Debug, PartialEq, Eq)]
pub enum Sizing {
    /// A cell over several columns or rows distributes its deficit evenly among them, the smaller
    /// spans first. Totals are least where spans are nested or disjoint.
    ByShares,
    /// Totals are least whatever spans cross; the sizes are those by shares wherever these are least.
    Least,
}
