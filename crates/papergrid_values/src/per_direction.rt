//! A value for each of the two directions of a table.

/// One for the columns and one for the rows. It is this port's own: papergrid has pairs of vectors in its place.
#[derive(Clone, Copy, Debug, PartialEq, Eq, Drop)]
pub struct PerDirection<T> {
    pub columns: T,
    pub rows: T,
}
