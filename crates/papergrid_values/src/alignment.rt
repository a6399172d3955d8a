//! Where a text stands in its cell. Source: `config/alignment.rs`.

/// Where it stands between left and right.
#[derive(Clone, Copy, Debug, PartialEq, Eq, PartialOrd, Ord, Hash)]
pub enum AlignmentHorizontal {
    Left,
    Center,
    Right,
}

/// Where it stands between top and bottom.
#[derive(Clone, Copy, Debug, PartialEq, Eq, PartialOrd, Ord, Hash)]
pub enum AlignmentVertical {
    Top,
    Center,
    Bottom,
}
