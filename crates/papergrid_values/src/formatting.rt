//! How the text of a cell is laid out. Source: `config/formatting.rs`.

ghost use Rattle.std.specs.Prelude.{◌≡◌};

/// Three flags, all of them false by default.
#[derive(Clone, Copy, Debug, Default, PartialEq, Eq, PartialOrd, Ord, Hash)]
pub struct Formatting {
    /// Whether spaces are trimmed left and right.
    pub horizontal_trim: bool,
    /// Whether blank lines are trimmed at the top and the bottom.
    pub vertical_trim: bool,
    /// Whether each line is aligned by itself.
    pub allow_lines_alignment: bool,
}

impl Formatting {
    /// The flags, in the order of the fields.
    pub fn new(horizontal_trim: bool, vertical_trim: bool, lines_alignment: bool) -> Formatting
        ensures { result ≡ record {
          horizontal_trim = horizontal_trim;
          vertical_trim = vertical_trim;
          allow_lines_alignment = lines_alignment;
        } }
    {
        Formatting {
            horizontal_trim,
            vertical_trim,
            allow_lines_alignment: lines_alignment,
        }
    }
}
