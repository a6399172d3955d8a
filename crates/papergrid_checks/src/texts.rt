//! Texts, measured.

ghost use Rattle.std.specs.Prelude.{◌≡◌, length};
ghost use Rattle.papergrid_text.specs.Text.{greatest_width, split_lines};

use papergrid::util::string::get_text_dimension;

/// The lines of a text and its width, in columns of a terminal.
pub fn measures(text: &str) -> (usize, usize)
    ensures lines { result.0 ≡ length (split_lines text.now) }
    ensures width { result.1 ≡ greatest_width (split_lines text.now) }
{
    get_text_dimension(text)
}
