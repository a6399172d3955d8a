//! What the program says of JSON documents.

use crate::document::settings;
use std::alloc::{AllocError, Global};

const EXAMPLE: &str = "\
papergrid_table --json [FILE]

Reads a table as one JSON document. For example:

  {
    \"columns\": 2,
    \"settings\": [
      [\"SetBorders\", {\"horizontal\": \"-\", \"vertical\": \"|\", \"intersection\": \"+\"}],
      [\"SetPadding\", [\"Column\", 0], {\"left\": [1, \" \"], \"right\": [1, \" \"]}],
      [\"SetAlignmentHorizontal\", [\"Cell\", 1, 0], \"Right\"]
    ],
    \"records\": [[\"name\", \"kind\"], [\"Ada\", \"cat\"]],
    \"colors\": [[1, 0, \"\\u001b[31m\", \"\\u001b[39m\"]]
  }

  records   rows of texts; a row may be shorter than the others
  columns   how many columns there are; without this as many as the longest row has
  settings  what the table looks like, in the order in which it is set (below)
  colors    row, column, and the texts before and after the text of that cell
  sizes     {\"widths\": [..], \"heights\": [..]} in place of those that are found

Other members are passed over. Rows and columns are counted from 0. The settings, where a part
of an object that is missing, or null, is not set:

";

const VALUES: &str = "
  ENTITY          \"Global\", [\"Column\", N], [\"Row\", N] or [\"Cell\", ROW, COLUMN]
  POSITION        [ROW, COLUMN]
  SHAPE           [ROWS, COLUMNS]
  OFFSET          [\"Start\", N] or [\"End\", N]
  CHARACTER       a text of one character
  BOOLEAN         true or false
  COLOUR          [text before what is coloured, text after it]
  ALIGNMENT       \"Left\", \"Center\" or \"Right\"; \"Top\", \"Center\" or \"Bottom\"
  INDENTS         sides of [SIZE, CHARACTER]
  OFFSETS         sides of OFFSET
  SIDE-COLOURS    sides of COLOUR
  FRAME           characters of top, bottom, left, right, horizontal, vertical, intersection,
                  top_left, top_right, bottom_left, bottom_right, and SIDE_intersection
  FRAME-COLOURS   the same of COLOUR
  BORDER          characters of top, bottom, left, right, left_top_corner, right_top_corner,
                  left_bottom_corner, right_bottom_corner
  BORDER-COLOURS  the same of COLOUR
  LINE            characters of main, intersection, and of left and right, or top and bottom

Sides are top, bottom, left and right.
";

/// An example of a document, and all settings.
pub fn json_help_text(alloc: Global) -> Result<String, AllocError> {
    let mut text = String::from_str(alloc, EXAMPLE)?;
    add_settings(&mut text)?;
    text.push_str(VALUES)?;
    Ok(text)
}

/// Adds how each setting is spelled.
fn add_settings(text: &mut String) -> Result<(), AllocError> {
    for (.., spelled) in settings() {
        writeln!(text, "  {spelled}")?;
    }
    Ok(())
}
