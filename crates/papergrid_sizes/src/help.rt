//! What the program says of itself.

use papergrid_script::program::add_forms;
use std::alloc::{AllocError, Global};

const TAKEN: &str = "\
papergrid_sizes [--least] [--total] [--] [FILE]
papergrid_sizes --help | --version

Reads a script that tells a table, from FILE, or from standard input where there is none or
it is -, and writes the width of each column, in columns of a terminal, and the height of each
row, in lines.

  --least                           chooses sizes by which no smaller total has room for every
                                    cell, whatever spans cross
  --total                           writes of sizes the line of the totals alone
  --                                ends the options, so that FILE may begin with -
  --help, -h                        writes this
  --version, -V                     writes the name and the version

A script has lines of these forms, and empty lines. Rows and columns are counted from 0.

";

const WRITTEN: &str = "
What comes out, where the total counts the lines of the table too:

  widths ..                         the width of each column
  heights ..                        the height of each row
  total WIDTH HEIGHT                the size of the table
  witness widths R,C ..             cells which show that no smaller total has room for every
  witness heights R,C ..            cell, or none where spans cross, but never with --least

or one of these, with more on standard error:

  refused: out of table at R,C
  refused: too large
  bad script at line N

The status is 0 for sizes, 1 for a refusal, 2 for a bad script or argument and 3 for a fault:
memory, an input that can't be read, an output that can't be written.
";

/// What the program takes, the lines of a script, and what comes out.
pub fn help_text(alloc: Global) -> Result<String, AllocError> {
    let mut text = String::from_str(alloc, TAKEN)?;
    add_forms(&mut text)?;
    text.push_str(WRITTEN)?;
    Ok(text)
}
