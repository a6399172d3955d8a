//! What the program says of itself.

use papergrid_script::program::add_forms;
use std::alloc::{AllocError, Global};

const TAKEN: &str = "\
papergrid_table [OPTION].. [--] [FILE]

Reads a CSV file, a TSV file, JSON or a script from FILE, or from standard input where there is
none or it is -, and writes the table. For example: papergrid_table --style markdown pets.csv

What FILE is (else by its name: .tsv is TSV, .json is JSON, .txt is a script, all else is CSV):
  --csv                   fields between commas, with quotes, as RFC 4180 has them
  --tsv                   fields between tabs; \\t, \\n and \\\\ stand for a tab, a line feed and \\
  --json                  a document of rows and all settings, which --help-json explains
  --script                lines that tell a table (below)
  --delimiter C           of CSV: the byte between fields in place of a comma, or the word tab
  --strict                refuses a row with another number of fields than the first

How the table looks:
  --style S               rounded (without this), ascii, modern, sharp, extended, psql,
                          markdown, rst, dots, blank or none
  --no-header             the first row is no head: no line is drawn below it (markdown, psql and
                          rst keep theirs), and auto counts it; --header is the opposite
  --align A               left, center, right, or auto: columns of numbers right, others left
  --align COLUMN=A        of one column, by its head or as c0, c1 ..; the last one counts
  --valign A              top, center or bottom, of a text in a row of several lines
  --pad N, --pad L,R,T,B  blanks on both sides; or left and right, and lines above and below
  --span R,C=N            the cell at row R, column C, both counted from 0, spans N columns
  --span R,C=MxN          it spans M rows and N columns
  --hide                  lets a span hide fields that are not empty
  --fit-crossings         gives the crossings of lines the characters that fit the spans
  --least                 chooses sizes of the least total, whatever spans cross

How fields are shown:
  --cut N                 cuts lines longer than N columns; they end with an ellipsis then
  --width N               makes the table at most N columns wide: where it is wider, it cuts by the
                          greatest N of --cut that does; N is at most 1000; not together with
                          --cut or --max-width
  --tab N                 N blanks for a tab, which is spelled \\t without this
  --one-line              spells a line feed \\n, so that each field has one line
  --raw                   leaves control characters, so that the table may not line up

What is checked, and said:
  --max-width N           refuses a table wider than N columns, and says which cells make it so
  --witness               names the cells that show why the table is no narrower and no lower
  --check PICTURE         writes nothing, and says whether the file PICTURE is what would be
                          written, or where it differs first
  --help, -h              writes this
  --help-json             writes how a JSON document tells a table
  --version, -V           writes the name and the version
  --                      ends the options, so that FILE may begin with -

A value may stand in the same word: --style=ascii. Of an option that is given twice the last one
counts; --span and --align COLUMN=A add up.

A script has lines of these forms, and empty lines. Rows and columns are counted from 0.
";

const WRITTEN: &str = "
The status is 0 for a table (--check: it is PICTURE), 1 for a refusal (--check: it is not), 2 for
a bad input or argument, and 3 for a fault: memory, an input that can't be read, an output that
can't be written. Nothing is written before the whole input is judged.
";

/// What the program takes, the lines of a script, and how it ends.
pub fn help_text(alloc: Global) -> Result<String, AllocError> {
    let mut text = String::from_str(alloc, TAKEN)?;
    add_forms(&mut text)?;
    text.push_str(WRITTEN)?;
    Ok(text)
}
