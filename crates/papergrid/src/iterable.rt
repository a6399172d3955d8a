//! The printer over records whose cells are texts. Source: `grid/iterable.rs`. Each call takes an allocator first, for
//! the rows that it holds, for some numbers of each row and column and for a line.

ghost use Rattle.std.specs.Prelude.{◌≡◌, ⊤, List, length};
ghost use Rattle.papergrid_draw.specs.Margins.{printed};
ghost use Rattle.papergrid_draw.specs.Sinks.{WritesPicture};
ghost use Rattle.papergrid_layout.specs.Tables.{HasSizes};
ghost use Rattle.papergrid.specs.Printed.{IsPrintFault, IsPrinted, Prints, PrintsString};
ghost use Rattle.papergrid.specs.Sized.{texts_at};
ghost use Rattle.papergrid.specs.TextRows.{IsTextDrawing};

use crate::holding::held_table;
use crate::printer::print_sized;
use papergrid_config::SpannedConfig;
use papergrid_draw::delivery::{Delivery, ToSink, ToText};
use papergrid_draw::printer::string_of;
use papergrid_draw::{AsANSIStr, DrawError};
use papergrid_layout::Dimension;
use papergrid_text::transfer::Sink;
use papergrid_text::{IntoRecords, Records};
use papergrid_values::Colors;
use std::alloc::{AllocError, Global};
use std::convert::AsStr;
use std::fmt;

/// A table of records whose cells are texts. It has as many columns as the records say, a row for each of theirs, the
/// sizes of the dimension, and of each row the cells that lie in it. A printer walks the records once, and holds their
/// cells, whatever number of rows they hint at.
#[derive(Debug, Drop)]
pub struct IterGrid<'a, R, D, C> {
    /// The cells.
    pub records: R,
    /// The spans, the lines and the margins.
    pub config: &'a SpannedConfig,
    /// The widths of the columns and the heights of the rows.
    pub dimension: &'a D,
    /// The colours of the texts.
    pub colors: &'a C,
}

impl<'a, R, D, C> IterGrid<'a, R, D, C> {
    /// The table of these records. It takes no allocation, and looks at nothing.
    pub fn new(
        records: R,
        config: &'a SpannedConfig,
        dimension: &'a D,
        colors: &'a C,
    ) -> IterGrid<'a, R, D, C>
        ensures { result ≡ record {
          records = records;
          config = config.entry;
          dimension = dimension.entry;
          colors = colors.entry;
        } }
    {
        IterGrid {
            records,
            config,
            dimension,
            colors,
        }
    }
}

// By hand: docs/DECISIONS.md, "Clones".
impl<'a, R: Clone, D: Clone, C: Clone> Clone for IterGrid<'a, R, D, C> {
    ghost is_clone = { λ x y. R.is_clone x.records y.records × (y.config ≡ x.config)
        × (y.dimension ≡ x.dimension) × (y.colors ≡ x.colors) };

    ghost is_infallible = { λ x. R.is_infallible x.records };

    fn clone(&self) -> Result<IterGrid<'a, R, D, C>, AllocError> {
        Ok(IterGrid {
            records: self.records.clone()?,
            config: self.config,
            dimension: self.dimension,
            colors: self.colors,
        })
    }
}

impl<'a, R: Records + Drop, D: Dimension, C: Colors> IterGrid<'a, R, D, C>
where
    <<R as Records>::Iter as IntoRecords>::Cell: AsStr + Drop,
    <C as Colors>::Color: AsANSIStr,
{
    /// Writes the picture, by a way to deliver its lines.
    fn print<V: Delivery<W>, W>(self, alloc: Global, writer: &mut W) -> Result<(), DrawError>
        requires lawful { R.is_lawful self.records }
        requires rows { (cells : List (List R.Iter.Cell)) → R.tells self.records cells →
            HasSizes (D.has_row self.dimension.now) (length cells) }
        requires columns { HasSizes (D.has_column self.dimension.now) (R.columns self.records) }
        ensures { let IsDrawn = IsTextDrawing R.Iter.Cell.text (R.tells self.entry.records)
            (R.columns self.entry.records) self.entry.config.now
            (D.width_of self.entry.dimension.now) (D.height_of self.entry.dimension.now)
            (texts_at C.Color.texts C.color_at self.entry.colors.now) in
            Prints IsDrawn V.takes V.breaks writer.old writer.new result }
    {
        let held = held_table(alloc, self.records)?;
        let texts = held.texts(alloc, self.colors);
        print_sized::<_, _, V, W>(
            alloc,
            self.config,
            self.dimension,
            held.shape(),
            &texts,
            writer,
        )
    }

    /// Writes the picture as text, one line at a time: nothing of a table without rows or columns. A writer of text
    /// says nothing of a text that it did not take.
    ///
    /// Conditions: the records are lawful: they yield one finite list of rows, as each vector of rows does. The dimension
    /// has a height for each of the rows yielded, and a width for each column.
    ///
    /// # Errors
    ///
    /// `TooLarge` where the widths with the vertical lines, or the heights with the horizontal lines, come to more than
    /// the greatest `usize`, and the errors of `draw_text`: `OutOfTable`, `NotTiled`, `NoRoom` and `TooLarge` before
    /// anything is written; `Memory` and `Write` after a beginning of the picture.
    pub fn build<F: fmt::Write>(self, alloc: Global, writer: &mut F) -> Result<(), DrawError>
        requires lawful { R.is_lawful self.records }
        requires rows { (cells : List (List R.Iter.Cell)) → R.tells self.records cells →
            HasSizes (D.has_row self.dimension.now) (length cells) }
        requires columns { HasSizes (D.has_column self.dimension.now) (R.columns self.records) }
        ensures { let IsDrawn = IsTextDrawing R.Iter.Cell.text (R.tells self.entry.records)
            (R.columns self.entry.records) self.entry.config.now
            (D.width_of self.entry.dimension.now) (D.height_of self.entry.dimension.now)
            (texts_at C.Color.texts C.color_at self.entry.colors.now) in
            Prints IsDrawn F.write_str_gives (λ _ _ _. ⊤) writer.old writer.new result }
    {
        self.print::<ToText, F>(alloc, writer)
    }

    /// Writes the picture to a sink, one line at a time: nothing of a table without rows or columns.
    ///
    /// Conditions: the records are lawful: they yield one finite list of rows, as each vector of rows does. The dimension
    /// has a height for each of the rows yielded, and a width for each column.
    ///
    /// # Errors
    ///
    /// As those of `build`.
    pub fn write_to<W: Sink>(self, alloc: Global, sink: &mut W) -> Result<(), DrawError>
        requires lawful { R.is_lawful self.records }
        requires rows { (cells : List (List R.Iter.Cell)) → R.tells self.records cells →
            HasSizes (D.has_row self.dimension.now) (length cells) }
        requires columns { HasSizes (D.has_column self.dimension.now) (R.columns self.records) }
        ensures { let IsDrawn = IsTextDrawing R.Iter.Cell.text (R.tells self.entry.records)
            (R.columns self.entry.records) self.entry.config.now
            (D.width_of self.entry.dimension.now) (D.height_of self.entry.dimension.now)
            (texts_at C.Color.texts C.color_at self.entry.colors.now) in
            WritesPicture W.contents W.has_failed W.has_stalled
            (IsPrinted IsDrawn) (IsPrintFault IsDrawn) printed sink.old sink.new result }
    {
        self.print::<ToSink, W>(alloc, sink)
    }

    /// The picture: empty for a table without rows or columns.
    ///
    /// Conditions: the records are lawful: they yield one finite list of rows, as each vector of rows does. The dimension
    /// has a height for each of the rows yielded, and a width for each column.
    ///
    /// # Errors
    ///
    /// As those of `build`, but never `Write`.
    pub fn to_string(self, alloc: Global) -> Result<String, DrawError>
        requires lawful { R.is_lawful self.records }
        requires rows { (cells : List (List R.Iter.Cell)) → R.tells self.records cells →
            HasSizes (D.has_row self.dimension.now) (length cells) }
        requires columns { HasSizes (D.has_column self.dimension.now) (R.columns self.records) }
        ensures { let IsDrawn = IsTextDrawing R.Iter.Cell.text (R.tells self.entry.records)
            (R.columns self.entry.records) self.entry.config.now
            (D.width_of self.entry.dimension.now) (D.height_of self.entry.dimension.now)
            (texts_at C.Color.texts C.color_at self.entry.colors.now) in
            PrintsString IsDrawn result }
    {
        let mut text = String::new(alloc);
        let drawn = self.build(alloc, &mut text);
        string_of(text, drawn)
    }
}
