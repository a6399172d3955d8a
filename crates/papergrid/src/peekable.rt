//! The printer over records whose cells know their lines and widths. Source: `grid/peekable.rs`. Each call takes an
//! allocator first, for some numbers of each row and column and for a line.

ghost use Rattle.std.specs.Prelude.{◌≡◌, ⊤};
ghost use Rattle.papergrid_text.specs.HeldRows.{rows_held};
ghost use Rattle.papergrid_draw.specs.Drawings.{Drawing};
ghost use Rattle.papergrid_draw.specs.Margins.{printed};
ghost use Rattle.papergrid_draw.specs.Sinks.{WritesPicture};
ghost use Rattle.papergrid_layout.specs.Tables.{HasSizes};
ghost use Rattle.papergrid.specs.Printed.{IsPrintFault, IsPrinted, Prints, PrintsString};
ghost use Rattle.papergrid.specs.Sized.{drawing_held, shape_told, texts_at};

use crate::printer::print_sized;
use papergrid_config::SpannedConfig;
use papergrid_draw::delivery::{Delivery, ToSink, ToText};
use papergrid_draw::printer::string_of;
use papergrid_draw::{AsANSIStr, DrawError, RecordCells};
use papergrid_layout::Dimension;
use papergrid_text::transfer::Sink;
use papergrid_text::{Cell, ExactRecords, Records, VecRecords};
use papergrid_values::Colors;
use std::alloc::{AllocError, Global};
use std::fmt;

/// A table of records whose cells know their lines and widths. It has the numbers of rows and columns that the
/// records yield, the sizes of the dimension, and of the rows that the records hold the cells that lie in it.
#[derive(Copy, Debug)]
pub struct PeekableGrid<'a, T, D, C> {
    /// The cells.
    pub records: &'a VecRecords<T>,
    /// The spans, the lines and the margins.
    pub config: &'a SpannedConfig,
    /// The widths of the columns and the heights of the rows.
    pub dimension: &'a D,
    /// The colours of the texts.
    pub colors: &'a C,
}

// By hand: docs/DECISIONS.md, "Clones".
impl<'a, T: Clone, D: Clone, C: Clone> Clone for PeekableGrid<'a, T, D, C> {
    ghost is_clone = { λ x y. y ≡ x };

    ghost is_infallible = { λ _. ⊤ };

    fn clone(&self) -> Result<PeekableGrid<'a, T, D, C>, AllocError> {
        Ok(PeekableGrid {
            records: self.records,
            config: self.config,
            dimension: self.dimension,
            colors: self.colors,
        })
    }
}

impl<'a, T, D, C> PeekableGrid<'a, T, D, C> {
    /// The table of these records. It takes no allocation, and looks at nothing.
    pub fn new(
        records: &'a VecRecords<T>,
        config: &'a SpannedConfig,
        dimension: &'a D,
        colors: &'a C,
    ) -> PeekableGrid<'a, T, D, C>
        ensures { result ≡ record {
          records = records.entry;
          config = config.entry;
          dimension = dimension.entry;
          colors = colors.entry;
        } }
    {
        PeekableGrid {
            records,
            config,
            dimension,
            colors,
        }
    }

    /// The number of rows, and that of columns.
    fn shape(&self) -> (usize, usize)
        ensures { result ≡ shape_told self.now.records.now }
    {
        (
            self.records.count_rows(),
            <&VecRecords<T> as Records>::count_columns(&self.records),
        )
    }

    /// The cells.
    fn cells(&self) -> RecordCells<'a, T, C>
        ensures rows { result.rows.now ≡ (rows_held self.now.records.now).items }
        ensures colors { result.colors.now ≡ self.now.colors.now }
    {
        RecordCells {
            rows: self.records.as_slice(),
            colors: self.colors,
        }
    }
}

impl<'a, T: Cell, D: Dimension, C: Colors> PeekableGrid<'a, T, D, C>
where
    <C as Colors>::Color: AsANSIStr,
{
    /// Writes the picture, by a way to deliver its lines.
    fn print<V: Delivery<W>, W>(&self, alloc: Global, writer: &mut W) -> Result<(), DrawError>
        requires rows { HasSizes (D.has_row self.now.dimension.now)
            (shape_told self.now.records.now).0 }
        requires columns { HasSizes (D.has_column self.now.dimension.now)
            (shape_told self.now.records.now).1 }
        ensures { let IsDrawn = λ (d : Drawing). d ≡ drawing_held T.lines
            self.now.config.now
            (D.width_of self.now.dimension.now) (D.height_of self.now.dimension.now)
            self.now.records.now (texts_at C.Color.texts C.color_at self.now.colors.now) in
            Prints IsDrawn V.takes V.breaks writer.old writer.new result }
    {
        print_sized::<_, _, V, W>(
            alloc,
            self.config,
            self.dimension,
            self.shape(),
            &self.cells(),
            writer,
        )
    }

    /// Writes the picture as text, one line at a time: nothing of a table without rows or columns. A writer of text
    /// says nothing of a text that it did not take.
    ///
    /// Condition: the dimension has a height for each row and a width for each column.
    ///
    /// # Errors
    ///
    /// `TooLarge` where the widths with the vertical lines, or the heights with the horizontal lines, come to more than
    /// the greatest `usize`, and the errors of `draw_text`: `OutOfTable`, `NotTiled`, `NoRoom` and `TooLarge` before
    /// anything is written; `Memory` and `Write` after a beginning of the picture.
    pub fn build<F: fmt::Write>(&self, alloc: Global, writer: &mut F) -> Result<(), DrawError>
        requires rows { HasSizes (D.has_row self.now.dimension.now)
            (shape_told self.now.records.now).0 }
        requires columns { HasSizes (D.has_column self.now.dimension.now)
            (shape_told self.now.records.now).1 }
        ensures { let IsDrawn = λ (d : Drawing). d ≡ drawing_held T.lines
            self.now.config.now
            (D.width_of self.now.dimension.now) (D.height_of self.now.dimension.now)
            self.now.records.now (texts_at C.Color.texts C.color_at self.now.colors.now) in
            Prints IsDrawn F.write_str_gives (λ _ _ _. ⊤) writer.old writer.new result }
    {
        self.print::<ToText, F>(alloc, writer)
    }

    /// Writes the picture to a sink, one line at a time: nothing of a table without rows or columns.
    ///
    /// Condition: the dimension has a height for each row and a width for each column.
    ///
    /// # Errors
    ///
    /// As those of `build`.
    pub fn write_to<W: Sink>(&self, alloc: Global, sink: &mut W) -> Result<(), DrawError>
        requires rows { HasSizes (D.has_row self.now.dimension.now)
            (shape_told self.now.records.now).0 }
        requires columns { HasSizes (D.has_column self.now.dimension.now)
            (shape_told self.now.records.now).1 }
        ensures { let IsDrawn = λ (d : Drawing). d ≡ drawing_held T.lines
            self.now.config.now
            (D.width_of self.now.dimension.now) (D.height_of self.now.dimension.now)
            self.now.records.now (texts_at C.Color.texts C.color_at self.now.colors.now) in
            WritesPicture W.contents W.has_failed W.has_stalled
            (IsPrinted IsDrawn) (IsPrintFault IsDrawn) printed sink.old sink.new result }
    {
        self.print::<ToSink, W>(alloc, sink)
    }

    /// The picture: empty for a table without rows or columns.
    ///
    /// Condition: the dimension has a height for each row and a width for each column.
    ///
    /// # Errors
    ///
    /// As those of `build`, but never `Write`.
    pub fn to_string(&self, alloc: Global) -> Result<String, DrawError>
        requires rows { HasSizes (D.has_row self.now.dimension.now)
            (shape_told self.now.records.now).0 }
        requires columns { HasSizes (D.has_column self.now.dimension.now)
            (shape_told self.now.records.now).1 }
        ensures { let IsDrawn = λ (d : Drawing). d ≡ drawing_held T.lines
            self.now.config.now
            (D.width_of self.now.dimension.now) (D.height_of self.now.dimension.now)
            self.now.records.now (texts_at C.Color.texts C.color_at self.now.colors.now) in
            PrintsString IsDrawn result }
    {
        let mut text = String::new(alloc);
        let drawn = self.build(alloc, &mut text);
        string_of(text, drawn)
    }
}
