//! The printer of tables whose cells are all alike, of the first line of each text. Source: `grid/compact.rs`. Each call
//! takes an allocator first, for the rows that it holds, for some numbers of each row and column and for a line.

ghost use Rattle.std.specs.Prelude.{◌≡◌, ⊤};
ghost use Rattle.papergrid_draw.specs.Margins.{printed};
ghost use Rattle.papergrid_draw.specs.Sinks.{WritesPicture};
ghost use Rattle.papergrid_layout.specs.Tables.{HasSizes};
ghost use Rattle.papergrid.specs.Compact.{IsCompactDrawing};
ghost use Rattle.papergrid.specs.Printed.{IsPrintFault, IsPrinted, Prints, PrintsString};
ghost use Rattle.papergrid.specs.Sized.{texts_at};

use crate::equal_rows::compact_table;
use crate::printer::print_sized;
use papergrid_config::{CompactConfig, NoColors};
use papergrid_draw::delivery::{Delivery, ToSink, ToText};
use papergrid_draw::printer::string_of;
use papergrid_draw::{AsANSIStr, DrawError};
use papergrid_layout::Dimension;
use papergrid_text::transfer::Sink;
use papergrid_text::{IntoRecords, Records};
use papergrid_values::Colors;
use std::alloc::{AllocError, Global};
use std::convert::AsStr;
use std::fmt;

/// A table of records whose cells are texts: one padding, one alignment and one frame for all cells, no spans, and of
/// each text the first line. It has as many columns as the records say, with the widths of the dimension, and a row for
/// each of theirs, which is one line high, with the paddings above and below.
#[derive(Debug, Drop)]
pub struct CompactGrid<'a, R, D, C> {
    /// The cells.
    pub records: R,
    /// The padding, the alignment, the frame and the margins.
    pub config: CompactConfig,
    /// The widths of the columns. Its heights are not asked for.
    pub dimension: &'a D,
    /// The colours of the texts.
    pub colors: &'a C,
}

impl<'a, R, D> CompactGrid<'a, R, D, NoColors> {
    /// The table of these records, whose texts have no colours. It takes no allocation, and looks at nothing.
    pub fn new(
        records: R,
        config: CompactConfig,
        dimension: &'a D,
    ) -> CompactGrid<'a, R, D, NoColors>
        ensures records { result.records ≡ records }
        ensures config { result.config ≡ config }
        ensures dimension { result.dimension.now ≡ dimension.now }
    {
        CompactGrid {
            records,
            config,
            dimension,
            colors: &NoColors,
        }
    }
}

impl<'a, R, D, C> CompactGrid<'a, R, D, C> {
    /// The same table with these colours of its texts.
    pub fn with_colors<K>(self, colors: &'a K) -> CompactGrid<'a, R, D, K>
        ensures records { result.records ≡ self.entry.records }
        ensures config { result.config ≡ self.entry.config }
        ensures dimension { result.dimension.now ≡ self.entry.dimension.now }
        ensures colors { result.colors.now ≡ colors.now }
    {
        let CompactGrid {
            records,
            config,
            dimension,
            colors: _,
        } = self;
        CompactGrid {
            records,
            config,
            dimension,
            colors,
        }
    }
}

// By hand: docs/DECISIONS.md, "Clones".
impl<'a, R: Clone, D: Clone, C: Clone> Clone for CompactGrid<'a, R, D, C> {
    ghost is_clone = { λ x y. R.is_clone x.records y.records × (y.config ≡ x.config)
        × (y.dimension ≡ x.dimension) × (y.colors ≡ x.colors) };

    ghost is_infallible = { λ x. R.is_infallible x.records };

    fn clone(&self) -> Result<CompactGrid<'a, R, D, C>, AllocError> {
        Ok(CompactGrid {
            records: self.records.clone()?,
            config: self.config,
            dimension: self.dimension,
            colors: self.colors,
        })
    }
}

impl<'a, R: Records + Drop, D: Dimension, C: Colors> CompactGrid<'a, R, D, C>
where
    <<R as Records>::Iter as IntoRecords>::Cell: AsStr + Drop,
    <C as Colors>::Color: AsANSIStr,
{
    /// Writes the picture, by a way to deliver its lines.
    fn print<V: Delivery<W>, W>(self, alloc: Global, writer: &mut W) -> Result<(), DrawError>
        requires lawful { R.is_lawful self.records }
        requires columns { HasSizes (D.has_column self.dimension.now) (R.columns self.records) }
        ensures { let IsDrawn = IsCompactDrawing R.Iter.Cell.text (R.tells self.entry.records)
            (R.columns self.entry.records) self.entry.config
            (D.width_of self.entry.dimension.now)
            (texts_at C.Color.texts C.color_at self.entry.colors.now) in
            Prints IsDrawn V.takes V.breaks writer.old writer.new result }
    {
        let table = compact_table(alloc, self.records, &self.config)?;
        let sizes = table.sizes(self.dimension);
        let lines = table.lines(alloc, self.colors);
        print_sized::<_, _, V, W>(
            alloc,
            &table.config,
            &sizes,
            table.held.shape(),
            &lines,
            writer,
        )
    }

    /// Writes the picture as text, one line at a time: nothing of a table without rows or columns. A writer of text
    /// says nothing of a text that it did not take.
    ///
    /// Conditions: the records are lawful: they yield one finite list of rows, as each vector of rows does. The dimension
    /// has a width for each column.
    ///
    /// # Errors
    ///
    /// `TooLarge` where the widths with the vertical lines, or the heights with the horizontal lines, come to more than
    /// the greatest `usize`, `NoRoom` where a first line with the paddings beside it is wider than its column, and
    /// `TooLarge` with the margins, before anything is written; `Memory` and `Write` after a beginning of the picture.
    pub fn build<F: fmt::Write>(self, alloc: Global, writer: &mut F) -> Result<(), DrawError>
        requires lawful { R.is_lawful self.records }
        requires columns { HasSizes (D.has_column self.dimension.now) (R.columns self.records) }
        ensures { let IsDrawn = IsCompactDrawing R.Iter.Cell.text (R.tells self.entry.records)
            (R.columns self.entry.records) self.entry.config
            (D.width_of self.entry.dimension.now)
            (texts_at C.Color.texts C.color_at self.entry.colors.now) in
            Prints IsDrawn F.write_str_gives (λ _ _ _. ⊤) writer.old writer.new result }
    {
        self.print::<ToText, F>(alloc, writer)
    }

    /// Writes the picture to a sink, one line at a time: nothing of a table without rows or columns.
    ///
    /// Conditions: the records are lawful: they yield one finite list of rows, as each vector of rows does. The dimension
    /// has a width for each column.
    ///
    /// # Errors
    ///
    /// As those of `build`.
    pub fn write_to<W: Sink>(self, alloc: Global, sink: &mut W) -> Result<(), DrawError>
        requires lawful { R.is_lawful self.records }
        requires columns { HasSizes (D.has_column self.dimension.now) (R.columns self.records) }
        ensures { let IsDrawn = IsCompactDrawing R.Iter.Cell.text (R.tells self.entry.records)
            (R.columns self.entry.records) self.entry.config
            (D.width_of self.entry.dimension.now)
            (texts_at C.Color.texts C.color_at self.entry.colors.now) in
            WritesPicture W.contents W.has_failed W.has_stalled
            (IsPrinted IsDrawn) (IsPrintFault IsDrawn) printed sink.old sink.new result }
    {
        self.print::<ToSink, W>(alloc, sink)
    }

    /// The picture: empty for a table without rows or columns.
    ///
    /// Conditions: the records are lawful: they yield one finite list of rows, as each vector of rows does. The dimension
    /// has a width for each column.
    ///
    /// # Errors
    ///
    /// As those of `build`, but never `Write`.
    pub fn to_string(self, alloc: Global) -> Result<String, DrawError>
        requires lawful { R.is_lawful self.records }
        requires columns { HasSizes (D.has_column self.dimension.now) (R.columns self.records) }
        ensures { let IsDrawn = IsCompactDrawing R.Iter.Cell.text (R.tells self.entry.records)
            (R.columns self.entry.records) self.entry.config
            (D.width_of self.entry.dimension.now)
            (texts_at C.Color.texts C.color_at self.entry.colors.now) in
            PrintsString IsDrawn result }
    {
        let mut text = String::new(alloc);
        let drawn = self.build(alloc, &mut text);
        string_of(text, drawn)
    }
}
