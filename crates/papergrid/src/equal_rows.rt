//! What a table of equally high rows is drawn from: the first line of each text, and one height for all rows.

ghost use Rattle.std.specs.Prelude.{◌≡◌, ◌≢◌, ◌≤◌, ◌⊎◌, ◌^◌, ⊤, IfErr, IfOk, map, option_map};
ghost use Rattle.papergrid_draw.specs.declared.error.DrawError.TheVariants.{Memory, TooLarge};
ghost use Rattle.papergrid_draw.specs.Cells.{lines_at};
ghost use Rattle.papergrid.specs.Compact.{AreRowsTooHigh, IsCompactTable, compact_height, first_line, first_text};

use crate::held::CompactTable;
use crate::holding::held_table;
use papergrid_config::{CompactConfig, SpannedConfig};
use papergrid_draw::cells::{color_of, text_in};
use papergrid_draw::source::Cells;
use papergrid_draw::{AsANSIStr, DrawError, TextRow};
use papergrid_layout::Dimension;
use papergrid_text::string::get_line_width;
use papergrid_text::{IntoRecords, Records, Text};
use papergrid_values::{ANSIStr, Colors, Position};
use std::alloc::{AllocError, Global};
use std::convert::AsStr;
use std::iter::Iterator;

/// The first of std's lines of a text, or the empty text where there is none.
fn first_std_line(text: &str) -> &str
    ensures { result.now ≡ first_text text.now }
{
    match text.lines().next() {
        Some(line) => line,
        None => "",
    }
}

/// Rows of texts as cells of one line each: the first one of each text.
#[derive(Drop)]
pub struct LineCells<'a, R, C> {
    pub alloc: Global,
    /// The rows.
    pub rows: &'a [R],
    /// The colours of the texts.
    pub colors: &'a C,
}

impl<'a, R: TextRow, C: Colors> Cells for LineCells<'a, R, C>
where
    <C as Colors>::Color: AsANSIStr,
{
    type Cell = Text<&'a str>;

    ghost lines = { λ s. lines_at first_line (map R.texts s.rows.now) };

    ghost color = { λ s p. option_map C.Color.texts (C.color_at s.colors.now p) };

    fn cell(&self, position: Position) -> Result<Option<Text<&'a str>>, AllocError> {
        let Some(text) = text_in(self.rows, position) else {
            return Ok(None);
        };
        let line = first_std_line(text);
        let width = get_line_width(line);
        Ok(Some(Text::exact(line, width, Vec::new(self.alloc))))
    }

    fn line(&self, position: Position) -> Option<(&str, usize)> {
        let line = first_std_line(text_in(self.rows, position)?);
        Some((line, get_line_width(line)))
    }

    fn color(&self, position: Position) -> Option<ANSIStr<'_>> {
        color_of(self.colors, position)
    }
}

/// The widths of a dimension, and one height for all rows.
#[derive(Drop)]
pub struct EqualRows<'a, D> {
    pub dimension: &'a D,
    pub height: usize,
}

impl<'a, D: Dimension> Dimension for EqualRows<'a, D> {
    ghost has_column = { λ d column. D.has_column d.dimension.now column };

    ghost has_row = { λ _ _. ⊤ };

    ghost width_of = { λ d column. D.width_of d.dimension.now column };

    ghost height_of = { λ d _. d.height };

    fn get_width(&self, column: usize) -> usize {
        self.dimension.get_width(column)
    }

    fn get_height(&self, _row: usize) -> usize {
        self.height
    }
}

/// The height of each of so many rows. Where there is no row it may be any.
///
/// # Errors
///
/// `TooLarge` where there are rows, and each is higher than the greatest `usize`.
fn row_height(config: &CompactConfig, rows: usize) -> Result<usize, DrawError>
    ensures height { IfOk result (λ height. rows ≢ 0 → height ≡ compact_height config.now) }
    ensures fault { IfErr result (λ e. (e ≡ TooLarge) × (rows ≢ 0)
        × (2 ^ 64 ≤ compact_height config.now)) }
{
    if rows == 0 {
        return Ok(0);
    }
    let padding = config.get_padding();
    match padding.top.size.checked_add(padding.bottom.size) {
        Some(beside) if beside < usize::MAX => Ok(1 + beside),
        _ => Err(DrawError::TooLarge),
    }
}

impl<T> CompactTable<T> {
    /// The first line of each cell, with these colours.
    pub fn lines<'s, C>(&'s self, alloc: Global, colors: &'s C) -> LineCells<'s, Vec<T>, C>
        ensures rows { result.rows.now ≡ self.now.held.rows.items }
        ensures colors { result.colors.now ≡ colors.now }
    {
        LineCells {
            alloc,
            rows: self.held.rows.as_slice(),
            colors,
        }
    }

    /// The widths of a dimension, with the height of the rows.
    pub fn sizes<'s, D>(&self, dimension: &'s D) -> EqualRows<'s, D>
        ensures dimension { result.dimension.now ≡ dimension.now }
        ensures height { result.height ≡ self.now.height }
    {
        EqualRows {
            dimension,
            height: self.height,
        }
    }
}

/// The table of these records by a compact configuration.
///
/// # Errors
///
/// `TooLarge` where there are rows, and each is higher than the greatest `usize`.
pub fn compact_table<R: Records + Drop>(
    alloc: Global,
    records: R,
    config: &CompactConfig,
) -> Result<CompactTable<<<R as Records>::Iter as IntoRecords>::Cell>, DrawError>
where
    <<R as Records>::Iter as IntoRecords>::Cell: Drop,
    requires { R.is_lawful records }
    ensures made { IfOk result (IsCompactTable (R.tells records) config.now (R.columns records)) }
    ensures fault { IfErr result (λ e. ((error : AllocError) × (e ≡ Memory error))
        ⊎ ((e ≡ TooLarge) × AreRowsTooHigh (R.tells records) config.now)) }
{
    let made = SpannedConfig::from_compact(alloc, config)?;
    let held = held_table(alloc, records)?;
    let height = row_height(config, held.rows.len())?;
    Ok(CompactTable {
        config: made,
        held,
        height,
    })
}
