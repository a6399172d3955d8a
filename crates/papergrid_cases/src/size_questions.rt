//! Questions on the sizes of a table.

use crate::answer::Answer;
use crate::reading::Words;
use crate::running::Outcome;
use crate::table::Told;
use papergrid_config::{CompactConfig, SpannedConfig};
use papergrid_layout::{
    CompactGridDimension, Estimate, IterGridDimension, LayoutError, LayoutResult,
    LeastGridDimension, PeekableGridDimension, Sizing,
};
use papergrid_maps::Anchor;
use papergrid_text::{Cell, IntoRecords, Records, VecRecords};
use papergrid_values::Position;
use std::alloc::{AllocError, Global};
use std::convert::AsStr;

/// Widths and heights.
pub type Sizes = (Vec<usize>, Vec<usize>);

/// What is found for a table.
pub trait Shown: Drop {
    fn show(&self, answer: &mut Answer);
}

impl Shown for usize {
    fn show(&self, answer: &mut Answer) {
        answer.number(*self);
    }
}

/// The sizes, `-` where there are none; many alike as `1009 times 1`.
impl Shown for Vec<usize> {
    fn show(&self, answer: &mut Answer) {
        if self.is_empty() {
            return answer.word("-");
        }
        if let Some(size) = many_alike(self) {
            answer.number(self.len());
            answer.word("times");
            return answer.number(size);
        }
        for size in self.as_slice() {
            answer.number(*size);
        }
    }
}

/// The size that all are, where there are ten or more.
fn many_alike(sizes: &[usize]) -> Option<usize> {
    let first = sizes.first()?;
    for size in sizes {
        if size != first {
            return None;
        }
    }
    if 9 < sizes.len() { Some(*first) } else { None }
}

/// Widths, a bar and heights.
impl Shown for (Vec<usize>, Vec<usize>) {
    fn show(&self, answer: &mut Answer) {
        self.0.show(answer);
        answer.word("|");
        self.1.show(answer);
    }
}

/// The cells, `-` where there are none.
impl Shown for Vec<Position> {
    fn show(&self, answer: &mut Answer) {
        for cell in self.as_slice() {
            answer.position(*cell);
        }
        if self.is_empty() {
            answer.word("-");
        }
    }
}

/// Each anchor's position, and its rows and columns.
impl Shown for Vec<Anchor> {
    fn show(&self, answer: &mut Answer) {
        for anchor in self.as_slice() {
            answer.position(anchor.position);
            answer.number(anchor.rows);
            answer.number(anchor.cols);
        }
    }
}

impl Shown for Option<Vec<Position>> {
    fn show(&self, answer: &mut Answer) {
        match self {
            Some(cells) => cells.show(answer),
            None => answer.word("none"),
        }
    }
}

/// Shows what is found, unless memory ran out.
pub fn show_found<T: Shown>(found: Result<T, AllocError>, answer: &mut Answer) -> Outcome {
    let value = found?;
    value.show(answer);
    Ok(())
}

/// Shows what is found, or why nothing is.
pub fn show<T: Shown>(found: LayoutResult<T>, answer: &mut Answer) {
    match found {
        Ok(value) => value.show(answer),
        Err(LayoutError::OutOfTable(cell)) => {
            answer.word("out of table at");
            answer.position(cell);
        }
        Err(LayoutError::TooLarge) => answer.word("too large"),
        Err(LayoutError::Memory(_)) => answer.word("out of memory"),
    }
}

/// Answers a question on sizes by shares or on the least ones, or another question on sizes.
pub fn ask_sizes(told: Told<'_>, word: &str, words: &mut Words<'_>, answer: &mut Answer) {
    let (alloc, table, config) = (told.alloc, told.table, told.config);
    match word {
        "widths" | "heights" | "least_widths" | "least_heights" => {
            show(along(alloc, table.lent(), config, word), answer);
        }
        "totals" => show_totals(alloc, table.lent(), config, Sizing::ByShares, answer),
        "least_totals" => show_totals(alloc, table.lent(), config, Sizing::Least, answer),
        "kept_sizes" => show(kept(told), answer),
        "least_sizes" => show(least(told), answer),
        _ => ask_cells(told, word, words, answer),
    }
}

/// The sizes along a direction that the word names, by shares or the least ones.
fn along<R: Records + Drop>(
    alloc: Global,
    records: R,
    config: &SpannedConfig,
    word: &str,
) -> LayoutResult<Vec<usize>>
where
    <<R as Records>::Iter as IntoRecords>::Cell: AsStr + Drop,
    requires { R.is_lawful records }
{
    match word {
        "widths" => IterGridDimension::width(alloc, records, config),
        "heights" => IterGridDimension::height(alloc, records, config),
        "least_widths" => LeastGridDimension::width(alloc, records, config),
        _ => LeastGridDimension::height(alloc, records, config),
    }
}

/// Shows the width and the height of the table.
fn show_totals<R: Records + Copy + Drop>(
    alloc: Global,
    records: R,
    config: &SpannedConfig,
    sizing: Sizing,
    answer: &mut Answer,
)
where
    <<R as Records>::Iter as IntoRecords>::Cell: AsStr + Drop,
    requires { R.is_lawful records }
{
    match sizing {
        Sizing::ByShares => {
            show(
                IterGridDimension::width_total(alloc, records, config),
                answer,
            );
            show(
                IterGridDimension::height_total(alloc, records, config),
                answer,
            );
        }
        Sizing::Least => {
            show(
                LeastGridDimension::width_total(alloc, records, config),
                answer,
            );
            show(
                LeastGridDimension::height_total(alloc, records, config),
                answer,
            );
        }
    }
}

/// Answers a question on the sizes of measured texts, of texts as cells, or by a compact configuration.
fn ask_cells(told: Told<'_>, word: &str, words: &mut Words<'_>, answer: &mut Answer) {
    let (alloc, table, config) = (told.alloc, told.table, told.config);
    match word {
        "sizes" | "measured_widths" | "measured_heights" => {
            show_cell_sizes(alloc, table.measured(), config, word, answer);
        }
        "own_sizes" => show_cell_sizes(alloc, table.texts(), config, word, answer),
        "compact_sizes" | "compact_widths" | "compact_heights" => {
            show_compact_sizes(alloc, table.texts(), word, answer);
        }
        _ => words.lacks("a question"),
    }
}

/// Shows the sizes of cells along a direction, or both, as the word says.
fn show_cell_sizes<R: Records + Drop>(
    alloc: Global,
    records: R,
    config: &SpannedConfig,
    word: &str,
    answer: &mut Answer,
)
where
    <<R as Records>::Iter as IntoRecords>::Cell: Cell + Drop,
    requires { R.is_lawful records }
{
    match word {
        "measured_widths" => show(PeekableGridDimension::width(alloc, records, config), answer),
        "measured_heights" => show(
            PeekableGridDimension::height(alloc, records, config),
            answer,
        ),
        _ => show(
            PeekableGridDimension::dimension(alloc, records, config),
            answer,
        ),
    }
}

/// Shows the sizes by the default compact configuration along a direction, or both, as the word says.
fn show_compact_sizes<R: Records + Drop>(alloc: Global, records: R, word: &str, answer: &mut Answer)
where
    <<R as Records>::Iter as IntoRecords>::Cell: AsStr + Drop,
    requires { R.is_lawful records }
{
    let config = &CompactConfig::new();
    match word {
        "compact_widths" => show(CompactGridDimension::width(alloc, records, config), answer),
        "compact_heights" => show(CompactGridDimension::height(alloc, records, config), answer),
        _ => show(
            CompactGridDimension::dimension(alloc, records, config),
            answer,
        ),
    }
}

/// The sizes by an estimate of the texts.
pub fn by_texts(told: Told<'_>) -> LayoutResult<Sizes> {
    let mut dimension = IterGridDimension::new(told.alloc);
    dimension.estimate(told.table.texts(), told.config)?;
    Ok(dimension.get_values())
}

fn least(told: Told<'_>) -> LayoutResult<Sizes> {
    let mut dimension = LeastGridDimension::new(told.alloc);
    dimension.estimate(told.table.lent(), told.config)?;
    Ok(dimension.get_values())
}

/// The sizes that a dimension holds of one cell `ab`, after an estimate of the table that is refused or not.
fn kept(told: Told<'_>) -> LayoutResult<Sizes> {
    let config = SpannedConfig::new(told.alloc);
    let small = of_small(told.alloc, &config);
    drop(config);
    let mut dimension = small?;
    let _ = dimension.estimate(told.table.texts(), told.config);
    Ok(dimension.get_values())
}

/// A dimension that holds the sizes of a cell of its own.
fn of_small(alloc: Global, config: &SpannedConfig) -> LayoutResult<IterGridDimension> {
    let records = small(alloc)?;
    let mut dimension = IterGridDimension::new(alloc);
    dimension.estimate(records, config)?;
    Ok(dimension)
}

fn small(alloc: Global) -> Result<VecRecords<&'static str>, AllocError> {
    let mut row = Vec::new(alloc);
    row.push("ab")?;
    let mut rows = Vec::new(alloc);
    rows.push(row)?;
    Ok(VecRecords::new(rows))
}
