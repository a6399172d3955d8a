//! The table that a case tells.

use papergrid_config::SpannedConfig;
use papergrid_text::{IterRecords, Text, VecRecords};
use std::alloc::{AllocError, Global};

/// The cells of a table, as texts and as texts that were measured, with the counts that the records give.
#[derive(Drop)]
pub struct Table {
    texts: VecRecords<String>,
    measured: VecRecords<Text<String>>,
    count_rows: usize,
    columns: usize,
}

/// A table and its settings, and sizes for the questions on places.
#[derive(Clone, Copy)]
pub struct Told<'a> {
    pub alloc: Global,
    pub table: &'a Table,
    pub config: &'a SpannedConfig,
    pub sizes: &'a Option<(Vec<usize>, Vec<usize>)>,
}

impl Table {
    pub fn new(
        alloc: Global,
        rows: &[Vec<String>],
        count_rows: usize,
        columns: usize,
    ) -> Result<Table, AllocError> {
        let texts = rows_of::<String>(alloc, rows)?;
        let measured = rows_of::<Text<String>>(alloc, rows)?;
        Ok(Table {
            texts: VecRecords::with_size(texts, count_rows, columns),
            measured: VecRecords::with_size(measured, count_rows, columns),
            count_rows,
            columns,
        })
    }

    /// The texts as records of a lent slice.
    pub fn lent(&self) -> IterRecords<&[Vec<String>]> {
        IterRecords::new(self.texts.as_slice(), self.columns, Some(self.count_rows))
    }

    pub fn texts(&self) -> &VecRecords<String> {
        &self.texts
    }

    pub fn measured(&self) -> &VecRecords<Text<String>> {
        &self.measured
    }
}

/// What a cell is held as.
pub trait Held: Sized + Drop {
    fn of(alloc: Global, text: &str) -> Result<Self, AllocError>;
}

impl Held for String {
    fn of(alloc: Global, text: &str) -> Result<String, AllocError> {
        String::from_str(alloc, text)
    }
}

impl Held for Text<String> {
    fn of(alloc: Global, text: &str) -> Result<Text<String>, AllocError> {
        Text::new(alloc, String::from_str(alloc, text)?)
    }
}

fn rows_of<C: Held>(alloc: Global, rows: &[Vec<String>]) -> Result<Vec<Vec<C>>, AllocError> {
    let mut held = Vec::new(alloc);
    for row in rows {
        held.push(row_of(alloc, row.as_slice())?)?;
    }
    Ok(held)
}

fn row_of<C: Held>(alloc: Global, row: &[String]) -> Result<Vec<C>, AllocError> {
    let mut held = Vec::new(alloc);
    for text in row {
        held.push(C::of(alloc, text.as_str())?)?;
    }
    Ok(held)
}
