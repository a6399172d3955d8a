//! The lines of a table as they are written, one after the other, with its margins.

ghost use Rattle.std.specs.Prelude.{◌≡◌, false, true, OnOk, string_bytes};
ghost use Rattle.papergrid_draw.specs.ForProofs.Sheets.{Writes, separator};

use crate::delivery::Delivery;
use crate::error::DrawError;
use std::alloc::{AllocError, Global};

/// A line that is made, how many lines of the table are written, and whether any line is.
#[derive(Drop)]
pub struct Sheet {
    pub line: String,
    pub written: usize,
    pub begun: bool,
}

impl Sheet {
    /// A sheet with nothing on it.
    pub fn new(alloc: Global) -> Sheet
        ensures written { result.written ≡ 0 }
        ensures begun { result.begun ≡ false }
    {
        Sheet {
            line: String::new(alloc),
            written: 0,
            begun: false,
        }
    }

    /// Begins a line: with a line feed, if it is not the first.
    pub fn begin(&mut self) -> Result<(), AllocError>
        ensures line { OnOk result (string_bytes self.new.line ≡ separator self.old.begun) }
        ensures written { self.new.written ≡ self.old.written }
        ensures begun { self.new.begun ≡ self.old.begun }
    {
        self.line.clear();
        if self.begun {
            self.line.push('\n')?;
        }
        Ok(())
    }

    /// Writes the line.
    pub fn end<D: Delivery<W>, W>(&mut self, writer: &mut W) -> Result<(), DrawError>
        ensures bytes { Writes D.takes D.breaks writer.old writer.new (string_bytes self.old.line)
            result }
        ensures begun { OnOk result (self.new.begun ≡ true) }
        ensures written { self.new.written ≡ self.old.written }
    {
        self.begun = true;
        match D::deliver(writer, self.line.as_str()) {
            Ok(()) => Ok(()),
            Err(_) => Err(DrawError::Write),
        }
    }
}
