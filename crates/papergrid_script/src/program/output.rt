//! A writer that notes where nobody reads any more.

ghost use Rattle.std.specs.Prelude.{◌≡◌, false};

use std::io;
use std::io::{ErrorKind, Write};

/// A writer over another one, which notes that the pipe behind it is closed.
#[derive(Drop)]
pub struct Output<W> {
    writer: W,
    is_closed: bool,
}

impl<W: Write> Output<W> {
    /// A writer over this one.
    pub fn new(writer: W) -> Output<W>
        ensures { result ≡ record { writer = writer; is_closed = false } }
    {
        Output {
            writer,
            is_closed: false,
        }
    }

    /// Whether a write or a flush failed since nobody reads any more.
    pub fn is_closed(&self) -> bool
        ensures { result ≡ self.now.is_closed }
    {
        self.is_closed
    }

    /// Notes how a write or a flush ended.
    fn note(&mut self, error: &io::Error)
        ensures { self.new.writer ≡ self.old.writer }
    {
        if error.kind() == ErrorKind::BrokenPipe {
            self.is_closed = true;
        }
    }
}

impl<W: Write> Write for Output<W> {
    ghost contents = { λ output. W.contents output.writer };

    fn write(&mut self, piece: &[u8]) -> io::Result<usize> {
        match self.writer.write(piece) {
            Ok(count) => Ok(count),
            Err(error) => {
                self.note(&error);
                Err(error)
            }
        }
    }

    fn flush(&mut self) -> io::Result<()> {
        match self.writer.flush() {
            Ok(()) => Ok(()),
            Err(error) => {
                self.note(&error);
                Err(error)
            }
        }
    }
}
