//! Readers and writers that tell their bytes, and whether they have failed.

ghost use Rattle.std.specs.Prelude.{◌≡◌, ◌⊎◌, ℕ, [], List, Bool, OnErr, OnOk, Option, false, take, true};
ghost use Rattle.std.specs.Io.{ReadsAtMost, WritesAtMost};
ghost use Rattle.std.specs.Io.KnownBytes.{Appends, ReadConsumes, WriteAppends};
ghost use Rattle.papergrid_text.specs.Transfer.{failed_after, stalled_after};

use std::alloc::Global;
use std::io::{Read, Write};

/// A read or a write failed. It read and took nothing.
#[derive(Clone, Copy, Debug, PartialEq, Eq)]
pub struct Failed;

/// What bytes can be read from.
pub trait Source {
    // The bytes that are left, where they are known.
    ghost remaining: { Self → Option (List ℕ) };

    // Whether a read has failed.
    ghost has_failed: { Self → Bool };

    /// Reads the first of the bytes that are left into the front of the buffer, and answers how many:
    /// 0 only at the end, or where the buffer is empty.
    ///
    /// # Errors
    ///
    /// `Failed` where the source failed. It read nothing then, and has failed from then on.
    fn read(&mut self, buffer: &mut [u8]) -> Result<usize, Failed>
        ensures bound { ReadsAtMost result buffer.new }
        ensures bytes { ReadConsumes (remaining self.old) (remaining self.new) result buffer.new }
        ensures failed { has_failed self.new ≡ failed_after (has_failed self.old) result };
}

/// What bytes can be written to.
pub trait Sink {
    // The bytes that were taken, where they are known.
    ghost contents: { Self → Option (List ℕ) };

    // Whether a write has failed.
    ghost has_failed: { Self → Bool };

    // Whether a write of a piece that isn't empty took no byte.
    ghost has_stalled: { Self → Bool };

    /// Takes some of the first bytes of the piece, and answers how many.
    ///
    /// # Errors
    ///
    /// `Failed` where the sink failed. It took nothing then, and has failed from then on. To take no byte is no
    /// failure.
    fn write(&mut self, piece: &[u8]) -> Result<usize, Failed>
        ensures bound { WritesAtMost result piece.now }
        ensures bytes { WriteAppends (contents self.old) (contents self.new) result piece.now }
        ensures failed { has_failed self.new ≡ failed_after (has_failed self.old) result }
        ensures stalled { has_stalled self.new
            ≡ stalled_after (has_stalled self.old) result piece.now };
}

/// A reader of std as a [`Source`]. Each of its errors is a failure, an interruption too.
#[derive(Debug, Drop)]
pub struct ReadSource<R> {
    reader: R,
    failed: bool,
}

impl<R: Read> ReadSource<R> {
    /// A source over the reader, which has not failed.
    pub fn new(reader: R) -> ReadSource<R>
        ensures { result ≡ record { reader = reader; failed = false } }
    {
        ReadSource {
            reader,
            failed: false,
        }
    }
}

impl<R: Read> Source for ReadSource<R> {
    ghost remaining = { λ s. R.remaining s.reader };

    ghost has_failed = { λ s. s.failed };

    fn read(&mut self, buffer: &mut [u8]) -> Result<usize, Failed> {
        match self.reader.read(buffer) {
            Ok(count) => Ok(count),
            Err(_) => {
                self.failed = true;
                Err(Failed)
            }
        }
    }
}

/// A writer of std as a [`Sink`]. Each of its errors is a failure, an interruption too. It flushes nothing.
#[derive(Debug, Drop)]
pub struct WriteSink<W> {
    writer: W,
    failed: bool,
    stalled: bool,
}

impl<W: Write> WriteSink<W> {
    /// A sink over the writer, which has neither failed nor stalled.
    pub fn new(writer: W) -> WriteSink<W>
        ensures { result ≡ record { writer = writer; failed = false; stalled = false } }
    {
        WriteSink {
            writer,
            failed: false,
            stalled: false,
        }
    }
}

impl<W: Write> Sink for WriteSink<W> {
    ghost contents = { λ s. W.contents s.writer };

    ghost has_failed = { λ s. s.failed };

    ghost has_stalled = { λ s. s.stalled };

    fn write(&mut self, piece: &[u8]) -> Result<usize, Failed> {
        match self.writer.write(piece) {
            Ok(count) => {
                if count == 0 && !piece.is_empty() {
                    self.stalled = true;
                }
                Ok(count)
            }
            Err(_) => {
                self.failed = true;
                Err(Failed)
            }
        }
    }
}

/// A [`Sink`] that keeps all its bytes. A write fails where its growth is refused.
#[derive(Debug, Drop)]
pub struct ByteSink {
    bytes: Vec<u8>,
    failed: bool,
}

impl ByteSink {
    /// A sink with no bytes, which has not failed.
    pub fn new(alloc: Global) -> ByteSink
        ensures bytes { result.bytes.items ≡ [] }
        ensures works { result.failed ≡ false }
    {
        ByteSink {
            bytes: Vec::new(alloc),
            failed: false,
        }
    }

    /// The bytes that were taken.
    pub fn into_bytes(self) -> Vec<u8>
        ensures { result ≡ self.bytes }
    {
        let ByteSink { bytes, failed: _ } = self;
        bytes
    }
}

impl Sink for ByteSink {
    ghost use Rattle.std.specs.Prelude.{Some};

    ghost contents = { λ s. Some s.bytes.items };

    ghost has_failed = { λ s. s.failed };

    ghost has_stalled = { λ _. false };

    fn write(&mut self, piece: &[u8]) -> Result<usize, Failed> {
        match self.bytes.extend_from_slice(piece) {
            Ok(()) => Ok(piece.len()),
            Err(_) => {
                self.failed = true;
                Err(Failed)
            }
        }
    }
}

/// Writes all the bytes.
pub fn write_all<W: Sink>(writer: &mut W, bytes: &[u8]) -> Result<(), Failed>
    ensures ok { OnOk result (Appends (W.contents writer.old) (W.contents writer.new) bytes.now) }
    ensures works { OnOk result (W.has_failed writer.new ≡ W.has_failed writer.old) }
    ensures moves { OnOk result (W.has_stalled writer.new ≡ W.has_stalled writer.old) }
    ensures beginning { OnErr result ((n : ℕ)
        × Appends (W.contents writer.old) (W.contents writer.new) (take n bytes.now)) }
    ensures failed { OnErr result ((W.has_failed writer.new ≡ true)
        ⊎ (W.has_stalled writer.old ≡ false → W.has_stalled writer.new ≡ true)) }
{
    let mut at = 0;
    while at < bytes.len() {
        let count = writer.write(&bytes[at..])?;
        if count == 0 {
            return Err(Failed);
        }
        at += count;
    }
    Ok(())
}
