//! Readers and writers of std, as the library reads and writes them.

use papergrid::{Failed, ReadSource, Sink, Source, WriteSink};
use std::alloc::{AllocError, Global};
use std::io;
use std::io::{ErrorKind, Read, Write};

/// Fails at its first call, and then gives an `a`, or takes what it is given.
#[derive(Drop)]
struct FailsFirst {
    kind: ErrorKind,
    has_failed: bool,
    written: Vec<u8>,
}

impl FailsFirst {
    fn new(alloc: Global, kind: ErrorKind) -> FailsFirst {
        FailsFirst {
            kind,
            has_failed: false,
            written: Vec::new(alloc),
        }
    }

    /// The error of the first call.
    fn fail(&mut self) -> io::Result<()> {
        if self.has_failed {
            return Ok(());
        }
        self.has_failed = true;
        Err(io::Error::from(self.kind))
    }
}

impl Read for FailsFirst {
    fn read(&mut self, buffer: &mut [u8]) -> io::Result<usize> {
        self.fail()?;
        if buffer.is_empty() {
            return Ok(0);
        }
        buffer[0] = b'a';
        Ok(1)
    }
}

impl Write for FailsFirst {
    fn write(&mut self, piece: &[u8]) -> io::Result<usize> {
        self.fail()?;
        self.written.extend_from_slice(piece)?;
        Ok(piece.len())
    }

    fn flush(&mut self) -> io::Result<()> {
        Ok(())
    }
}

/// Whether an error of a reader is a failure at once, and the call after it works.
fn is_read_after(alloc: Global, kind: ErrorKind) -> bool {
    let mut source = ReadSource::new(FailsFirst::new(alloc, kind));
    let mut buffer = [0u8; 2];
    let (first, second) = (source.read(&mut buffer), source.read(&mut buffer));
    (first, second) == (Err(Failed), Ok(1)) && buffer[0] == b'a'
}

/// The same of a writer.
fn is_written_after(alloc: Global, kind: ErrorKind) -> bool {
    let mut faulty = FailsFirst::new(alloc, kind);
    let mut sink = WriteSink::new(&mut faulty);
    let (first, second) = (sink.write(b"a"), sink.write(b"a"));
    (first, second) == (Err(Failed), Ok(1)) && faulty.written.as_slice() == b"a".as_slice()
}

fn works_after(alloc: Global, kind: ErrorKind) -> bool {
    is_read_after(alloc, kind) && is_written_after(alloc, kind)
}

#[test]
fn errors_of_std(rt: HostRuntime) {
    let alloc = rt.alloc();
    assert!(rt;
        works_after(alloc, ErrorKind::Interrupted)
            && works_after(alloc, ErrorKind::WouldBlock)
            && works_after(alloc, ErrorKind::UnexpectedEof)
            && works_after(alloc, ErrorKind::OutOfMemory)
            && works_after(alloc, ErrorKind::Other)
    );
}

/// What is shown of both ends names them.
fn are_named(alloc: Global) -> Result<bool, AllocError> {
    let source = format!(in alloc; "{:?}", ReadSource::new(b"a".as_slice()))?;
    let sink = format!(in alloc; "{:?}", WriteSink::new(Vec::<u8>::new(alloc)))?;
    Ok(source.as_str().contains("ReadSource") && sink.as_str().contains("WriteSink"))
}

#[test]
fn ends_are_named(rt: HostRuntime) {
    assert!(rt; are_named(rt.alloc()) == Ok(true));
}
