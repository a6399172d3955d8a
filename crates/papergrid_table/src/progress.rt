//! How far a run has come, told on a terminal where it takes long.

use std::cell::Cell;
use std::io;
use std::io::{IsTerminal, Read, Write};
use std::time::{Duration, Instant};

/// How long nothing is told, in milliseconds.
const QUIET: u64 = 2000;

/// How long a line stands at least, in milliseconds.
const STANDS: u64 = 250;

/// Takes a line of a terminal away.
const CLEAR: &str = "\r\x1b[K";

/// How many bytes were read and written. It's told in one line on standard error, which is written anew.
#[derive(Drop)]
pub struct Progress<'r> {
    rt: &'r HostRuntime,
    /// From when on a line may be written. Without it none is.
    next: Cell<Option<Instant>>,
    read: Cell<u64>,
    written: Cell<u64>,
    is_shown: Cell<bool>,
    /// Whether the output goes to a terminal too, where it would stand in the midst of the line.
    gives_way: bool,
}

impl<'r> Progress<'r> {
    /// Of a run that begins now. It's told where standard error is a terminal, unless the input is typed in there.
    pub fn new(rt: &'r HostRuntime, is_typed: bool) -> Progress<'r> {
        let next = if rt.stderr().is_terminal() && !is_typed {
            after(Instant::now(rt).ok(), QUIET)
        } else {
            None
        };
        Progress {
            rt,
            next: Cell::new(next),
            read: Cell::new(0),
            written: Cell::new(0),
            is_shown: Cell::new(false),
            gives_way: rt.stdout().is_terminal(),
        }
    }

    /// Takes the line away, and tells nothing from here on.
    pub fn end(&self) {
        self.next.set(None);
        if self.is_shown.get() {
            self.is_shown.set(false);
            let _ = eprint!(self.rt; "{CLEAR}");
        }
    }

    /// Adds to one of the counts, and writes the line where it's time.
    fn add(&self, count: &Cell<u64>, more: usize) {
        count.set(count.get().saturating_add(more as u64));
        let Some(next) = self.next.get() else {
            return;
        };
        let now = Instant::now(self.rt).ok();
        if now.is_some_and(|now| next <= now) {
            self.next.set(after(now, STANDS));
            self.is_shown.set(true);
            let (read, written) = (self.read.get(), self.written.get());
            let _ = eprint!(self.rt; "{CLEAR}{read} bytes read, {written} written");
        }
    }
}

/// So many milliseconds after a time.
fn after(time: Option<Instant>, milliseconds: u64) -> Option<Instant> {
    time?.checked_add(Duration::from_millis(milliseconds))
}

/// A reader or a writer whose bytes are counted.
#[derive(Drop)]
pub struct Watched<'p, T> {
    pub inner: T,
    pub progress: &'p Progress<'p>,
}

impl<T: Read> Read for Watched<'_, T> {
    // A failed read is no end of the bytes.
    ghost remaining = { λ watched. T.remaining watched.inner };

    fn read(&mut self, buffer: &mut [u8]) -> io::Result<usize> {
        match self.inner.read(buffer) {
            Ok(count) => {
                self.progress.add(&self.progress.read, count);
                Ok(count)
            }
            Err(error) => Err(error),
        }
    }
}

impl<T: Write> Write for Watched<'_, T> {
    ghost contents = { λ watched. T.contents watched.inner };

    fn write(&mut self, piece: &[u8]) -> io::Result<usize> {
        if self.progress.gives_way {
            self.progress.end();
        }
        match self.inner.write(piece) {
            Ok(count) => {
                self.progress.add(&self.progress.written, count);
                Ok(count)
            }
            Err(error) => Err(error),
        }
    }

    fn flush(&mut self) -> io::Result<()> {
        self.inner.flush()
    }
}
