//! The totals alone.

ghost use Rattle.std.specs.Prelude.{◌≡◌, ◌≤◌, length, nat_eq, None};

use papergrid::{Failed, Sink};

/// What the lines that are dropped begin with.
const DROPPED: [&[u8]; 3] = [b"widths", b"heights", b"witness"];

/// A sink that takes all of the output, and passes on no line of single sizes or of certificates.
/// The others may go in several pieces, since no rest of `total ..`, of a refusal or of `bad script
/// ..` begins like a line that is dropped.
#[derive(Drop)]
pub struct TotalsSink<W> {
    pub sink: W,
}

impl<W: Sink> Sink for TotalsSink<W> {
    ghost contents = { λ _. None };

    ghost has_failed = { λ s. W.has_failed s.sink };

    ghost has_stalled = { λ s. W.has_stalled s.sink };

    fn write(&mut self, piece: &[u8]) -> Result<usize, Failed> {
        let line = first_line(piece);
        if DROPPED.iter().any(|start| line.starts_with(start)) {
            return Ok(line.len());
        }
        self.sink.write(line)
    }
}

/// The bytes up to the first newline, and that.
fn first_line(bytes: &[u8]) -> &[u8]
    ensures within { length result.now ≤ length bytes.now }
    ensures empty { nat_eq (length result.now) 0 ≡ nat_eq (length bytes.now) 0 }
{
    match bytes.iter().position(|byte| *byte == b'\n') {
        Some(at) => &bytes[..=at],
        None => bytes,
    }
}
