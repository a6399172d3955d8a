//! Writers that fail, of the printers over records: what they took is a beginning of the picture.

ghost use Rattle.std.specs.Prelude.{◌≤◌, IfOk, length};

use crate::tests::{measured_rows, rows_of};
use papergrid::WriteSink;
use papergrid::colors::NoColors;
use papergrid::config::Borders;
use papergrid::config::spanned::SpannedConfig;
use papergrid::dimension::Dimension;
use papergrid::grid::DrawError;
use papergrid::grid::iterable::IterGrid;
use papergrid::grid::peekable::PeekableGrid;
use papergrid::records::IterRecords;
use papergrid::records::vec_records::{Text, VecRecords};
use papergrid_values::ANSIBuf;
use std::alloc::{AllocError, Global};
use std::io::{ErrorKind, Write};
use std::{fmt, io};

/// Takes so many bytes, and fails at the text that has more.
#[derive(Drop)]
struct Limited {
    written: Vec<u8>,
    left: usize,
}

impl Limited {
    /// How many bytes of a piece it takes.
    fn take(&mut self, piece: &[u8]) -> Result<usize, AllocError>
        ensures { IfOk result (λ count. count ≤ length piece.now) }
    {
        let count = self.left.min(piece.len());
        self.written.extend_from_slice(&piece[..count])?;
        self.left -= count;
        Ok(count)
    }
}

impl fmt::Write for Limited {
    fn write_str(&mut self, text: &str) -> fmt::Result {
        match self.take(text.as_bytes()) {
            Ok(count) if count == text.len() => Ok(()),
            _ => Err(fmt::Error),
        }
    }
}

impl Write for Limited {
    fn write(&mut self, piece: &[u8]) -> io::Result<usize> {
        if self.left == 0 {
            return Err(io::Error::from(ErrorKind::Other));
        }
        Ok(self.take(piece)?)
    }

    fn flush(&mut self) -> io::Result<()> {
        Ok(())
    }
}

/// Each column is one wide, and each row one high.
#[derive(Drop)]
struct Ones;

impl Dimension for Ones {
    ghost use Rattle.std.specs.Prelude.{⊤};

    ghost has_column = { λ _ _. ⊤ };

    ghost has_row = { λ _ _. ⊤ };

    ghost width_of = { λ _ _. 1 };

    ghost height_of = { λ _ _. 1 };

    fn get_width(&self, _column: usize) -> usize {
        let _dimension = self;
        1
    }

    fn get_height(&self, _row: usize) -> usize {
        let _dimension = self;
        1
    }
}

/// A table of one row in a frame, whose lines may have a colour, and what a writer takes of its picture.
struct Broken {
    texts: &'static [&'static str],
    color: Option<(&'static str, &'static str)>,
    taken: &'static str,
}

/// Each writer takes as many bytes as are told here.
const BROKEN: [Broken; 3] = [
    Broken {
        texts: &["a", "b"],
        color: None,
        taken: "+-+-+\n|a|",
    },
    Broken {
        texts: &["a"],
        color: None,
        taken: "",
    },
    Broken {
        texts: &["a", "b"],
        color: Some(("\u{1b}[31m", "\u{1b}[39m")),
        taken: "\u{1b}[31m+-+",
    },
];

/// Lines of these characters at the top and beside each cell, in this colour.
fn framed(
    alloc: Global,
    color: Option<(&'static str, &'static str)>,
) -> Result<SpannedConfig, AllocError> {
    let mut config = SpannedConfig::new(alloc);
    config.set_borders(Borders {
        top: Some('-'),
        left: Some('|'),
        vertical: Some('|'),
        right: Some('|'),
        ..Borders::filled('+')
    });
    if let Some((prefix, suffix)) = color {
        config.set_border_color_default(ANSIBuf::new(alloc, prefix, suffix)?);
    }
    Ok(config)
}

/// A writer of so many bytes.
fn writer_of(alloc: Global, taken: &str) -> Limited {
    Limited {
        written: Vec::new(alloc),
        left: taken.len(),
    }
}

/// Whether a call told the error of its writer, which took these bytes.
fn is_told(told: Result<(), DrawError>, writer: Limited, taken: &'static str) -> bool {
    told == Err(DrawError::Write) && writer.written.as_slice() == taken.as_bytes()
}

/// Of a writer of text and of a sink.
fn is_measured_told(
    alloc: Global,
    records: &VecRecords<Text<&'static str>>,
    config: &SpannedConfig,
    taken: &'static str,
) -> bool {
    let grid = PeekableGrid::new(records, config, &Ones, &NoColors);
    let mut writer = writer_of(alloc, taken);
    let as_text = grid.build(alloc, &mut writer);
    let mut sink = writer_of(alloc, taken);
    let as_bytes = grid.write_to(alloc, &mut WriteSink::new(&mut sink));
    is_told(as_text, writer, taken) & is_told(as_bytes, sink, taken)
}

/// The same of texts that are not measured.
fn is_text_told(
    alloc: Global,
    records: IterRecords<&[Vec<&'static str>]>,
    config: &SpannedConfig,
    taken: &'static str,
) -> bool {
    let grid = IterGrid::new(records, config, &Ones, &NoColors);
    let mut writer = writer_of(alloc, taken);
    let as_text = grid.build(alloc, &mut writer);
    let grid = IterGrid::new(records, config, &Ones, &NoColors);
    let mut sink = writer_of(alloc, taken);
    let as_bytes = grid.write_to(alloc, &mut WriteSink::new(&mut sink));
    is_told(as_text, writer, taken) & is_told(as_bytes, sink, taken)
}

/// Both of a table.
fn is_broken_told(
    alloc: Global,
    broken: &Broken,
    config: &SpannedConfig,
) -> Result<bool, AllocError> {
    let rows = rows_of(alloc, &[broken.texts])?;
    let records = IterRecords::new(rows.as_slice(), broken.texts.len(), None);
    let is_text = is_text_told(alloc, records, config, broken.taken);
    let measured = VecRecords::new(measured_rows(alloc, &[broken.texts])?);
    Ok(is_text & is_measured_told(alloc, &measured, config, broken.taken))
}

/// After so many bytes, at the first call, and inside of a colour, after which no suffix is written.
fn are_told(alloc: Global) -> Result<bool, AllocError> {
    let mut are = true;
    for broken in &BROKEN {
        let config = framed(alloc, broken.color)?;
        are = is_broken_told(alloc, broken, &config)? && are;
    }
    Ok(are)
}

#[test]
fn failing_writers(rt: HostRuntime) {
    assert!(rt; are_told(rt.alloc()) == Ok(true));
}
