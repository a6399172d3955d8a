//! The table of a JSON document: drawn, and what keeps it from being drawn.

ghost use Rattle.std.specs.Prelude.{◌≡◌, ⊤};
ghost use Rattle.papergrid_script.specs.Writing.{WritesOutput};
ghost use Rattle.papergrid_table.specs.ForProofs.Drafts.{document_end};
ghost use Rattle.papergrid_table.specs.Pictures.{IsDocumentRun};

use papergrid::grid::DrawError;
use papergrid::{RunFault, Sink, Sizing};
use papergrid_json::{DocumentError, Form, SETTINGS, draw_document, read_document};
use papergrid_script::program::{name_like, quoted};
use std::alloc::{AllocError, Global};

/// How the drawing of a document ended.
#[derive(Clone, Copy)]
pub enum DocumentEnd {
    Drawn,
    /// Its table has no picture.
    Refused(DrawError),
    /// It describes no table.
    Bad,
}

/// Draws the table of the document that a text tells, and answers how that ended.
pub fn draw_text<W: Sink>(
    alloc: Global,
    sizing: Sizing,
    text: &[u8],
    writer: &mut W,
) -> Result<DocumentEnd, RunFault>
    ensures { WritesOutput W.contents W.has_failed W.has_stalled (λ _. ⊤)
        (IsDocumentRun sizing text.now) writer.old writer.new result }
{
    match read_document(alloc, text) {
        Ok(document) => end_of(draw_document(alloc, &document, sizing, writer)),
        Err(DocumentError::Memory) => Err(RunFault::Memory),
        Err(_) => Ok(DocumentEnd::Bad),
    }
}

/// How a run ends whose table was drawn so.
fn end_of(drawn: Result<(), DrawError>) -> Result<DocumentEnd, RunFault>
    ensures { result ≡ document_end drawn }
{
    match drawn {
        Ok(()) => Ok(DocumentEnd::Drawn),
        Err(DrawError::Memory(_)) => Err(RunFault::Memory),
        Err(DrawError::Write) => Err(RunFault::Write),
        Err(error) => Ok(DocumentEnd::Refused(error)),
    }
}

/// What is said of the document, of this name, whose run ended so.
pub fn said_of_document(
    alloc: Global,
    name: &str,
    input: &[u8],
    end: DocumentEnd,
) -> Result<String, AllocError> {
    match end {
        DocumentEnd::Drawn => String::from_str(alloc, ""),
        DocumentEnd::Refused(error) => format!(in alloc; "{name}: {error}"),
        DocumentEnd::Bad => match read_document(alloc, input) {
            Ok(_) => String::from_str(alloc, ""),
            Err(error) => said_of_error(alloc, name, &error),
        },
    }
}

/// What is said of a document that describes no table.
fn said_of_error(alloc: Global, name: &str, error: &DocumentError) -> Result<String, AllocError> {
    let DocumentError::UnknownSetting { index, name: word } = error else {
        return format!(in alloc; "{name}: {error}");
    };
    let like = setting_like(alloc, word.as_str())?;
    let written = quoted(alloc, word.as_str())?;
    match like {
        Some(like) => format!(in alloc;
            "{name}: settings[{index}]: {written} is not a setting; did you mean {like}?"
        ),
        None => format!(in alloc;
            "{name}: settings[{index}]: {written} is not a setting; --help-json tells all"
        ),
    }
}

/// The name of a setting that is most like this word, if one is like it.
fn setting_like(alloc: Global, word: &str) -> Result<Option<&'static str>, AllocError> {
    let mut names = Vec::with_capacity(alloc, SETTINGS.len())?;
    for setting in settings() {
        names.push(setting.0)?;
    }
    name_like(alloc, word, &names)
}

/// All settings of a document.
pub fn settings() -> &'static [Form] {
    &SETTINGS
}
