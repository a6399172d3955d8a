//! Where a record of a text begins.

ghost use Rattle.std.specs.Prelude.{◌≡◌, ◌≤◌, length};
ghost use Rattle.std.specs.Option.{MatchOption};
ghost use Rattle.std.specs.List.{prefix_len};
ghost use Rattle.papergrid_csv.specs.Starts.{HasNoRecord, IsRecordStart, after_line_ends, is_line_end};
ghost use Rattle.papergrid_csv.specs.declared.quotes.Context.TheVariants.{Start};
ghost use Rattle.papergrid_csv.specs.ForProofs.Contexts.{behind_record, ends_record, context_by};

use crate::quotes::{Context, context_after, is_line_end, plain_context, without_bom};
use crate::reading::{Format, Reading};

/// After how many bytes of a text the record begins that has so many others before it, if there is one. No line end stands
/// there.
pub fn record_start(reading: Reading, input: &[u8], count: usize) -> Option<usize>
    ensures { MatchOption result (HasNoRecord reading input.now count)
        (IsRecordStart reading input.now count) }
{
    let mut rest = past_line_ends(without_bom(input));
    for _ in 0..count {
        rest = past_line_ends(past_record(reading.format, rest));
    }
    if rest.is_empty() {
        return None;
    }
    Some(input.len() - rest.len())
}

/// A text without the line ends at its beginning.
fn past_line_ends(text: &[u8]) -> &[u8]
    ensures { result.now ≡ after_line_ends text.now }
{
    &text[line_ends(text)..]
}

/// How many line ends stand at the beginning of a text.
fn line_ends(text: &[u8]) -> usize
    ensures count { result ≡ prefix_len is_line_end text.now }
    ensures bound { result ≤ length text.now }
{
    text.iter().take_while(|byte| is_line_end(**byte)).count()
}

/// What stands behind the record that begins a text, and the byte that ends it.
fn past_record(format: Format, text: &[u8]) -> &[u8]
    ensures { result.now ≡ behind_record format Start text.now }
{
    let (mut context, mut at) = (Context::Start, 0);
    while at < text.len() {
        if ends_record(format, context, text[at]) {
            return &text[at + 1..];
        }
        context = context_by(format, context, text[at]);
        at += 1;
    }
    &[]
}

/// Whether a byte in this context ends a record.
fn ends_record(format: Format, context: Context, byte: u8) -> bool
    ensures { result ≡ ends_record format context byte }
{
    match (format, context) {
        (Format::Csv(_), Context::Quoted) => false,
        (Format::Csv(delimiter), _) => byte != delimiter && is_line_end(byte),
        (Format::Tsv, _) => is_line_end(byte),
    }
}

/// Where the byte after this one stands.
fn context_by(format: Format, context: Context, byte: u8) -> Context
    ensures { result ≡ context_by format context byte }
{
    match format {
        Format::Csv(delimiter) => context_after(delimiter, context, byte),
        Format::Tsv => plain_context(b'\t', byte),
    }
}
