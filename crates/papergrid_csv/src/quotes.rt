//! The quote of a text that is not closed.

ghost use Rattle.std.specs.Prelude.{◌≡◌, ◌≤◌, ◌==◌, ◌↔◌, IsTrue, length, false};
ghost use Rattle.std.specs.Option.{MatchOption};
ghost use Rattle.std.specs.List.{list_any};
ghost use Rattle.csv.specs.Reading.{strip_bom};
ghost use Rattle.papergrid_csv.specs.Rows.{IsUnclosed, IsUnclosedFrom};
ghost use Rattle.papergrid_csv.specs.Starts.{is_line_end};
ghost use Rattle.papergrid_csv.specs.declared.quotes.Context.TheVariants.{Quoted, Start};
ghost use Rattle.papergrid_csv.specs.ForProofs.Contexts.{IsLastOutside, is_between, context_after, context_behind, plain_context};

use crate::reading::{Format, Reading};
use papergrid_text::search::find_byte;

/// Where a byte of a text stands.
#[derive(Clone, Copy, PartialEq, Eq)]
pub enum Context {
    /// At the start of a field.
    Start,
    /// In a field without quotes, or after its quotes.
    Field,
    /// Between the quotes of a field.
    Quoted,
    /// After a quote that ends a field, unless another one follows.
    Quote,
}

/// After how many bytes the quote stands that begins a field and is not closed before the end of the text.
pub fn unclosed_quote(reading: Reading, input: &[u8]) -> Option<usize>
    ensures { MatchOption result (IsUnclosed reading input.now → ⊥)
        (IsUnclosedFrom reading input.now) }
{
    match reading.format {
        Format::Csv(delimiter) => {
            let text = without_bom(input);
            if !ends_quoted(delimiter, text) {
                return None;
            }
            Some(input.len() - text.len() + last_outside(delimiter, text))
        }
        Format::Tsv => None,
    }
}

/// The text without a byte order mark.
pub fn without_bom(input: &[u8]) -> &[u8]
    ensures { result.now ≡ strip_bom input.now }
{
    match input.strip_prefix(b"\xef\xbb\xbf") {
        Some(rest) => rest,
        None => input,
    }
}

/// Whether the text ends between the quotes of a field. It goes from quote to quote, and looks at no more than the byte
/// before each.
fn ends_quoted(delimiter: u8, text: &[u8]) -> bool
    ensures { IsTrue result ↔ (context_behind delimiter Start text.now ≡ Quoted) }
{
    let (mut context, mut rest) = (Context::Start, text);
    let mut at = find_byte(rest, b'"');
    while at < rest.len() {
        let before = context_past(delimiter, context, &rest[..at]);
        context = context_after(delimiter, before, b'"');
        rest = &rest[at + 1..];
        at = find_byte(rest, b'"');
    }
    context_past(delimiter, context, rest) == Context::Quoted
}

/// After how many bytes of a text the last one stands outside of quotes, where the text ends between them.
fn last_outside(delimiter: u8, text: &[u8]) -> usize
    requires { context_behind delimiter Start text.now ≡ Quoted }
    ensures last { IsLastOutside delimiter text.now result }
    ensures bound { result ≤ length text.now }
{
    let (mut context, mut last, mut at) = (Context::Start, 0, 0);
    while at < text.len() {
        if !is_between(context) {
            last = at;
        }
        context = context_after(delimiter, context, text[at]);
        at += 1;
    }
    last
}

/// Whether a byte stands between the quotes of a field, or right behind one that may close them.
fn is_between(context: Context) -> bool
    ensures { result ≡ is_between context }
{
    matches!(context, Context::Quoted | Context::Quote)
}

/// Where the byte after these stands, of which none is a quote.
fn context_past(delimiter: u8, context: Context, bytes: &[u8]) -> Context
    requires { list_any (λ b. b == 34) bytes.now ≡ false }
    ensures { result ≡ context_behind delimiter context bytes.now }
{
    if let Context::Quoted = context {
        return context;
    }
    if bytes.len() == 0 {
        return context;
    }
    plain_context(delimiter, bytes[bytes.len() - 1])
}

/// Where the byte after this one stands.
pub fn context_after(delimiter: u8, context: Context, byte: u8) -> Context
    ensures { result ≡ context_after delimiter context byte }
{
    match (context, byte) {
        (Context::Start | Context::Quote, b'"') => Context::Quoted,
        (Context::Quoted, b'"') => Context::Quote,
        (Context::Quoted, _) => Context::Quoted,
        _ => plain_context(delimiter, byte),
    }
}

/// Where the byte after this one stands, which is not between quotes, and no quote that begins a field.
pub fn plain_context(delimiter: u8, byte: u8) -> Context
    ensures { result ≡ plain_context delimiter byte }
{
    if byte == delimiter || is_line_end(byte) {
        Context::Start
    } else {
        Context::Field
    }
}

/// Whether a byte ends a line.
pub fn is_line_end(byte: u8) -> bool
    ensures { result ≡ is_line_end byte }
{
    byte == b'\r' || byte == b'\n'
}
