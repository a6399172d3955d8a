//! How a text is delivered: to a sink by its bytes, and to a writer of text as it is.

ghost use Rattle.std.specs.Prelude.{ℕ, List, OnErr, OnOk, ⊤};
ghost use Rattle.papergrid_draw.specs.ForProofs.Sinks.{IsBroken};
ghost use Rattle.papergrid_text.specs.Transfer.{IsTaken};

use papergrid_text::transfer::{Failed, Sink, write_all};
use std::fmt;

/// A way to deliver a text to a writer.
pub trait Delivery<W> {
    // The writer before a text that it took, the text, and the writer after it.
    ghost takes: { W → List ℕ → W → Type 0 };

    // The same of a text that it did not take, or not all of it.
    ghost breaks: { W → List ℕ → W → Type 0 };

    /// Delivers a text.
    ///
    /// # Errors
    ///
    /// `Failed` where the writer did not take all of it.
    fn deliver(writer: &mut W, text: &str) -> Result<(), Failed>
        ensures ok { OnOk result (takes writer.old text.now writer.new) }
        ensures err { OnErr result (breaks writer.old text.now writer.new) };
}

/// To a sink, by its bytes.
pub struct ToSink;

impl<W: Sink> Delivery<W> for ToSink {
    ghost takes = { IsTaken W.contents W.has_failed W.has_stalled };

    ghost breaks = { IsBroken W.contents W.has_failed W.has_stalled };

    fn deliver(writer: &mut W, text: &str) -> Result<(), Failed> {
        write_all(writer, text.as_bytes())
    }
}

/// To a writer of text, as it is. That tells nothing of a text that it did not take.
pub struct ToText;

impl<W: fmt::Write> Delivery<W> for ToText {
    ghost takes = { W.write_str_gives };

    ghost breaks = { λ _ _ _. ⊤ };

    fn deliver(writer: &mut W, text: &str) -> Result<(), Failed> {
        match writer.write_str(text) {
            Ok(()) => Ok(()),
            Err(_) => Err(Failed),
        }
    }
}
