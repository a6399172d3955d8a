//! The characters of the lines of a table, with their colours.

ghost use Rattle.std.specs.Prelude.{◌≡◌, ◌++◌, ◌∷◌, [], None, OnOk, map, option_copied, string_bytes};
ghost use Rattle.std.specs.Option.{option_eq};
ghost use Rattle.papergrid_values.specs.Colors.{same_texts};
ghost use Rattle.papergrid_draw.specs.Bytes.{mark_bytes, piece_bytes, suffix_of, switch};
ghost use Rattle.papergrid_draw.specs.Characters.{crossing, segment, vertical};
ghost use Rattle.papergrid_draw.specs.Drawn.{OnLine};
ghost use Rattle.papergrid_draw.specs.ForProofs.Pens.{AddsStretches, line_mark};

use crate::pen::{push_colored_fill, push_fill, push_prefix, push_suffix};
use papergrid_config::SpannedConfig;
use papergrid_values::{ANSIBuf, Position};
use std::alloc::AllocError;

/// Adds the character of the vertical line at a position, in line k of a row of this height.
pub fn push_vertical(
    line: &mut String,
    config: &SpannedConfig,
    position: Position,
    shape: (usize, usize),
    height: usize,
    k: usize,
) -> Result<(), AllocError>
    ensures { OnOk result (string_bytes line.new
        ≡ string_bytes line.old ++ piece_bytes (vertical config.now shape position height k)) }
{
    let character = config
        .lookup_vertical_char(position, k, height)
        .or(config.get_vertical(position, shape.1))
        .unwrap_or(config.get_borders_missing());
    let color = config
        .get_vertical_color(position, shape.1)
        .or(config.lookup_vertical_color(position, k, height));
    push_colored_fill(line, color, character, 1)
}

/// A horizontal line from left to right, with the colour that is in use.
#[derive(Clone, Copy)]
pub struct Rule<'a> {
    used: Option<&'a ANSIBuf>,
}

/// Whether two colours have the same texts, or there is neither.
fn is_same_color(a: Option<&ANSIBuf>, b: Option<&ANSIBuf>) -> bool
    ensures { result ≡ option_eq same_texts (option_copied a.entry) (option_copied b.entry) }
{
    match (a, b) {
        (None, None) => true,
        (Some(a), Some(b)) => *a == *b,
        _ => false,
    }
}

impl<'a> Rule<'a> {
    /// A line at its start.
    pub fn new() -> Rule<'a>
        ensures { option_copied result.used ≡ None }
    {
        Rule { used: None }
    }

    /// Ends the colour in use, and begins another.
    fn switch(&mut self, color: Option<&'a ANSIBuf>, line: &mut String) -> Result<(), AllocError>
        ensures bytes { OnOk result (string_bytes line.new ≡ string_bytes line.old
            ++ switch (option_copied self.old.used) (option_copied color.entry)) }
        ensures used { OnOk result (option_copied self.new.used ≡ option_copied color.entry) }
    {
        if is_same_color(self.used, color) {
            return Ok(());
        }
        push_suffix(line, self.used)?;
        push_prefix(line, color)?;
        self.used = color;
        Ok(())
    }

    /// Ends the colour in use.
    pub fn end(&mut self, line: &mut String) -> Result<(), AllocError>
        ensures bytes { OnOk result (string_bytes line.new
            ≡ string_bytes line.old ++ suffix_of (option_copied self.old.used)) }
        ensures used { OnOk result (option_copied self.new.used ≡ None) }
    {
        push_suffix(line, self.used)?;
        self.used = None;
        Ok(())
    }

    /// Adds the crossing at a position.
    pub fn push_crossing(
        &mut self,
        config: &'a SpannedConfig,
        position: Position,
        shape: (usize, usize),
        line: &mut String,
    ) -> Result<(), AllocError>
        ensures { OnOk result (AddsStretches (option_copied self.old.used)
            (option_copied self.new.used) (string_bytes line.old) (string_bytes line.new)
            (OnLine (crossing config.now shape position) ∷ [])) }
    {
        self.switch(config.get_intersection_color(position, shape), line)?;
        let character = config
            .get_intersection(position, shape)
            .unwrap_or(config.get_borders_missing());
        push_fill(line, character, 1)
    }

    /// Adds the horizontal line over the width of the column at a position.
    pub fn push_segment(
        &mut self,
        config: &'a SpannedConfig,
        position: Position,
        shape: (usize, usize),
        width: usize,
        line: &mut String,
    ) -> Result<(), AllocError>
        ensures { OnOk result (AddsStretches (option_copied self.old.used)
            (option_copied self.new.used) (string_bytes line.old) (string_bytes line.new)
            (map OnLine (segment config.now shape position width))) }
    {
        if width == 0 {
            return Ok(());
        }
        let color = config.get_horizontal_color(position, shape.0);
        self.switch(color, line)?;
        let character = config
            .get_horizontal(position, shape.0)
            .unwrap_or(config.get_borders_missing());
        if !config.is_overridden_horizontal(position) {
            return push_fill(line, character, width);
        }
        for k in 0..width {
            let own = config.lookup_horizontal_char(position, k, width);
            let own_color = config.lookup_horizontal_color(position, k, width);
            push_mark(line, color, own_color, own.unwrap_or(character))?;
        }
        Ok(())
    }
}

/// Adds one character, whose colour is in use: where it has one of its own, that is left and begun
/// again.
fn push_mark(
    line: &mut String,
    color: Option<&ANSIBuf>,
    own: Option<&ANSIBuf>,
    character: char,
) -> Result<(), AllocError>
    ensures { OnOk result (string_bytes line.new ≡ string_bytes line.old
        ++ mark_bytes (line_mark (option_copied color.entry) (option_copied own.entry) character)) }
{
    if own.is_none() {
        return push_fill(line, character, 1);
    }
    push_suffix(line, color)?;
    push_colored_fill(line, own, character, 1)?;
    push_prefix(line, color)
}
