//! The options, and what each is followed by.

ghost use Rattle.std.specs.Prelude.{◌≡◌, map, option_copied, option_map};
ghost use Rattle.papergrid_table.specs.Options.{known, of_fields, of_inputs, option_named, option_told, options};

use crate::arguments::Kind;
use crate::styles::STYLES;
use papergrid_script::program::split_at_byte;

/// What an option says.
#[derive(Clone, Copy)]
pub enum Choice {
    /// By itself.
    Flag(Flag),
    /// By its value, in the same word or in the next one.
    Valued(Valued),
}

/// What an option says that has no value.
#[derive(Clone, Copy)]
pub enum Flag {
    /// What the input is.
    Kind(Kind),
    /// Whether the first row is a head.
    Head(bool),
    Hide,
    OneLine,
    Raw,
    Strict,
    Least,
    Witness,
    FitCrossings,
    HelpJson,
}

/// What an option is about that has a value.
#[derive(Clone, Copy)]
pub enum Valued {
    Delimiter,
    Style,
    Align,
    Valign,
    Pad,
    Span,
    MaxWidth,
    Width,
    Cut,
    Tab,
    Check,
}

/// An option.
#[derive(Clone, Copy)]
pub struct Listed {
    pub name: &'static str,
    pub choice: Choice,
    /// Whether it is for CSV and TSV alone.
    pub is_of_fields: bool,
}

/// An option that has a value.
#[derive(Clone, Copy)]
pub struct ValuedOption {
    pub name: &'static str,
    pub valued: Valued,
}

/// An option for each input.
fn of_inputs(choice: Choice, name: &'static str) -> Listed
    ensures { known result ≡ of_inputs choice name.now }
{
    Listed {
        name,
        choice,
        is_of_fields: false,
    }
}

/// An option for CSV and TSV alone.
fn of_fields(choice: Choice, name: &'static str) -> Listed
    ensures { known result ≡ of_fields (of_inputs choice name.now) }
{
    Listed {
        is_of_fields: true,
        ..of_inputs(choice, name)
    }
}

/// All options of a table.
fn options() -> [Listed; 25]
    ensures { map known result ≡ options }
{
    use Choice::{Flag as F, Valued as V};
    [
        of_inputs(F(Flag::Kind(Kind::Csv)), "--csv"),
        of_inputs(F(Flag::Kind(Kind::Tsv)), "--tsv"),
        of_inputs(F(Flag::Kind(Kind::Json)), "--json"),
        of_inputs(F(Flag::Kind(Kind::Script)), "--script"),
        of_fields(V(Valued::Delimiter), "--delimiter"),
        of_fields(V(Valued::Style), "--style"),
        of_fields(F(Flag::Head(true)), "--header"),
        of_fields(F(Flag::Head(false)), "--no-header"),
        of_fields(V(Valued::Align), "--align"),
        of_fields(V(Valued::Valign), "--valign"),
        of_fields(V(Valued::Pad), "--pad"),
        of_fields(V(Valued::Span), "--span"),
        of_fields(F(Flag::Hide), "--hide"),
        of_fields(V(Valued::MaxWidth), "--max-width"),
        of_fields(V(Valued::Width), "--width"),
        of_fields(V(Valued::Cut), "--cut"),
        of_fields(V(Valued::Tab), "--tab"),
        of_fields(F(Flag::OneLine), "--one-line"),
        of_fields(F(Flag::Raw), "--raw"),
        of_inputs(F(Flag::Least), "--least"),
        of_inputs(F(Flag::Witness), "--witness"),
        of_inputs(V(Valued::Check), "--check"),
        of_fields(F(Flag::Strict), "--strict"),
        of_fields(F(Flag::FitCrossings), "--fit-crossings"),
        of_inputs(F(Flag::HelpJson), "--help-json"),
    ]
}

/// The names of all options, those of the program too.
pub fn option_names() -> [&'static str; 27] {
    let mut names = ["--version"; 27];
    for (index, option) in options().iter().enumerate() {
        names[index] = option.name;
    }
    names[25] = "--help";
    names
}

/// The option of a table that a word names, with the value that follows it in the same word after `=`.
pub fn option_of(word: &str) -> Option<(Listed, Option<&str>)>
    ensures { option_map (λ found. (known found.0, option_copied found.1)) result
        ≡ option_told word.now }
{
    match split_at_byte(word, b'=') {
        None => Some((option_named(word)?, None)),
        Some((name, value)) => Some((option_named(name)?, Some(value))),
    }
}

/// The option of this name.
#[tactic(auto, unfolding(crate::specs::Options::option_named))]
fn option_named(name: &str) -> Option<Listed>
    ensures { option_map known result ≡ option_named name.now }
{
    for option in options() {
        if option.name == name {
            return Some(option);
        }
    }
    None
}

impl Valued {
    /// What a value is.
    pub fn form(self) -> &'static str {
        match self {
            Valued::Delimiter => "one character of ASCII, or tab",
            Valued::Style => "a style",
            Valued::Align => "an alignment",
            Valued::Valign => "top, center or bottom",
            Valued::Pad => "N or L,R,T,B",
            Valued::Span => "R,C=N or R,C=MxN",
            Valued::Width => "a number from 1 to 1000",
            Valued::MaxWidth | Valued::Cut | Valued::Tab => "a number",
            Valued::Check => "a file",
        }
    }

    /// The names that a value is one of, if there are such.
    pub fn names(self) -> &'static [&'static str] {
        match self {
            Valued::Style => &STYLES,
            Valued::Align => &["left", "center", "right", "auto"],
            Valued::Valign => &["top", "center", "bottom"],
            _ => &[],
        }
    }
}
