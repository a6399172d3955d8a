//! The names of styles.

ghost use Rattle.std.specs.Prelude.{◌≡◌, Some};
ghost use Rattle.papergrid_table.specs.Values.{style_named};

use papergrid_csv::Style;

/// The names of all styles.
pub const STYLES: [&str; 11] = [
    "rounded", "ascii", "modern", "sharp", "extended", "psql", "markdown", "rst", "dots", "blank",
    "none",
];

/// The style of this name.
#[tactic(auto, unfolding(crate::specs::Values::style_named))]
pub fn style_named(name: &str) -> Option<Style>
    ensures { result ≡ style_named name.now }
{
    match name {
        "rounded" => Some(Style::Rounded),
        "ascii" => Some(Style::Ascii),
        "modern" => Some(Style::Modern),
        "sharp" => Some(Style::Sharp),
        "extended" => Some(Style::Extended),
        "psql" => Some(Style::Psql),
        "markdown" => Some(Style::Markdown),
        "rst" => Some(Style::Rst),
        "dots" => Some(Style::Dots),
        "blank" => Some(Style::Blank),
        "none" => Some(Style::Plain),
        _ => None,
    }
}

/// The name of a style.
#[tactic(auto, unfolding(crate::specs::Values::style_named))]
pub fn name_of(style: Style) -> &'static str
    ensures { style_named result.now ≡ Some style }
{
    match style {
        Style::Rounded => "rounded",
        Style::Ascii => "ascii",
        Style::Modern => "modern",
        Style::Sharp => "sharp",
        Style::Extended => "extended",
        Style::Psql => "psql",
        Style::Markdown => "markdown",
        Style::Rst => "rst",
        Style::Dots => "dots",
        Style::Blank => "blank",
        Style::Plain => "none",
    }
}
