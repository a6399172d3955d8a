//! The styles of a table: its lines and its padding.

ghost use Rattle.std.specs.Prelude.{◌≡◌, ◌⊎◌, IsSome, MatchOption, None, Some, true};
ghost use Rattle.std.specs.List.{list_all};
ghost use Rattle.papergrid_values.specs.Borders.{frame_parts, frame_with};
ghost use Rattle.papergrid_text.specs.Separators.{is_separator};
ghost use Rattle.papergrid_draw.specs.Separated.{part_separates};
ghost use Rattle.papergrid_draw.specs.Crossings.{AreOfFrame};
ghost use Rattle.papergrid_draw.specs.declared.crossings.Junctions.{Junctions};
ghost use Rattle.papergrid_csv.specs.Requests.{fitting_characters, head_parts};
ghost use Rattle.papergrid_csv.specs.Styles.{fitting_frame, style_frame, style_head, style_padding};
ghost use Rattle.papergrid_csv.specs.declared.style.Style.TheVariants.{Plain};

use papergrid_draw::Junctions;
use papergrid_values::{Borders, HorizontalLine};

/// A style of a table.
#[derive(Clone, Copy, Debug, PartialEq, Eq)]
pub enum Style {
    Rounded,
    Ascii,
    Modern,
    Sharp,
    Extended,
    Psql,
    Markdown,
    Rst,
    Dots,
    Blank,
    Plain,
}

impl Style {
    /// The lines round the table, between its rows and between its columns. All but `Plain` have one between columns.
    #[tactic(auto, unfolding(crate::specs::Styles::style_frame))]
    pub fn frame(self) -> Borders<char>
        ensures lines { result ≡ style_frame self }
        ensures separators { list_all part_separates (frame_parts result) ≡ true }
        ensures vertical { (self ≡ Plain) ⊎ (IsSome result.vertical) }
    {
        match self {
            Style::Rounded => box_of(('─', '│'), ('╭', '┬', '╮'), ('╰', '┴', '╯')),
            Style::Sharp => box_of(('─', '│'), ('┌', '┬', '┐'), ('└', '┴', '┘')),
            Style::Ascii => ruled(
                box_of(('-', '|'), ('+', '+', '+'), ('+', '+', '+')),
                ('-', '+', '+', '+'),
            ),
            Style::Modern => ruled(
                box_of(('─', '│'), ('┌', '┬', '┐'), ('└', '┴', '┘')),
                ('─', '├', '┼', '┤'),
            ),
            Style::Extended => ruled(
                box_of(('═', '║'), ('╔', '╦', '╗'), ('╚', '╩', '╝')),
                ('═', '╠', '╬', '╣'),
            ),
            Style::Dots => ruled(
                box_of(('.', ':'), ('.', '.', '.'), (':', ':', ':')),
                ('.', ':', ':', ':'),
            ),
            Style::Psql => columns_by('|'),
            Style::Markdown => sided(columns_by('|'), '|'),
            Style::Rst => overlined(columns_by(' '), '=', ' '),
            Style::Blank => columns_by(' '),
            Style::Plain => Borders::empty(),
        }
    }

    /// The line below the first row, if it has one; where the first row is no head, if it keeps it.
    #[tactic(auto, unfolding(crate::specs::Styles::style_head))]
    pub fn head(self, is_head: bool) -> Option<HorizontalLine<char>>
        ensures line { result ≡ style_head self is_head }
        ensures separators { list_all part_separates (head_parts result) ≡ true }
    {
        match self {
            Style::Rounded | Style::Sharp if is_head => {
                Some(HorizontalLine::full('─', '┼', '├', '┤'))
            }
            Style::Psql => Some(inner_line('-', '+')),
            Style::Markdown => Some(HorizontalLine::full('-', '|', '|', '|')),
            Style::Rst => Some(inner_line('=', ' ')),
            _ => None,
        }
    }

    /// The characters of its crossings, if it has all of them.
    pub fn junctions(self) -> Option<Junctions>
        ensures crossings { let frame = fitting_frame self in
            MatchOption result ((junctions : Junctions) → AreOfFrame frame junctions → ⊥)
            (AreOfFrame frame) }
        ensures separators { list_all is_separator (fitting_characters result) ≡ true }
    {
        Junctions::of_frame(&self.fitting_frame())
    }

    /// Its frame, with crossings that fit spans.
    #[tactic(auto, unfolding(crate::specs::Styles::fitting_frame))]
    fn fitting_frame(self) -> Borders<char>
        ensures { result ≡ fitting_frame self }
    {
        match self {
            Style::Rounded | Style::Sharp => ruled(self.frame(), ('─', '├', '┼', '┤')),
            _ => self.frame(),
        }
    }

    /// How many spaces stand on both sides of a text.
    pub fn padding(self) -> usize
        ensures { result ≡ style_padding self }
    {
        match self {
            Style::Rst | Style::Blank | Style::Plain => 0,
            _ => 1,
        }
    }
}

/// A frame by its lines across and down, and its corners and crossings at the top and at the bottom.
fn box_of(lines: (char, char), top: (char, char, char), bottom: (char, char, char)) -> Borders<char>
    ensures { result ≡ record (frame_with None) {
      top = Some lines.0;
      bottom = Some lines.0;
      left = Some lines.1;
      right = Some lines.1;
      vertical = Some lines.1;
      top_left = Some top.0;
      top_intersection = Some top.1;
      top_right = Some top.2;
      bottom_left = Some bottom.0;
      bottom_intersection = Some bottom.1;
      bottom_right = Some bottom.2;
    } }
{
    let mut frame = Borders::empty();
    frame.top = Some(lines.0);
    frame.bottom = Some(lines.0);
    frame.left = Some(lines.1);
    frame.right = Some(lines.1);
    frame.vertical = Some(lines.1);
    frame.top_left = Some(top.0);
    frame.top_intersection = Some(top.1);
    frame.top_right = Some(top.2);
    frame.bottom_left = Some(bottom.0);
    frame.bottom_intersection = Some(bottom.1);
    frame.bottom_right = Some(bottom.2);
    frame
}

/// The same with lines between rows.
fn ruled(mut frame: Borders<char>, line: (char, char, char, char)) -> Borders<char>
    ensures { result ≡ record frame {
      horizontal = Some line.0;
      left_intersection = Some line.1;
      intersection = Some line.2;
      right_intersection = Some line.3;
    } }
{
    frame.horizontal = Some(line.0);
    frame.left_intersection = Some(line.1);
    frame.intersection = Some(line.2);
    frame.right_intersection = Some(line.3);
    frame
}

/// Only lines between columns.
fn columns_by(c: char) -> Borders<char>
    ensures { result ≡ record (frame_with None) { vertical = Some c } }
{
    let mut frame = Borders::empty();
    frame.vertical = Some(c);
    frame
}

/// The same with lines on both sides.
fn sided(mut frame: Borders<char>, c: char) -> Borders<char>
    ensures { result ≡ record frame { left = Some c; right = Some c } }
{
    frame.left = Some(c);
    frame.right = Some(c);
    frame
}

/// The same with lines above and below.
fn overlined(mut frame: Borders<char>, c: char, between: char) -> Borders<char>
    ensures { result ≡ record frame {
      top = Some c;
      top_intersection = Some between;
      bottom = Some c;
      bottom_intersection = Some between;
    } }
{
    frame.top = Some(c);
    frame.top_intersection = Some(between);
    frame.bottom = Some(c);
    frame.bottom_intersection = Some(between);
    frame
}

/// A line without ends.
fn inner_line(main: char, between: char) -> HorizontalLine<char>
    ensures { result ≡ record {
      main = Some main;
      intersection = Some between;
      left = None;
      right = None;
    } }
{
    HorizontalLine::new(Some(main), Some(between), None, None)
}
