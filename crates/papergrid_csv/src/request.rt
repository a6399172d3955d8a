//! What is asked of the table of a CSV text.

ghost use Rattle.std.specs.Prelude.{◌≡◌, ◌⊎◌, ◌∷◌, ◌++◌, [], IfOk, IsSome, None, OnOk, false, flat_map, true};
ghost use Rattle.papergrid_values.specs.declared.alignment.AlignmentHorizontal.TheVariants.{Left};
ghost use Rattle.papergrid_values.specs.declared.alignment.AlignmentVertical.TheVariants.{Top};
ghost use Rattle.papergrid_values.specs.declared.entity.Entity.TheVariants.{Global};
ghost use Rattle.papergrid_values.specs.Compact.{all_sides, spaces};
ghost use Rattle.papergrid_config.specs.declared.setting.Setting.TheVariants.{SetAlignmentVertical, SetBorders, SetPadding};
ghost use Rattle.papergrid_tracks.specs.declared.sizing.Sizing.TheVariants.{ByShares};
ghost use Rattle.papergrid_csv.specs.Requests.{IsSeparating, head_line, settings_of, span_settings};
ghost use Rattle.papergrid_csv.specs.Rows.{held_texts};
ghost use Rattle.papergrid_csv.specs.Styles.{style_frame, style_head, style_padding};
ghost use Rattle.papergrid_csv.specs.declared.reading.Format.TheVariants.{Csv};
ghost use Rattle.papergrid_csv.specs.declared.request.Alignment.TheVariants.{Fixed};
ghost use Rattle.papergrid_csv.specs.declared.style.Style.TheVariants.{Plain};

use crate::aligned::{push_alignments, push_entries, push_setting, rows_below};
use crate::reading::{Format, Reading, Rows};
use crate::style::Style;
use papergrid_config::Setting;
use papergrid_draw::Junctions;
use papergrid_layout::Sizing;
use papergrid_values::{
    AlignmentHorizontal, AlignmentVertical, Borders, Entity, HorizontalLine, Indent, Position,
    Sides,
};
use std::alloc::{AllocError, Global};

/// How the texts of cells are aligned.
#[derive(Clone, Copy, Debug, PartialEq, Eq)]
pub enum Alignment {
    Fixed(AlignmentHorizontal),
    /// Right for a column of numbers, else left.
    Auto,
}

/// Which columns are meant.
#[derive(Debug, Drop)]
pub enum ColumnName {
    /// Counted from 0.
    Number(usize),
    /// By the text of the first row, as it is shown.
    Head(String),
}

/// A cell that spans so many rows and columns. A number of 0 counts as 1.
#[derive(Clone, Copy, Debug, PartialEq, Eq)]
pub struct Span {
    pub position: Position,
    pub rows: usize,
    pub columns: usize,
}

/// What is asked of the table of a CSV text.
#[derive(Debug, Drop)]
pub struct Request {
    pub reading: Reading,
    /// The lines round the table, between its rows and between its columns.
    pub frame: Borders<char>,
    /// The line below the first row, where another row follows.
    pub head: Option<HorizontalLine<char>>,
    /// Whether the first row is a head, which tells no numbers.
    pub has_head: bool,
    /// The padding of each cell.
    pub padding: Sides<Indent>,
    /// The alignment of all cells.
    pub alignment: Alignment,
    pub vertical: AlignmentVertical,
    /// Alignments of single columns; of two of the same column the last one counts.
    pub columns: Vec<(ColumnName, Alignment)>,
    pub spans: Vec<Span>,
    /// Whether fields that are not empty may stand under a span.
    pub hides: bool,
    /// The characters of crossings that are to fit the spans.
    pub junctions: Option<Junctions>,
    /// The greatest width of a line of a field, in columns; what is longer is cut.
    pub cut: Option<usize>,
    /// The greatest width of the table, in columns.
    pub max_width: Option<usize>,
    pub sizing: Sizing,
}

impl Request {
    /// A request for the table of a CSV text with commas, in a style. The first row is a head. Texts stand on the left and at
    /// the top of their cells. Nothing is cut, and records may have unlike numbers of fields.
    ///
    /// So each line is as wide as the table (law `csv_lines_as_wide`), whatever the text is, but in the style `Plain`.
    pub fn in_style(alloc: Global, style: Style) -> Request
        ensures separators { IsSeparating result }
        ensures apart { (style ≡ Plain) ⊎ (IsSome result.frame.vertical) }
        ensures reading { result.reading ≡ record {
          format = Csv 44;
          tab = None;
          one_line = false;
          raw = false;
          strict = false;
        } }
        ensures lines { (result.frame ≡ style_frame style)
            × (result.head ≡ style_head style true) }
        ensures head { result.has_head ≡ true }
        ensures padding { let side = spaces (style_padding style) in
            result.padding ≡ record (all_sides (spaces 0)) { left = side; right = side } }
        ensures columns { result.columns.items ≡ [] }
        ensures spans { (result.spans.items ≡ []) × (result.hides ≡ false) }
        ensures junctions { result.junctions ≡ None }
        ensures widths { (result.cut ≡ None) × (result.max_width ≡ None) }
        ensures alignment { (result.alignment ≡ Fixed Left) × (result.vertical ≡ Top) }
        ensures sizing { result.sizing ≡ ByShares }
    {
        let (side, none) = (Indent::spaced(style.padding()), Indent::zero());
        Request {
            reading: Reading {
                format: Format::Csv(b','),
                tab: None,
                one_line: false,
                raw: false,
                strict: false,
            },
            frame: style.frame(),
            head: style.head(true),
            has_head: true,
            padding: Sides::new(side, side, none, none),
            alignment: Alignment::Fixed(AlignmentHorizontal::Left),
            vertical: AlignmentVertical::Top,
            columns: Vec::new(alloc),
            spans: Vec::new(alloc),
            hides: false,
            junctions: None,
            cut: None,
            max_width: None,
            sizing: Sizing::ByShares,
        }
    }
}

/// The settings of a table of these rows.
pub fn settings(
    alloc: Global,
    request: &Request,
    rows: &Rows<'_>,
) -> Result<Vec<Setting>, AllocError>
    ensures { IfOk result (λ settings. settings.items
        ≡ settings_of request.now rows.now.columns (held_texts rows.now.rows)) }
{
    let below = rows_below(request.has_head, &rows.rows);
    let mut settings = line_settings(alloc, request, rows.rows.len())?;
    push_setting(
        Setting::SetPadding(Entity::Global, request.padding),
        &mut settings,
    )?;
    push_alignments(below, rows.columns, request.alignment, &mut settings)?;
    push_setting(
        Setting::SetAlignmentVertical(Entity::Global, request.vertical),
        &mut settings,
    )?;
    push_entries(request, rows, below, &mut settings)?;
    push_spans(&request.spans, &mut settings)?;
    Ok(settings)
}

/// Those of its lines.
fn line_settings(alloc: Global, request: &Request, rows: usize) -> Result<Vec<Setting>, AllocError>
    ensures { IfOk result (λ settings. settings.items
        ≡ SetBorders request.now.frame ∷ head_line request.now.head rows) }
{
    let mut settings = Vec::new(alloc);
    push_setting(Setting::SetBorders(request.frame), &mut settings)?;
    if let Some(line) = request.head {
        if 1 < rows {
            push_setting(Setting::InsertHorizontalLine(1, line), &mut settings)?;
        }
    }
    Ok(settings)
}

/// Adds those of the spans.
fn push_spans(spans: &[Span], settings: &mut Vec<Setting>) -> Result<(), AllocError>
    ensures { OnOk result (settings.new.items
        ≡ settings.old.items ++ flat_map span_settings spans.now) }
{
    for span in spans {
        push_setting(
            Setting::SetColumnSpan(span.position, span.columns),
            settings,
        )?;
        push_setting(Setting::SetRowSpan(span.position, span.rows), settings)?;
    }
    Ok(())
}
