//! What options choose, and what is said of those that choose nothing.

ghost use Rattle.std.specs.Prelude.{◌≡◌, ◌&&◌, ◌||◌, IfOk, None, OnOk, Some, false, if◌then◌else◌, is_some, not, option_copied, option_map, true, unwrap_or, ⊤};
ghost use Rattle.std.specs.List.{list_all};
ghost use Rattle.papergrid_text.specs.Separators.{is_separator};
ghost use Rattle.papergrid_draw.specs.Crossings.{AreOfFrame};
ghost use Rattle.papergrid_csv.specs.Requests.{IsSeparating, fitting_characters};
ghost use Rattle.papergrid_csv.specs.Styles.{fitting_frame};
ghost use Rattle.papergrid_table.specs.Arguments.{IsWanted, aligned, format_told, is_beside_width, is_of_another, is_refused, no_options, of_option, option_taken, switched, value_taken, valued_told};
ghost use Rattle.papergrid_table.specs.Options.{known};
ghost use Rattle.papergrid_table.specs.Values.{alignment_named};
ghost use Rattle.papergrid_table.specs.ForProofs.Drafts.{IsAnswer, IsDrawnIn, IsJudged, IsSaid, told_of};

use crate::arguments::{Kind, Misuse, Wanted};
use crate::options::{Choice, Flag, Listed, Valued, ValuedOption};
use crate::styles::{name_of, style_named};
use crate::values::{
    alignment_of, column_alignment, delimiter_of, padding, padding_of, span_of, vertical_of,
    width_of,
};
use papergrid::Sizing;
use papergrid::grid::Junctions;
use papergrid_csv::{Format, Request, Style};
use papergrid_script::program::{name_like, number, shown};
use papergrid_values::Sides;
use std::alloc::{AllocError, Global};

/// What options choose.
pub struct Chosen {
    alloc: Global,
    kind: Option<Kind>,
    delimiter: Option<u8>,
    style: Style,
    pad: Option<Sides<usize>>,
    fits: bool,
    /// The last option that a script or a document does not take.
    of_fields: Option<&'static str>,
    /// The rest. Its kind and its lines are chosen at the end.
    wanted: Wanted,
}

// By hand: docs/DECISIONS.md, "Drops".
impl Drop for Chosen {
    fn drop(self) {
        let Chosen {
            alloc: _,
            kind: _,
            delimiter: _,
            style: _,
            pad: _,
            fits: _,
            of_fields: _,
            wanted: _,
        } = self;
    }
}

impl Chosen {
    /// Nothing is chosen.
    pub fn none(alloc: Global) -> Chosen
        ensures { told_of result ≡ no_options }
    {
        Chosen {
            alloc,
            kind: None,
            delimiter: None,
            style: Style::Rounded,
            pad: None,
            fits: false,
            of_fields: None,
            wanted: Wanted {
                kind: Kind::Csv,
                request: Request::in_style(alloc, Style::Rounded),
                width: None,
                witness: false,
                check: None,
                explains_json: false,
            },
        }
    }

    /// Takes an option, and its value where it stands in the same word; and tells the option if it wants one.
    pub fn begin(
        &mut self,
        option: Listed,
        value: Option<&str>,
    ) -> Result<Option<ValuedOption>, Misuse>
        ensures { IsAnswer (λ waits. (option_map (λ w. w.valued) waits, told_of self.new))
            (option_taken option.choice (option_copied value.entry)
            (of_option (known option) (told_of self.old))) result }
    {
        let name = option.name;
        if option.is_of_fields {
            self.of_fields = Some(name);
        }
        match (option.choice, value) {
            (Choice::Flag(flag), None) => self.set_flag(flag),
            (Choice::Flag(_), Some(_)) => {
                return Err(said(format!(in self.alloc; "{name}: takes no value")));
            }
            (Choice::Valued(valued), None) => return Ok(Some(ValuedOption { name, valued })),
            (Choice::Valued(valued), Some(value)) => self.set(
                ValuedOption { name, valued },
                value,
            )?,
        }
        Ok(None)
    }

    /// Takes an option without a value.
    fn set_flag(&mut self, flag: Flag)
        ensures { told_of self.new ≡ switched flag (told_of self.old) }
    {
        let request = &mut self.wanted.request;
        match flag {
            Flag::Kind(kind) => self.kind = Some(kind),
            Flag::Head(has_head) => request.has_head = has_head,
            Flag::Hide => request.hides = true,
            Flag::OneLine => request.reading.one_line = true,
            Flag::Raw => request.reading.raw = true,
            Flag::Strict => request.reading.strict = true,
            Flag::Least => request.sizing = Sizing::Least,
            Flag::Witness => self.wanted.witness = true,
            Flag::FitCrossings => self.fits = true,
            Flag::HelpJson => self.wanted.explains_json = true,
        }
    }

    /// Takes the value of an option, or says why it is none.
    pub fn set(&mut self, option: ValuedOption, value: &str) -> Result<(), Misuse>
        ensures { IsAnswer (λ _. told_of self.new)
            (value_taken option.valued value.now (told_of self.old)) result }
    {
        if self.takes(option.valued, value)? {
            return Ok(());
        }
        Err(said(no_value(self.alloc, option, value)))
    }

    /// Takes the value of an option; false where it has another form.
    fn takes(&mut self, valued: Valued, value: &str) -> Result<bool, AllocError>
        ensures { IfOk result (λ taken. valued_told valued value.now (told_of self.old)
            ≡ (if taken then Some (told_of self.new) else None)) }
    {
        let request = &mut self.wanted.request;
        Ok(match valued {
            Valued::Align => return self.align(value),
            Valued::Span => match span_of(value) {
                Some(span) => {
                    request.spans.push(span)?;
                    true
                }
                None => false,
            },
            Valued::Check => {
                self.wanted.check = Some(String::from_str(self.alloc, value)?);
                true
            }
            Valued::Style => put(&mut self.style, style_named(value)),
            Valued::Valign => put(&mut request.vertical, vertical_of(value)),
            Valued::Pad => put(&mut self.pad, padding_of(value).map(Some)),
            Valued::Delimiter => put(&mut self.delimiter, delimiter_of(value).map(Some)),
            Valued::Width => put(&mut self.wanted.width, width_of(value).map(Some)),
            Valued::MaxWidth => put(&mut request.max_width, number(value).map(Some)),
            Valued::Cut => put(&mut request.cut, number(value).map(Some)),
            Valued::Tab => put(&mut request.reading.tab, number(value).map(Some)),
        })
    }

    /// Takes an alignment, of all cells or of a column.
    fn align(&mut self, value: &str) -> Result<bool, AllocError>
        ensures { let alignment = alignment_named value.now in
            IfOk result (λ taken. aligned value.now alignment (told_of self.old)
            ≡ (if taken then Some (told_of self.new) else None)) }
    {
        let request = &mut self.wanted.request;
        if let Some(alignment) = alignment_of(value) {
            request.alignment = alignment;
            return Ok(true);
        }
        match column_alignment(self.alloc, value)? {
            Some(column) => {
                request.columns.push(column)?;
                Ok(true)
            }
            None => Ok(false),
        }
    }

    /// What is wanted of an input, which is of this kind where no option says another.
    pub fn wanted(self, kind: Kind) -> Result<Wanted, Misuse>
        ensures told { let kind = unwrap_or self.kind kind in
            IsJudged (is_refused kind (told_of self)) (IsWanted kind (told_of self)) result }
        ensures separators { IfOk result (λ wanted. IsSeparating wanted.request) }
    {
        let kind = self.kind.unwrap_or(kind);
        self.judge(kind)?;
        let Chosen {
            alloc,
            kind: _,
            delimiter,
            style,
            pad,
            fits,
            of_fields: _,
            mut wanted,
        } = self;
        wanted.kind = kind;
        wanted.request.reading.format = format_of(kind, delimiter);
        draw_in_style(alloc, style, pad, fits, &mut wanted.request)?;
        Ok(wanted)
    }

    /// Refuses options that are not for an input of this kind, or not beside another one.
    fn judge(&self, kind: Kind) -> Result<(), Misuse>
        ensures { let told = told_of self.now in
            IsJudged (is_of_another kind told || is_beside_width told) (λ _. ⊤) result }
    {
        let another = match (kind, self.of_fields, self.delimiter) {
            (Kind::Script, Some(name), _) => {
                Some((name, "for CSV and TSV alone, and the input is a script"))
            }
            (Kind::Json, Some(name), _) => Some((
                name,
                "for CSV and TSV alone, and the input is JSON",
            )),
            (Kind::Json, None, _) if self.wanted.witness => {
                Some(("--witness", "not for JSON, and the input is JSON"))
            }
            (Kind::Tsv, _, Some(_)) => Some(("--delimiter", "for CSV alone, and the input is TSV")),
            _ => self.beside_width(),
        };
        match another {
            None => Ok(()),
            Some((name, text)) => Err(said(format!(in self.alloc; "{name}: {text}"))),
        }
    }

    /// Which option stands beside `--width`, which chooses the values of some.
    fn beside_width(&self) -> Option<(&'static str, &'static str)>
        ensures { is_some result ≡ is_beside_width (told_of self.now) }
    {
        let request = &self.wanted.request;
        self.wanted.width?;
        if request.cut.is_some() {
            return Some(("--width", "not together with --cut"));
        }
        request.max_width?;
        Some(("--width", "not together with --max-width"))
    }

    /// What is said of an option that is the last word, and has no value.
    pub fn lacks_value(&self, option: ValuedOption) -> Misuse
        ensures { IsSaid result }
    {
        let name = option.name;
        let form = option.valued.form();
        said(format!(in self.alloc; "{name}: no value follows; it takes {form}"))
    }
}

/// Puts a value, where there is one; false where there is none.
fn put<T: Copy>(place: &mut T, value: Option<T>) -> bool
    ensures new { place.new ≡ unwrap_or value place.old }
    ensures given { result ≡ is_some value }
{
    match value {
        Some(value) => {
            *place = value;
            true
        }
        None => false,
    }
}

/// A misuse of which this is said, if there was memory for it.
fn said(text: Result<String, AllocError>) -> Misuse
    ensures { IsSaid result }
{
    match text {
        Ok(text) => Misuse::Said(text),
        Err(_) => Misuse::Memory,
    }
}

/// What is said of a word that is no value of the option.
fn no_value(alloc: Global, option: ValuedOption, word: &str) -> Result<String, AllocError> {
    let name = option.name;
    let form = option.valued.form();
    let last = match word.rsplit_once('=') {
        Some((_, last)) => last,
        None => word,
    };
    let like = name_like(alloc, last, option.valued.names())?;
    let written = shown(alloc, word)?;
    match like {
        Some(like) => format!(in alloc; "{name} {written}: not {form}; did you mean {like}?"),
        None => format!(in alloc; "{name} {written}: not {form}"),
    }
}

/// The form of a text.
fn format_of(kind: Kind, delimiter: Option<u8>) -> Format
    ensures { result ≡ format_told kind delimiter }
{
    match kind {
        Kind::Tsv => Format::Tsv,
        _ => Format::Csv(delimiter.unwrap_or(b',')),
    }
}

/// Asks for the lines of a style, for its padding where no other is told, and for crossings that fit the spans if they are to.
fn draw_in_style(
    alloc: Global,
    style: Style,
    pad: Option<Sides<usize>>,
    fits: bool,
    request: &mut Request,
) -> Result<(), Misuse>
    ensures drawn { IsJudged (fits && not (is_some (fitting_frame style).intersection))
        (λ _. IsDrawnIn style pad fits request.old request.new) result }
    ensures separators { OnOk result (IsSeparating request.new) }
{
    request.frame = style.frame();
    request.head = style.head(request.has_head);
    let side = style.padding();
    request.padding = padding(pad.unwrap_or(Sides::new(side, side, 0, 0)));
    request.junctions = if fits {
        Some(junctions_of(alloc, style)?)
    } else {
        None
    };
    Ok(())
}

/// The characters that fit crossings to spans. Not each style has all of them.
fn junctions_of(alloc: Global, style: Style) -> Result<Junctions, Misuse>
    ensures crossings { let frame = fitting_frame style in
        IsJudged (not (is_some frame.intersection)) (AreOfFrame frame) result }
    ensures separators { IfOk result (λ junctions.
        list_all is_separator (fitting_characters (Some junctions)) ≡ true) }
{
    match style.junctions() {
        Some(junctions) => Ok(junctions),
        None => {
            let name = name_of(style);
            let text = "has no crossings to fit";
            Err(said(format!(in alloc; "--fit-crossings: the style {name} {text}")))
        }
    }
}
