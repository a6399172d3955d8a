//! The names of all settings, and what follows each.

ghost use Rattle.std.specs.Prelude.{◌≡◌, is_some, map};
ghost use Rattle.papergrid_json.specs.Settings.{setting_names};
ghost use Rattle.papergrid_json.specs.Values.{is_named};

/// A setting as a document spells it: its name, and the whole with a word in place of each value.
pub type Form = (&'static str, &'static str);

/// All settings.
pub const SETTINGS: [Form; 41] = [
    ("RemoveBorders", "[\"RemoveBorders\"]"),
    ("RemoveBordersColors", "[\"RemoveBordersColors\"]"),
    (
        "RemoveColorLineHorizontal",
        "[\"RemoveColorLineHorizontal\"]",
    ),
    ("RemoveColorLineVertical", "[\"RemoveColorLineVertical\"]"),
    ("RemoveHorizontalChars", "[\"RemoveHorizontalChars\"]"),
    ("RemoveVerticalChars", "[\"RemoveVerticalChars\"]"),
    ("RemoveColumnSpans", "[\"RemoveColumnSpans\"]"),
    ("RemoveRowSpans", "[\"RemoveRowSpans\"]"),
    ("SetMargin", "[\"SetMargin\", INDENTS]"),
    ("SetMarginColor", "[\"SetMarginColor\", SIDE-COLOURS]"),
    ("SetMarginOffset", "[\"SetMarginOffset\", OFFSETS]"),
    ("SetBorders", "[\"SetBorders\", FRAME]"),
    ("SetBorderDefault", "[\"SetBorderDefault\", CHARACTER]"),
    ("SetBordersColor", "[\"SetBordersColor\", FRAME-COLOURS]"),
    (
        "SetBorderColorDefault",
        "[\"SetBorderColorDefault\", COLOUR]",
    ),
    ("SetBordersMissing", "[\"SetBordersMissing\", CHARACTER]"),
    (
        "InsertHorizontalLine",
        "[\"InsertHorizontalLine\", ROW, LINE]",
    ),
    (
        "RemoveHorizontalLine",
        "[\"RemoveHorizontalLine\", ROW, ROWS]",
    ),
    (
        "InsertVerticalLine",
        "[\"InsertVerticalLine\", COLUMN, LINE]",
    ),
    (
        "RemoveVerticalLine",
        "[\"RemoveVerticalLine\", COLUMN, COLUMNS]",
    ),
    ("SetPadding", "[\"SetPadding\", ENTITY, INDENTS]"),
    (
        "SetPaddingColor",
        "[\"SetPaddingColor\", ENTITY, SIDE-COLOURS]",
    ),
    (
        "SetTrimHorizontal",
        "[\"SetTrimHorizontal\", ENTITY, BOOLEAN]",
    ),
    ("SetTrimVertical", "[\"SetTrimVertical\", ENTITY, BOOLEAN]"),
    (
        "SetLineAlignment",
        "[\"SetLineAlignment\", ENTITY, BOOLEAN]",
    ),
    (
        "SetAlignmentHorizontal",
        "[\"SetAlignmentHorizontal\", ENTITY, ALIGNMENT]",
    ),
    (
        "SetAlignmentVertical",
        "[\"SetAlignmentVertical\", ENTITY, ALIGNMENT]",
    ),
    (
        "SetJustification",
        "[\"SetJustification\", ENTITY, CHARACTER]",
    ),
    (
        "SetJustificationColor",
        "[\"SetJustificationColor\", ENTITY, COLOUR]",
    ),
    ("SetBorder", "[\"SetBorder\", POSITION, BORDER]"),
    (
        "SetBorderColor",
        "[\"SetBorderColor\", POSITION, BORDER-COLOURS]",
    ),
    ("RemoveBorder", "[\"RemoveBorder\", POSITION, SHAPE]"),
    (
        "RemoveBorderColor",
        "[\"RemoveBorderColor\", POSITION, SHAPE]",
    ),
    ("SetColumnSpan", "[\"SetColumnSpan\", POSITION, COLUMNS]"),
    ("SetRowSpan", "[\"SetRowSpan\", POSITION, ROWS]"),
    (
        "RemoveOverriddenHorizontal",
        "[\"RemoveOverriddenHorizontal\", POSITION]",
    ),
    (
        "RemoveOverriddenVertical",
        "[\"RemoveOverriddenVertical\", POSITION]",
    ),
    (
        "SetHorizontalChar",
        "[\"SetHorizontalChar\", POSITION, OFFSET, CHARACTER]",
    ),
    (
        "SetVerticalChar",
        "[\"SetVerticalChar\", POSITION, OFFSET, CHARACTER]",
    ),
    (
        "SetHorizontalCharColor",
        "[\"SetHorizontalCharColor\", POSITION, OFFSET, COLOUR]",
    ),
    (
        "SetVerticalCharColor",
        "[\"SetVerticalCharColor\", POSITION, OFFSET, COLOUR]",
    ),
];

/// The setting of this name.
pub fn form_named(name: &str) -> Option<&'static Form>
    ensures { is_some result ≡ is_named name.now setting_names }
{
    form_in(&SETTINGS, name)
}

/// The first of some forms that has this name.
fn form_in<'s>(forms: &'s [Form], name: &str) -> Option<&'s Form>
    ensures { is_some result ≡ is_named name.now (map (λ form. form.0.now) forms.now) }
{
    for form in forms {
        if name == form.0 {
            return Some(form);
        }
    }
    None
}
