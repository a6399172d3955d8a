//! The forms that a line of a script may have.

use crate::program::names::name_like;
use std::alloc::{AllocError, Global};

/// A form of lines, and what a line of it does.
#[derive(Clone, Copy)]
pub struct Form {
    /// The word that its lines begin with.
    pub keyword: &'static str,
    pub spelled: &'static str,
    pub does: &'static str,
}

/// All forms but the empty line.
const FORMS: [Form; 11] = [
    Form {
        keyword: "columns",
        spelled: "columns N",
        does: "tells the number of columns",
    },
    Form {
        keyword: "pad",
        spelled: "pad ENTITY LEFT RIGHT TOP BOTTOM",
        does: "pads cells, where ENTITY is * (each cell), cN (a column), rN (a row) or R,C (one cell)",
    },
    Form {
        keyword: "border",
        spelled: "border X",
        does: "draws lines of the character X round the table and between its cells",
    },
    Form {
        keyword: "colspan",
        spelled: "colspan R,C N",
        does: "spans columns, N from the cell at row R, column C",
    },
    Form {
        keyword: "rowspan",
        spelled: "rowspan R,C N",
        does: "spans rows, N from the cell at row R, column C",
    },
    Form {
        keyword: "vline",
        spelled: "vline N X",
        does: "draws a line of the character X before column N",
    },
    Form {
        keyword: "hline",
        spelled: "hline N X",
        does: "draws a line of the character X before row N",
    },
    Form {
        keyword: "novline",
        spelled: "novline N",
        does: "drops the line that vline N X draws",
    },
    Form {
        keyword: "nohline",
        spelled: "nohline N",
        does: "drops the line that hline N X draws",
    },
    Form {
        keyword: "row",
        spelled: "row",
        does: "begins a row",
    },
    Form {
        keyword: "cell",
        spelled: "cell TEXT",
        does: "adds a cell, where \\n, \\t and \\\\ are a line feed, a tab and a backslash",
    },
];

/// The form of the keyword.
pub fn form_of(keyword: &str) -> Option<Form> {
    FORMS.iter().copied().find(|form| form.keyword == keyword)
}

/// The form whose keyword is most like the word, if two letters at most differ and not all of them.
pub fn form_like(alloc: Global, word: &str) -> Result<Option<Form>, AllocError> {
    let mut keywords = Vec::with_capacity(alloc, FORMS.len())?;
    for form in &FORMS {
        keywords.push(form.keyword)?;
    }
    match name_like(alloc, word, &keywords)? {
        Some(keyword) => Ok(form_of(keyword)),
        None => Ok(None),
    }
}

/// Adds the lines that a script may have to a text, each with what it does.
pub fn add_forms(text: &mut String) -> Result<(), AllocError> {
    for form in &FORMS {
        writeln!(text, "  {:<34}{}", form.spelled, form.does)?;
    }
    Ok(())
}
