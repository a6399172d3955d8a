//! Paths to the values of a document.

use std::fmt;

/// The path to a value in a document, as far as it goes.
#[derive(Clone, Copy)]
pub struct DocumentPath {
    /// A member of the document, or the document itself.
    member: &'static str,
    /// Which item of the member.
    item: Option<usize>,
    /// Which part of that item.
    part: Option<usize>,
    /// A field of what is there.
    field: Option<&'static str>,
    /// Which part of what is there then.
    last: Option<usize>,
}

impl DocumentPath {
    /// A member of the document.
    pub fn of(member: &'static str) -> DocumentPath {
        DocumentPath {
            member,
            item: None,
            part: None,
            field: None,
            last: None,
        }
    }

    /// An item of what is there.
    pub fn at(&self, index: usize) -> DocumentPath {
        let mut path = *self;
        if path.field.is_some() {
            path.last = Some(index);
        } else if path.item.is_none() {
            path.item = Some(index);
        } else if path.part.is_none() {
            path.part = Some(index);
        } else {
            path.last = Some(index);
        }
        path
    }

    /// A field of what is there.
    pub fn field(&self, name: &'static str) -> DocumentPath {
        DocumentPath {
            field: Some(name),
            ..*self
        }
    }
}

impl fmt::Display for DocumentPath {
    fn fmt<W: fmt::Write>(&self, f: &mut fmt::Formatter<W>) -> fmt::Result {
        f.write_str(self.member)?;
        write_index(f, self.item)?;
        write_index(f, self.part)?;
        match self.field {
            Some(name) => write!(f, ".{name}")?,
            None => {}
        }
        write_index(f, self.last)
    }
}

/// Writes the number of an item in brackets, if there is one.
fn write_index<W: fmt::Write>(f: &mut fmt::Formatter<W>, index: Option<usize>) -> fmt::Result {
    match index {
        Some(number) => write!(f, "[{number}]"),
        None => Ok(()),
    }
}
