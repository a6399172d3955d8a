//! Cells and rows of types of one's own.

use crate::cells::{Person, of_people};
use crate::entries::{Entry, of_entries};
use crate::tests::are_sizes;
use papergrid::config::spanned::SpannedConfig;
use std::alloc::{AllocError, Global};

/// An entry with a name of three columns, and a note of two lines.
fn entries(alloc: Global) -> Result<Vec<Entry>, AllocError> {
    Ok(vec![in alloc;
        Entry {
            name: String::from_str(alloc, "tea")?,
            note: String::from_str(alloc, "a\nleaf")?,
        },
    ]?)
}

fn has_sizes_of_entries(alloc: Global) -> bool {
    let Ok(entries) = entries(alloc) else {
        return false;
    };
    let config = SpannedConfig::new(alloc);
    let found = of_entries(alloc, &entries, &config);
    drop(config);
    are_sizes(found, &[3, 4], &[2])
}

/// A row of one person.
fn people(alloc: Global) -> Result<Vec<Vec<Person>>, AllocError> {
    let name = String::from_str(alloc, "Ann")?;
    Ok(vec![in alloc; vec![in alloc; Person { name, age: 30 }]?]?)
}

fn has_widths_of_people(alloc: Global) -> bool {
    let Ok(rows) = people(alloc) else {
        return false;
    };
    let config = SpannedConfig::new(alloc);
    let found = of_people(alloc, &rows, 1, &config);
    drop(config);
    found.is_ok_and(|widths| widths.as_slice() == [3].as_slice())
}

#[test]
fn own_types(rt: HostRuntime) {
    assert!(rt; has_sizes_of_entries(rt.alloc()));
    assert!(rt; has_widths_of_people(rt.alloc()));
}
