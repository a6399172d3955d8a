//! Scripts that have sizes, and why one has none. Why others have none is said by cases of `papergrid_sizes`.

use papergrid::config::Position;
use papergrid::{Reason, Sizing, explain};
use std::alloc::Global;

/// Each script of `examples`, and why it has no sizes.
pub const EXAMPLES: [(&[u8], Option<Reason>); 3] = [
    (
        b"columns 4\nborder +\ncolspan 1,1 3\nrowspan 0,0 2\npad 0,0 4 4 1 1\nrow\ncell Papergrid\ncell is a library\ncell for print tables\ncell !\nrow\ncell\ncell Just like this\ncell\ncell\n",
        None,
    ),
    (
        b"columns 1\nrow\ncell a\ncell b\n",
        Some(Reason::OutOfTable(Position { row: 0, col: 1 }, (1, 1), (1, 1))),
    ),
    (
        b"columns 2\npad * 1 1 0 0\npad 0,1 0 3 1 0\n\nrow\ncell ab\ncell c\\nde\nrow\ncell\ncell xyz\n",
        None,
    ),
];

fn are_explained(alloc: Global) -> bool {
    let mut are = true;
    for (script, reason) in &EXAMPLES {
        are = are && explain(alloc, Sizing::ByShares, *script) == Ok(*reason);
    }
    are
}

#[test]
fn explained(rt: HostRuntime) {
    assert!(rt; are_explained(rt.alloc()));
}
