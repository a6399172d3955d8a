//! Clones of records that own their rows.

use super::{clones, says};
use crate::tests::exact_sizes::rows_of;
use papergrid_text::{IterRecords, RowIter, VecRecords};
use std::alloc::{AllocError, Global};
use std::test::Fail;

fn rows(alloc: Global) -> Result<Vec<Vec<String>>, AllocError> {
    rows_of(alloc, &[&["a", "b"], &["c"]])
}

#[test]
fn records(rt: HostRuntime) -> Result<(), Fail> {
    let alloc = rt.alloc();
    clones(&rt, (1, 3), Ok(VecRecords::new(rows(alloc)?)))?;
    clones(&rt, (2, 3), Ok(IterRecords::new(rows(alloc)?, 2, Some(2))))?;
    let walked = RowIter::new(rows(alloc)?.into_iter());
    says((3, 3), walked.clone())
}
