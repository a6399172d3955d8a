//! What a table is drawn from, when it is tiled.

use crate::page::Frame;
use std::alloc::Global;

/// A tiled table with the cells that are drawn in it.
#[derive(Drop)]
pub struct FilledFrame<'a, S> {
    pub alloc: Global,
    pub frame: &'a Frame<'a>,
    pub cells: &'a S,
}
