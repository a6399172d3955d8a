//! The one walk over records, by a configuration: what each visible cell asks for along a direction, or
//! along both.
//!
//! A `Measure` is a way to measure cells. A walk reads the spans and the paddings of any `ConfigView`.
//! `gather` walks records for one direction and `gather_both` for both at once. Rows are told one by one,
//! and none is kept.
//!
//! Which cells are hidden by spans is told by a `Sweep` as the walk goes, by row and then by column: in
//! time of the logarithm of the columns for each cell and for each anchor, whatever the spans are.
#![tactic(auto)]

pub mod demand_visitors;
pub mod known;
mod max_tree;
pub mod measure;
pub mod position_filter;
pub mod shown;
pub mod sweep;
pub mod visitor;

pub use demand_visitors::{gather, gather_both};
pub use measure::Measure;
pub use sweep::Sweep;
pub use visitor::{Visitor, walk};
