//! The sizes of tracks, the columns or the rows of a table, from what its visible cells ask for, where some cells
//! span several: by shares, or with the least total; and the cells that certify them.
#![tactic(auto)]

pub mod axis;
mod boundaries;
pub mod candidate;
mod cells;
mod certificate;
mod certificate_cells;
pub mod checked;
mod critical_path;
pub mod demand;
pub mod demands;
mod disjoint;
pub mod error;
mod growing_cells;
mod last_cells;
pub mod laws;
pub mod least;
mod least_sizes;
mod limits;
mod lines;
mod lower;
pub mod settled;
mod size_list;
mod sizing;
pub mod solution;
pub mod worked;

pub use axis::Axis;
pub use candidate::Candidate;
pub use checked::Checked;
pub use demand::Demand;
pub use demands::Demands;
pub use error::{LayoutError, LayoutResult};
pub use least::ByLeastTotal;
pub use size_list::{SizeList, replace_sizes};
pub use sizing::Sizing;
pub use solution::{ByShares, Solved, Solver};
