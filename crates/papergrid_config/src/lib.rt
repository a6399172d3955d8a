//! The settings of a table: what each cell, line and margin is set to, by a list of calls.
#![tactic(auto)]

mod apply;
mod borders;
mod compact;
pub mod laws;
mod line_queries;
mod margins;
mod overrides;
mod per_cell;
mod queries;
pub mod setting;
pub mod spanned;
mod spans;
mod view;

pub use papergrid_maps::{EntityMap, MapCall, Stopped};
pub use papergrid_values::{Colors, CompactConfig, NoColor, NoColors};
pub use setting::Setting;
pub use spanned::SpannedConfig;
