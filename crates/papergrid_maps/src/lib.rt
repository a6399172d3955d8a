//! What the settings of a table are kept in: values by entity, and spans; and what a layout reads of
//! settings.
#![tactic(auto)]

pub mod anchors;
mod colors;
mod covering;
pub mod entity_map;
pub mod laws;
mod span_index;
pub mod span_table;
pub mod view;

pub use anchors::Anchor;
pub use entity_map::{EntityMap, MapCall, Stopped};
pub use papergrid_values::{Colors, CompactConfig, NoColor, NoColors};
pub use span_table::SpanTable;
pub use view::{ConfigView, Paddings};
