//! The values that the settings of a table are made of: positions and entities, sides, indents and
//! offsets, the borders of cells, the frame and the lines of a table, colours as two texts, and what has
//! one for each cell. Then the settings of a table whose cells all have the same ones. And
//! positions and numbers as the keys of maps: single steps on hashed maps, told by what each key has.
#![tactic(auto)]

pub mod alignment;
pub mod ansi_buf;
pub mod ansi_fmt;
pub mod ansi_str;
pub mod border;
pub mod borders;
pub mod colors;
pub mod compact;
pub mod direction;
pub mod entity;
pub mod entity_iterator;
pub mod formatting;
pub mod hashed;
pub mod horizontal_line;
pub mod indent;
pub mod laws;
pub mod offset;
mod parts;
pub mod per_direction;
pub mod position;
pub mod sides;
pub mod vertical_line;

pub use alignment::{AlignmentHorizontal, AlignmentVertical};
pub use ansi_buf::ANSIBuf;
pub use ansi_fmt::ANSIFmt;
pub use ansi_str::ANSIStr;
pub use border::Border;
pub use borders::Borders;
pub use colors::{Colors, NoColor, NoColors};
pub use compact::CompactConfig;
pub use direction::Direction;
pub use entity::Entity;
pub use entity_iterator::EntityIterator;
pub use formatting::Formatting;
pub use horizontal_line::HorizontalLine;
pub use indent::Indent;
pub use offset::Offset;
pub use per_direction::PerDirection;
pub use position::Position;
pub use sides::Sides;
pub use vertical_line::VerticalLine;
