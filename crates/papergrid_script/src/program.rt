//! What the programs share: their arguments, and the numbers in these, the names that messages speak of, the words for
//! what keeps a script from its answer, and how they end.

mod arguments;
mod endings;
mod forms;
mod message;
mod names;
mod output;

pub use crate::cut::{split_at_byte, split_at_last_byte};
pub use crate::number::number;
pub use crate::setting_line::position;
pub use arguments::{Request, Unexpected, asked_by};
pub use endings::{fault, status, told, unexpected, unopened, unread_words};
pub use forms::add_forms;
pub use message::message_of;
pub use names::{STANDARD_INPUT, name_like, not_an_option, quoted, shown};
pub use output::Output;
