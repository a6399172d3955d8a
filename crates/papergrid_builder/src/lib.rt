//! Tables that are told call by call: their settings and the texts of their cells, as plain values. Such a table owns all that it
//! keeps. It is drawn, and where its cells stand is found. Each call is proved: what it changes, what stays, and when each error comes.
#![tactic(auto)]

mod builder;
mod cells;
mod drawn;
mod error;
mod found;
pub mod laws;
mod rows;

pub use builder::Builder;
pub use error::BuilderError;
