//! Scripts that describe a table: their lines, and their settings and rows. The sizes of that table, and what is
//! written of them. And what the programs share.
#![tactic(auto)]

pub mod answer;
mod cut;
mod draft;
mod estimate;
pub mod explained;
pub mod laws;
mod number;
pub mod output;
pub mod program;
pub mod reading;
pub mod script;
mod script_line;
pub mod script_setting;
mod setting_line;
mod unescape;
pub mod worked;
