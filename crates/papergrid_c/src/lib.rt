//! Tables for C. A handle has a table or none, and each call is told the handle, or asks it. `include/papergrid.h` says what each does.
#![tactic(auto)]

mod found;
mod handle;
mod made;
mod numbers;
mod pictures;
mod setters;
mod sizes;
mod structs;
mod told;
