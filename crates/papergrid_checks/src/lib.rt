//! Callers of the library, of CSV texts and of JSON documents, each proved: the examples of the documents stand here. What
//! each says is shown by what the libraries say in public. And, in `tests`, what worked cases as data can't tell.
//! All of it is read with the tests alone, so that each caller is proved once.
#![tactic(auto)]

#[cfg(test)]
pub mod cells;
#[cfg(test)]
pub mod certificates;
#[cfg(test)]
pub mod colored;
#[cfg(test)]
pub mod compact;
#[cfg(test)]
pub mod csv_rows;
#[cfg(test)]
pub mod csv_tables;
#[cfg(test)]
pub mod dimensions;
#[cfg(test)]
pub mod documents;
#[cfg(test)]
pub mod drawn;
#[cfg(test)]
pub mod entities;
#[cfg(test)]
pub mod entries;
#[cfg(test)]
pub mod errors;
#[cfg(test)]
pub mod json_tables;
#[cfg(test)]
pub mod own;
#[cfg(test)]
pub mod picture;
#[cfg(test)]
pub mod places;
#[cfg(test)]
pub mod refusals;
#[cfg(test)]
pub mod scripts;
#[cfg(test)]
pub mod settings;
#[cfg(test)]
pub mod sizes;
#[cfg(test)]
mod tests;
#[cfg(test)]
pub mod texts;
