//! The laws at a type each; orders, hashes and clones of each type of values, operators, conversions, and colours of a
//! caller's own; measured texts as values; drawn tables that no document describes; and callers with contracts: of records of
//! each type that they come in, of records by position, and of sizes. Calls that are refused memory stand in `refused`.

mod clones;
mod colors;
mod consumer;
mod drawn;
mod exact_sizes;
mod laws_of_records;
mod laws_of_values;
mod orders;
mod peeks;
mod record_callers;
mod records;
mod refused;
mod size_callers;
mod texts;
mod values;
