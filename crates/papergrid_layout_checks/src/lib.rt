//! Tests of what worked cases as data can't tell of values, colours, maps, texts, records, sizes and drawn tables.
#![tactic(auto)]

#[cfg(test)]
mod tests;
