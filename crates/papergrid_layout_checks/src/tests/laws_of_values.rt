//! Each law at a type, but for that of equal clones.

use papergrid_maps::{EntityMap, laws as maps};
use papergrid_tables::laws as tables;
use papergrid_values::{ANSIBuf, ANSIStr, NoColors, laws as values};

#[test]
fn laws_of_values() {
    values::global_positions();
    values::ordered_by_fields();
    values::ordered_by_parts::<char>();
    values::equal_by_parts::<char>();
    values::equal_clones_of_values();
    values::equal_directions();
    values::hashed_by_parts::<char>();
    values::hashed_by_fields();
    values::plain_defaults::<char>();
    values::colors_by_reference::<ANSIBuf>();
    values::empty_colors::<NoColors>();
    values::empty_colors::<EntityMap<Option<ANSIStr<'static>>>>();
    values::compact_by_fields();
    values::one_value_each();
}

#[test]
fn laws_of_tables() {
    tables::history_makes_borders::<char>();
    tables::equal_overrides::<char>();
    tables::equal_borders::<char>();
    tables::equal_tables_by_history::<char>();
}

#[test]
fn laws_of_maps() {
    maps::history_decides::<char>();
    maps::history_makes_spans();
    maps::visible_by_rectangles();
    maps::equal_maps_by_history::<char>();
    maps::visible_where_not_hidden();
    maps::one_effective_span();
    maps::one_effective_value::<char>();
    maps::equal_maps::<char>();
    maps::equal_spans();
    maps::equal_clones::<char>();
}
