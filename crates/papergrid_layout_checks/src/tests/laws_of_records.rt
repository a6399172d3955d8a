//! Each law at a type.

use papergrid_config::laws as config;
use papergrid_layout::laws as layout;
use papergrid_text::laws as texts;
use papergrid_tracks::laws as tracks;

#[test]
fn laws_of_texts() {
    texts::lines_join_to_text();
    texts::dimension_without_carriage_returns();
    texts::slice_tells_cells::<u8>();
    texts::vector_tells_cells::<u8>();
    texts::equal_clones::<usize>();
    texts::equal_clones_of_lines();
    texts::lines_by_fields();
    texts::equal_by_fields::<usize>();
    texts::ordered_by_fields::<usize>();
    texts::hashed_by_fields::<usize>();
}

#[test]
fn laws_of_sizes() {
    tracks::worked_rows();
    tracks::certified_are_least();
    tracks::sizes_by_minimums();
    tracks::equal_by_fields();
    tracks::equal_clones();
    layout::equal_clones::<u8, char>();
    layout::equal_where_same::<u8, char>();
    layout::places_have_room::<char>();
    layout::total_covers_cells::<char>();
}

#[test]
fn laws_of_configurations() {
    config::equal_configurations();
    config::equal_clones();
}
