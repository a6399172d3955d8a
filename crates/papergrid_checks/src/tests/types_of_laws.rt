//! The laws that stand in the facade, each called once.

use papergrid::laws as facade;
use papergrid::records::IterRecords;

#[test]
fn laws_of_layouts() {
    facade::reasons_by_ends();
    facade::equal_clones();
    facade::equal_where_same();
    facade::one_picture_for_grids::<&'static str, IterRecords<&'static Vec<Vec<&'static str>>>>();
}
