use crate::default_chunks;

#[test]
fn a_usual_survey_tile_has_254852_chunks(rt: HostRuntime) {
    assert_eq!(rt; default_chunks(17, 20_000, 5_000_000), 254_852);
}

#[test]
fn no_store_has_more_than_1000000_chunks(rt: HostRuntime) {
    assert_eq!(rt; default_chunks(31, 20_000, 10_000_000), 1_000_000);
}

#[test]
fn the_smallest_store_has_a_chunk_for_its_points_and_two_a_node(rt: HostRuntime) {
    assert_eq!(rt; default_chunks(7, 1, 1), 3);
    assert_eq!(rt; default_chunks(7, 1, 256), 3);
    assert_eq!(rt; default_chunks(7, 1, 257), 4);
}
