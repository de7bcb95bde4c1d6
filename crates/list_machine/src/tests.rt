use crate::{Claimed, claim, clear, file, item_of, link, mark, shut};

const HIGH: u64 = 1 << 63;

#[test]
fn claims_count_on_and_give_no_place_in_a_shut_list(rt: HostRuntime) {
    assert_eq!(rt; claim(0), (1, Claimed::Index(0)));
    assert_eq!(rt; claim(299), (300, Claimed::Index(299)));
    assert_eq!(rt; claim(shut(300)), (HIGH + 301, Claimed::Shut));
}

#[test]
fn items_are_filed_into_empty_slots_alone(rt: HostRuntime) {
    assert_eq!(rt; file(0, 0), Some(1));
    assert_eq!(rt; file(0, u32::MAX), Some(1 << 32));
    assert_eq!(rt; file(8, 9), None);
    assert_eq!(rt; file(mark(0), 9), None);
}

#[test]
fn marks_keep_items(rt: HostRuntime) {
    assert_eq!(rt; mark(8), HIGH + 8);
    assert_eq!(rt; item_of(mark(8)), Some(7));
    assert_eq!(rt; item_of(1 << 32), Some(u32::MAX));
    assert_eq!(rt; item_of(mark(0)), None);
    assert_eq!(rt; item_of((1 << 32) + 1), None);
    assert_eq!(rt; clear(mark(8)), 0);
}

#[test]
fn links_have_the_rank_above_the_chunk(rt: HostRuntime) {
    assert_eq!(rt; link(0, 0, 0), Some(1));
    assert_eq!(rt; link(0, 2, 9), Some(0x2_0000_000a));
    assert_eq!(rt; link(1, 0, 3), None);
}
