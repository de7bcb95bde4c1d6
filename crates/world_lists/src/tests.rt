use crate::{Lists, Unfiled};
use list_machine::{Claimed, Grant};
use std::test::Fail;

#[test]
fn a_filing_claims_walks_and_files_beside_a_shut(rt: HostRuntime) -> Result<(), Fail> {
    let mut lists = Lists::new(rt.alloc(), 2)?;
    lists.split(&[])?;
    assert!(rt; lists.may_link(1, 0));
    lists.link(1, 0)?;
    assert!(rt; lists.may_claim(0, 1));
    assert_eq!(rt; lists.claim(0, 1), Claimed::Index(0));
    assert!(rt; lists.has_seat(0));
    assert_eq!(rt; lists.unfiled(0), Some(Unfiled { list: 1, index: 0 }));
    assert!(rt; lists.has_list(1));
    assert_eq!(rt; lists.link_word(1, None), 1);
    assert!(rt; lists.may_file(0, 0));
    assert!(rt; lists.file(0, 0, 0, 77));
    assert!(rt; lists.has_seat(0));
    assert_eq!(rt; lists.unfiled(0), None);
    assert!(rt; lists.has_list(1));
    lists.shut(1)?;
    assert!(rt; lists.may_claim(0, 1));
    assert_eq!(rt; lists.claim(0, 1), Claimed::Shut);
    assert!(rt; lists.may_mark(1));
    assert_eq!(rt; lists.mark(1), Some(77));
    assert!(rt; !lists.may_mark(0));
    assert!(rt; lists.has_chunk(0));
    assert_eq!(rt; lists.item(0, 0), Some(77));
    assert!(rt; lists.has_seat(0));
    lists.join(0);
    Ok(())
}

#[test]
fn a_mark_that_comes_first_keeps_the_item_out(rt: HostRuntime) -> Result<(), Fail> {
    let mut lists = Lists::new(rt.alloc(), 1)?;
    lists.split(&[])?;
    assert!(rt; lists.may_link(0, 0));
    lists.link(0, 0)?;
    assert!(rt; lists.may_claim(0, 0));
    lists.claim(0, 0);
    assert!(rt; lists.has_list(0));
    lists.shut(0)?;
    assert!(rt; lists.may_mark(0));
    assert_eq!(rt; lists.mark(0), None);
    assert!(rt; lists.may_file(0, 0));
    assert!(rt; !lists.file(0, 0, 0, 5));
    assert!(rt; lists.has_chunk(0));
    assert_eq!(rt; lists.item(0, 0), None);
    Ok(())
}

#[test]
fn words_are_made_for_chunks_in_use_alone(rt: HostRuntime) -> Result<(), Fail> {
    let mut lists = Lists::new(rt.alloc(), 3)?;
    assert_eq!(rt; lists.made(), 0);
    assert!(rt; lists.may_adopt(2, 0));
    lists.adopt(2, 0)?;
    assert!(rt; lists.may_link(1, 1));
    lists.link(1, 1)?;
    assert!(rt; lists.may_link(1, 2));
    lists.link(1, 2)?;
    assert_eq!(rt; lists.made(), 3);
    assert!(rt; lists.has_chunk(1));
    assert_eq!(rt; lists.link_word(1, Some(1)), 0x1_0000_0003);
    for item in 0..256u32 {
        assert!(rt; lists.may_place(2));
        lists.place(2, item);
    }
    assert!(rt; !lists.may_place(2));
    assert!(rt; lists.has_chunk(0));
    assert_eq!(rt; lists.item(0, 255), Some(255));
    Ok(())
}

#[test]
fn grants_are_noted_with_a_seat(rt: HostRuntime) -> Result<(), Fail> {
    let mut lists = Lists::new(rt.alloc(), 2)?;
    lists.split(&[Grant { list: 1, n: 300 }])?;
    assert!(rt; lists.has_list(1));
    assert_eq!(rt; lists.row(1).granted(), 300);
    Ok(())
}
