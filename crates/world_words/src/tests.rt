use crate::Rows;
use list_machine::Claimed;
use std::test::Fail;

#[test]
fn claims_count_on_until_the_list_is_shut(rt: HostRuntime) -> Result<(), Fail> {
    let mut rows = Rows::new(rt.alloc(), 3)?;
    assert_eq!(rt; rows.lists(), 3);
    assert_eq!(rt; rows.claims(1), 0);
    let first = rows.claim(1);
    assert_eq!(rt; first, Claimed::Index(0));
    assert_eq!(rt; rows.claims(1), 1);
    let second = rows.claim(1);
    assert_eq!(rt; second, Claimed::Index(1));
    let found = rows.shut(1);
    assert_eq!(rt; found, 2);
    assert_eq!(rt; rows.claims(1), 2);
    let late = rows.claim(1);
    assert_eq!(rt; late, Claimed::Shut);
    Ok(())
}

#[test]
fn links_lead_from_a_list_to_its_chunks(rt: HostRuntime) -> Result<(), Fail> {
    let mut rows = Rows::new(rt.alloc(), 2)?;
    rows.make_chunk()?;
    assert_eq!(rt; rows.made(), 1);
    rows.link_to(1, None, 0, 0);
    assert_eq!(rt; rows.link(1, None), 1);
    assert_eq!(rt; rows.link(0, None), 0);
    rows.link_to(1, Some(0), 1, 7);
    assert_eq!(rt; rows.link(1, Some(0)), 0x1_0000_0008);
    rows.clear_link(1, Some(0));
    rows.clear_link(1, None);
    assert_eq!(rt; rows.link(1, Some(0)), 0);
    assert_eq!(rt; rows.link(1, None), 0);
    Ok(())
}

#[test]
fn items_are_filed_into_blank_slots_and_keep_their_marks(rt: HostRuntime) -> Result<(), Fail> {
    let mut rows = Rows::new(rt.alloc(), 1)?;
    rows.make_chunk()?;
    rows.make_chunk()?;
    assert!(rt; rows.file(1, 255, 40));
    assert!(rt; !rows.file(1, 255, 41));
    assert_eq!(rt; rows.item(1, 255), Some(40));
    assert_eq!(rt; rows.item(0, 255), None);
    assert_eq!(rt; rows.mark(0, 9), None);
    assert!(rt; !rows.file(0, 9, 42));
    rows.place(0, 9, u32::MAX);
    assert_eq!(rt; rows.mark(0, 9), Some(u32::MAX));
    assert_eq!(rt; rows.item(0, 9), Some(u32::MAX));
    rows.clear_slot(0, 9);
    assert_eq!(rt; rows.item(0, 9), None);
    assert!(rt; rows.file(0, 9, 43));
    Ok(())
}
