mod random_order;
mod slow_book;

use crate::Book;
use list_words::Grant;
use std::test::Fail;

const FIRST: Grant = Grant { list: 0, n: 3 };

const SECOND: Grant = Grant { list: 1, n: 0 };

#[test]
fn all_chunks_of_a_new_book_are_free_and_nobody_is_out(rt: HostRuntime) -> Result<(), Fail> {
    let book = Book::new(rt.alloc(), 3, 5)?;
    assert_eq!(rt; book.free(), 5);
    assert_eq!(rt; book.held(), 0);
    assert_eq!(rt; book.seats_out(), 0);
    assert_eq!(rt; book.birth(), 0);
    assert_eq!(rt; book.may_clear(), None);
    Ok(())
}

#[test]
fn chains_get_the_least_free_chunks_and_slots_are_used_in_turn(
    rt: HostRuntime,
) -> Result<(), Fail> {
    let mut book = Book::new(rt.alloc(), 2, 3)?;
    assert!(rt; book.has_list(1));
    book.reserve(1, 1, 2)?;
    assert!(rt; book.may_open(1));
    book.open_list(1);
    assert!(rt; book.may_extend_owned(1));
    assert_eq!(rt; book.extend_owned(1), 0);
    assert!(rt; book.may_extend_claimed(1));
    assert_eq!(rt; book.extend_claimed(1), 1);
    assert!(rt; book.may_extend_owned(1));
    assert_eq!(rt; book.extend_owned(1), 2);
    for slot in 0..300u32 {
        assert!(rt; book.may_use_slot(1));
        let chunk = if slot < 256 { 0 } else { 2 };
        assert_eq!(rt; book.use_slot(1), (chunk, slot % 256));
    }
    assert!(rt; book.has_list(1));
    assert_eq!(rt; book.used(1), 300);
    assert_eq!(rt; book.claimed(1), [1].as_slice());
    assert_eq!(rt; book.owned(1), [0, 2].as_slice());
    assert_eq!(rt; book.free(), 0);
    Ok(())
}

#[test]
fn a_shut_list_is_cleared_once_nobody_is_out_who_was_born_before(
    rt: HostRuntime,
) -> Result<(), Fail> {
    let mut book = Book::new(rt.alloc(), 2, 1)?;
    assert!(rt; book.has_list(0));
    book.reserve(0, 1, 0)?;
    for list in 0..2u32 {
        assert!(rt; book.may_open(list));
        book.open_list(list);
    }
    assert!(rt; book.may_extend_claimed(0));
    book.extend_claimed(0);
    assert!(rt; book.may_grant(FIRST, SECOND));
    book.grant(&[FIRST, SECOND]);
    assert!(rt; book.has_list(0));
    assert_eq!(rt; book.granted(0), 3);
    assert!(rt; book.takes_items(0));
    book.shut(0);
    assert_eq!(rt; book.birth(), 1);
    assert!(rt; book.may_count_in());
    book.count_in();
    assert_eq!(rt; book.seats_out(), 2);
    assert_eq!(rt; book.held(), 1);
    assert_eq!(rt; book.may_clear(), None);
    book.count_off(0);
    let Some(list) = book.may_clear() else {
        return Err("a list that nobody reaches".into());
    };
    assert_eq!(rt; list, 0);
    book.clear_next();
    assert_eq!(rt; book.free(), 1);
    assert_eq!(rt; book.held(), 0);
    assert_eq!(rt; book.seats_out(), 1);
    assert_eq!(rt; book.may_clear(), None);
    Ok(())
}
