use crate::Book;
use list_machine::Grant;
use std::test::Fail;

#[test]
fn a_new_book_has_open_lists_without_chunks(rt: HostRuntime) -> Result<(), Fail> {
    let book = Book::new(rt.alloc(), 3)?;
    assert!(rt; book.has_list(2));
    assert_eq!(rt; book.row(2).chunks(), 0);
    assert!(rt; !book.row(2).is_shut());
    assert!(rt; !book.row(2).is_clearing());
    assert_eq!(rt; book.birth(), 0);
    assert_eq!(rt; book.clearing(), None);
    assert!(rt; !book.may_begin());
    Ok(())
}

#[test]
fn slots_of_the_owned_chain_are_used_in_turn(rt: HostRuntime) -> Result<(), Fail> {
    let mut book = Book::new(rt.alloc(), 2)?;
    assert!(rt; book.may_adopt(1));
    book.adopt(1, 4)?;
    assert!(rt; book.may_adopt(1));
    book.adopt(1, 2)?;
    for slot in 0..300u32 {
        assert!(rt; book.may_use_slot(1));
        let chunk = if slot < 256 { 4 } else { 2 };
        assert_eq!(rt; book.use_slot(1), (chunk, slot % 256));
    }
    assert!(rt; book.has_list(1));
    assert_eq!(rt; book.row(1).used(), 300);
    assert_eq!(rt; book.row(1).owned(), [4, 2].as_slice());
    Ok(())
}

#[test]
fn grants_are_noted_in_their_lists(rt: HostRuntime) -> Result<(), Fail> {
    let mut book = Book::new(rt.alloc(), 2)?;
    book.admit(&[Grant { list: 1, n: 3 }, Grant { list: 1, n: 4 }]);
    assert!(rt; book.has_list(1));
    assert_eq!(rt; book.row(1).granted(), 7);
    assert_eq!(rt; book.row(0).granted(), 0);
    Ok(())
}

#[test]
fn a_shut_list_is_swept_and_then_cleared_word_by_word(rt: HostRuntime) -> Result<(), Fail> {
    let mut book = Book::new(rt.alloc(), 2)?;
    assert!(rt; book.may_link(0));
    book.link(0, 7)?;
    assert!(rt; book.may_adopt(0));
    book.adopt(0, 3)?;
    assert!(rt; book.may_use_slot(0));
    book.use_slot(0);
    assert!(rt; book.has_list(1) && book.has_list(0));
    assert_eq!(rt; book.row(0).last_claimed(), Some(7));
    assert_eq!(rt; book.row(1).last_claimed(), None);
    book.shut(0, 2)?;
    assert_eq!(rt; book.birth(), 1);
    for at in [(7u32, 0u32), (7, 1), (3, 0)] {
        assert!(rt; book.may_mark(0));
        assert_eq!(rt; book.mark_next(0), at);
    }
    assert!(rt; book.may_begin());
    assert_eq!(rt; book.begin_clear(), 0);
    assert_eq!(rt; book.clearing(), Some(0));
    for word in 0..514u32 {
        assert!(rt; book.may_clear(0));
        let chunk = if word < 257 { 7 } else { 3 };
        assert_eq!(rt; book.clear_next(0), (chunk, word % 257));
    }
    assert!(rt; book.has_list(0));
    book.release(0);
    assert_eq!(rt; book.clearing(), None);
    assert!(rt; book.has_list(0));
    assert_eq!(rt; book.row(0).claimed(), [].as_slice());
    assert!(rt; book.row(0).is_shut());
    Ok(())
}

#[test]
fn nothing_is_cleared_while_somebody_is_out_who_was_born_before(
    rt: HostRuntime,
) -> Result<(), Fail> {
    let mut book = Book::new(rt.alloc(), 1)?;
    book.admit(&[]);
    assert!(rt; book.has_list(0));
    book.shut(0, 0)?;
    assert!(rt; !book.may_begin());
    book.count_off(1);
    assert!(rt; !book.may_begin());
    book.count_off(0);
    assert!(rt; book.may_begin());
    Ok(())
}
