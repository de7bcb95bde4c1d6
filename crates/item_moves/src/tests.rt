//! Worked moves over lists over vectors. What is expected was worked out by hand.
ghost use Rattle.std.specs.Prelude.{◌≡◌, [], ◌∷◌, length, IfOk};
ghost use Rattle.list_words.specs.Plain.{fresh_plain, store_of};
ghost use Rattle.list_words.specs.Store.{no_row, opened, roomier};

mod one_item;

use crate::{admit_slots, open_leaf};
use list_words::{Grant, LeafLists, PlainFiler, PlainLists};
use one_item::OneItem;
use std::alloc::{AllocError, Global};
use std::test::Fail;

/// 300 slots in the first list, for which it lacks two chunks, and 5 in the second, for which it lacks one.
const FIRST: Grant = Grant { list: 0, n: 300 };

const SECOND: Grant = Grant { list: 1, n: 5 };

/// Two open lists without chunks, with room for what the two grants want, and four chunks.
fn two_open(alloc: Global) -> Result<PlainLists, AllocError>
    ensures { IfOk result (λ lists. store_of lists ≡ record (store_of (fresh_plain 2 4)) {
      rows = opened (roomier no_row 2 0) ∷ opened (roomier no_row 1 0) ∷ [];
      grants_room = 2;
      items_room = 305;
    }) }
{
    let mut lists = PlainLists::new(alloc, 2, 4)?;
    lists.reserve(0, 2, 0)?;
    lists.reserve(1, 1, 0)?;
    lists.open_list(0);
    lists.open_list(1);
    lists.reserve_filer(2, 305)?;
    Ok(lists)
}

/// Admits the filer of the two grants.
fn admit_two(lists: &mut PlainLists) -> PlainFiler
    requires { store_of lists.old ≡ record (store_of (fresh_plain 2 4)) {
      rows = opened (roomier no_row 2 0) ∷ opened (roomier no_row 1 0) ∷ [];
      grants_room = 2;
      items_room = 305;
    } }
    ensures { length (store_of lists.new).rows ≡ 2 }
{
    admit_slots(lists, &[0, 0], &[FIRST, SECOND])
}

#[test]
fn grants_take_the_least_chunks_in_turn(rt: HostRuntime) -> Result<(), Fail> {
    let mut lists = two_open(rt.alloc())?;
    let filer = admit_two(&mut lists);
    assert_eq!(rt; filer.birth(), 0);
    assert_eq!(rt; lists.claimed(0), [0, 1].as_slice());
    assert_eq!(rt; lists.claimed(1), [2].as_slice());
    assert_eq!(rt; lists.free(), 1);
    assert_eq!(rt; lists.seats_out(), 1);
    Ok(())
}

#[test]
fn a_new_leaf_owns_the_least_chunks(rt: HostRuntime) -> Result<(), Fail> {
    let mut lists = PlainLists::new(rt.alloc(), 2, 3)?;
    lists.reserve(1, 0, 2)?;
    open_leaf(&mut lists, &OneItem, 1, 257);
    assert_eq!(rt; lists.owned(1), [0, 1].as_slice());
    assert_eq!(rt; lists.claimed(1).len(), 0);
    assert_eq!(rt; lists.free(), 1);
    Ok(())
}
