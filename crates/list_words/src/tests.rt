ghost use Rattle.std.specs.Prelude.{◌≡◌, ℕ, ◌+◌, ◌*◌, ◌<◌, ◌≤◌, List, ◌++◌, length, Contains, vec_len};
ghost use Rattle.std.specs.Vec.{vec_capacity};
ghost use Rattle.list_words.specs.Store.{IsOpen, MayAdmit, chunks_of, row};

mod conditions;
mod held;
mod random_order;
mod slow_lists;
mod walks;

use crate::{Grant, LeafLists, PlainLists};
use std::test::Fail;

/// Admits a filer that files nothing, places an item, sweeps the list and takes the filer back: what was borne out when it
/// was made still is, so that nobody asks.
fn sweep_while_a_filer_is_out<L: LeafLists>(
    lists: &mut L,
    list: u32,
    item: u32,
    grants: &[Grant],
    out: &mut Vec<u32>,
)
    requires grants { MayAdmit (L.store lists.old) grants.now }
    requires takes { IsOpen (L.store lists.old) list }
    requires slots { length (row (L.store lists.old) list).placed < 256 * length (row (L.store lists.old) list).owned }
    requires space { vec_len out.old + 256 * length (chunks_of (row (L.store lists.old) list)) ≤ vec_capacity out.old }
    ensures { (found : List ℕ) × (out.new.items ≡ out.old.items ++ found) × Contains found item }
{
    let filer = lists.admit(grants);
    lists.place(list, item);
    lists.shut_and_sweep(list, out);
    lists.take_back(filer);
}

#[test]
fn all_chunks_of_new_lists_are_free_and_nobody_is_out(rt: HostRuntime) -> Result<(), Fail> {
    let lists = PlainLists::new(rt.alloc(), 3, 5)?;
    assert_eq!(rt; lists.free(), 5);
    assert_eq!(rt; lists.held(), 0);
    assert_eq!(rt; lists.seats_out(), 0);
    Ok(())
}

#[test]
fn readers_are_counted_until_they_are_given_back(rt: HostRuntime) -> Result<(), Fail> {
    let mut lists = PlainLists::new(rt.alloc(), 1, 1)?;
    let reader = lists.note();
    assert_eq!(rt; lists.seats_out(), 1);
    lists.unpin(reader);
    assert_eq!(rt; lists.seats_out(), 0);
    Ok(())
}
