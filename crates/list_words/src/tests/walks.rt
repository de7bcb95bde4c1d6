ghost use Rattle.std.specs.Prelude.{◌≡◌};

use crate::tests::conditions::Conditions;
use crate::tests::sweep_while_a_filer_is_out;
use crate::{Filed, Grant, LeafLists, PlainLists, Seen};
use std::process::Abort;
use std::test::Fail;

const FIRST: Grant = Grant { list: 0, n: 2 };

const SECOND: Grant = Grant { list: 1, n: 0 };

/// Opens two lists, of which the first gets both chunks, one in each chain, and makes room for a filer.
fn open_two<L: Conditions>(rt: &impl Abort, lists: &mut L) -> Result<(), Fail> {
    assert_eq!(rt; lists.free(), 2);
    assert!(rt; lists.has_list(0));
    lists.reserve(0, 1, 1)?;
    for list in 0..2u32 {
        assert!(rt; lists.may_open(list));
        lists.open_list(list);
    }
    assert!(rt; lists.may_extend_claimed(0));
    lists.extend_claimed(0);
    assert_eq!(rt; lists.free(), 1);
    assert!(rt; lists.may_extend_owned(0));
    lists.extend_owned(0);
    assert_eq!(rt; lists.free(), 0);
    lists.reserve_filer(2, 2)?;
    Ok(())
}

/// Sweeps an item out of the first list, while a filer is out that files nothing.
fn sweep<L: Conditions>(rt: &impl Abort, lists: &mut L, out: &mut Vec<u32>)
    ensures { (L.store lists.new).name ≡ (L.store lists.old).name }
{
    assert!(rt; lists.may_admit(FIRST, SECOND));
    let filer = lists.admit(&[FIRST, SECOND]);
    assert_eq!(rt; lists.seats_out(), 2);
    assert!(rt; lists.may_place(0));
    let placed = lists.place(0, 7);
    assert!(rt; lists.has_list(0));
    assert_eq!(rt; lists.owned(0), [placed.0].as_slice());
    assert_eq!(rt; placed.1, 0);
    assert_eq!(rt; lists.claimed(0).len(), 1);
    assert!(rt; lists.may_sweep(0, out));
    lists.shut_and_sweep(0, out);
    assert!(rt; lists.vouches(&filer));
    lists.take_back(filer);
    assert_eq!(rt; lists.seats_out(), 1);
}

/// Leads a list from its opening to its clearing by each call of the trait, and asserts what it answers.
fn walk<L: Conditions>(rt: &impl Abort, lists: &mut L, out: &mut Vec<u32>) -> Result<(), Fail> {
    open_two(rt, lists)?;
    assert!(rt; lists.may_note());
    let reader = lists.note();
    assert_eq!(rt; lists.seats_out(), 1);
    sweep(rt, lists, out);
    assert_eq!(rt; lists.held(), 2);
    lists.reclaim();
    assert_eq!(rt; lists.held(), 2, "the reader reaches the list");
    lists.unpin(reader);
    assert_eq!(rt; lists.seats_out(), 0);
    lists.reclaim();
    assert_eq!(rt; lists.held(), 0);
    assert_eq!(rt; lists.free(), 2);
    assert!(rt; lists.has_list(0));
    assert_eq!(rt; lists.claimed(0).len(), 0);
    assert_eq!(rt; lists.owned(0).len(), 0);
    Ok(())
}

#[test]
fn list_lives_from_its_opening_to_its_clearing(rt: HostRuntime) -> Result<(), Fail> {
    let mut lists = PlainLists::new(rt.alloc(), 2, 2)?;
    let mut out = Vec::with_capacity(rt.alloc(), 513)?;
    out.push(5)?;
    walk(&rt, &mut lists, &mut out)?;
    assert_eq!(rt; out.as_slice(), [5, 7].as_slice());
    Ok(())
}

#[test]
fn placed_item_is_swept_while_a_filer_is_out(rt: HostRuntime) -> Result<(), Fail> {
    let mut lists = PlainLists::new(rt.alloc(), 2, 2)?;
    let mut out = Vec::with_capacity(rt.alloc(), 512)?;
    open_two(&rt, &mut lists)?;
    assert!(rt; lists.may_admit(FIRST, SECOND));
    assert!(rt; lists.may_place(0));
    assert!(rt; lists.may_sweep(0, &out));
    sweep_while_a_filer_is_out(&mut lists, 0, 7, &[FIRST, SECOND], &mut out);
    assert_eq!(rt; out.as_slice(), [7].as_slice());
    assert_eq!(rt; lists.seats_out(), 0);
    Ok(())
}

#[test]
fn item_stands_when_filed_before_the_sweep_and_is_late_after_it(
    rt: HostRuntime,
) -> Result<(), Fail> {
    let mut lists = PlainLists::new(rt.alloc(), 1, 1)?;
    assert!(rt; lists.has_list(0));
    lists.reserve(0, 1, 0)?;
    assert!(rt; lists.may_open(0));
    lists.open_list(0);
    assert!(rt; lists.may_extend_claimed(0));
    lists.extend_claimed(0);
    lists.reserve_filer(1, 2)?;
    assert!(rt; lists.may_admit_one(FIRST));
    let mut filer = lists.admit(&[FIRST]);
    assert!(rt; lists.may_file(0) && lists.has_chunk(0));
    let filed = lists.file(&mut filer, 0, 7);
    assert_eq!(rt; filed, Filed::At { chunk: 0, slot: 0 });
    assert!(rt; lists.has_chunk(0));
    assert_eq!(rt; lists.slot(0, 0), 8);
    let mut out = Vec::with_capacity(rt.alloc(), 256)?;
    assert!(rt; lists.may_sweep(0, &out));
    lists.shut_and_sweep(0, &mut out);
    assert_eq!(rt; out.as_slice(), [7].as_slice());
    assert!(rt; lists.may_file(0));
    let filed = lists.file(&mut filer, 0, 8);
    assert_eq!(rt; filed, Filed::Late { seen: Seen::Shut });
    assert!(rt; lists.has_chunk(0));
    assert_eq!(rt; lists.slot(0, 0), 9_223_372_036_854_775_816);
    assert!(rt; lists.vouches(&filer));
    lists.take_back(filer);
    assert_eq!(rt; lists.seats_out(), 0);
    Ok(())
}

#[test]
fn lists_do_not_vouch_for_a_filer_of_others(rt: HostRuntime) -> Result<(), Fail> {
    let mut others = PlainLists::new(rt.alloc(), 2, 2)?;
    let lists = PlainLists::new(rt.alloc(), 2, 2)?;
    open_two(&rt, &mut others)?;
    assert!(rt; others.may_admit(FIRST, SECOND));
    let filer = others.admit(&[FIRST, SECOND]);
    assert!(rt; others.vouches(&filer));
    assert!(rt; !lists.vouches(&filer));
    Ok(())
}

#[test]
fn reader_of_other_lists_is_not_counted_off(rt: HostRuntime) -> Result<(), Fail> {
    let mut others = PlainLists::new(rt.alloc(), 1, 1)?;
    let mut lists = PlainLists::new(rt.alloc(), 1, 1)?;
    assert!(rt; others.may_note());
    lists.unpin(others.note());
    assert_eq!(rt; lists.seats_out(), 0);
    assert_eq!(rt; others.seats_out(), 1);
    Ok(())
}
