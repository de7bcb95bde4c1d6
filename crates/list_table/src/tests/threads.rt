//! Two filers in two threads.
ghost use Rattle.std.specs.Prelude.{◌≡◌, ◌<◌, true};
ghost use Rattle.list_machine.specs.Grants.{granted_in};
ghost use Rattle.list_machine.specs.declared.views.LinkWord.TheVariants.{OfList};
ghost use Rattle.list_machine.specs.declared.views.Unfiled.TheVariants.{Nothing};
ghost use Rattle.list_table.specs.Ledgers.{opening_ledger};
ghost use Rattle.list_table.specs.OwnerMoves.{after_link};

use crate::tests::{Filed, ONE_PLACE, admit_filer, claim_place, file_item, linked_lists};
use crate::{GuestSeat, OwnerSeat, SharedLists};
use std::sync::Wait;
use std::test::Fail;
use std::thread;
use std::thread::Threads;

/// The place that a filer claimed in list 0, if it was given one, and what it found there.
type Answer = Option<(u64, Filed)>;

/// Claims a place in list 0 and files the item at it.
fn claim_and_file(lists: &SharedLists, mut guest: GuestSeat, item: u32) -> (Answer, GuestSeat)
    requires name { guest.name ≡ lists.now.name }
    requires list { 0 < lists.now.lists }
    requires idle { guest.guest.claim ≡ Nothing }
    requires granted { 0 < granted_in 0 guest.guest.grants }
    ensures name { result.1.name ≡ guest.name }
    ensures out { result.1.guest.out ≡ guest.guest.out }
{
    match claim_place(lists, &mut guest) {
        Some(place) => {
            let filed = file_item(lists, &mut guest, place, item);
            (Some((place, filed)), guest)
        }
        None => (None, guest),
    }
}

/// Makes two seats, each with leave to claim one place in list 0.
fn admit_two(lists: &SharedLists, owner: &mut OwnerSeat) -> (GuestSeat, GuestSeat)
    requires name { owner.old.name ≡ lists.now.name }
    requires ledger { owner.old.ledger ≡ after_link (opening_ledger 2) 0 OfList 2 }
    ensures name { owner.new.name ≡ owner.old.name }
    ensures names { (result.0.name ≡ owner.old.name) × (result.1.name ≡ owner.old.name) }
    ensures out { (result.0.guest.out ≡ true) × (result.1.guest.out ≡ true) }
    ensures idle { (result.0.guest.claim ≡ Nothing) × (result.1.guest.claim ≡ Nothing) }
    ensures granted { (granted_in 0 result.0.guest.grants ≡ 1) × (granted_in 0 result.1.guest.grants ≡ 1) }
{
    let first = admit_filer(lists, owner);
    let second = lists.admit(owner, &ONE_PLACE);
    (first, second)
}

/// Files 7 and 8 in list 0 in two threads at once.
fn file_at_once<R: Threads + Wait + Sync>(
    rt: &R,
    lists: &SharedLists,
    first: GuestSeat,
    second: GuestSeat,
) -> ((Answer, GuestSeat), (Answer, GuestSeat))
    requires names { (first.name ≡ lists.now.name) × (second.name ≡ lists.now.name) }
    requires list { 0 < lists.now.lists }
    requires idle { (first.guest.claim ≡ Nothing) × (second.guest.claim ≡ Nothing) }
    requires granted { (0 < granted_in 0 first.guest.grants) × (0 < granted_in 0 second.guest.grants) }
    ensures names { (result.0.1.name ≡ first.name) × (result.1.1.name ≡ second.name) }
    ensures out { (result.0.1.guest.out ≡ first.guest.out) × (result.1.1.guest.out ≡ second.guest.out) }
{
    thread::join(
        rt,
        move ||
            requires { (first.name ≡ lists.now.name) × (0 < lists.now.lists) × (first.guest.claim ≡ Nothing) × (0 < granted_in 0 first.guest.grants) }
            ensures { (result.1.name ≡ first.name) × (result.1.guest.out ≡ first.guest.out) }
        { claim_and_file(lists, first, 7) },
        move ||
            requires { (second.name ≡ lists.now.name) × (0 < lists.now.lists) × (second.guest.claim ≡ Nothing) × (0 < granted_in 0 second.guest.grants) }
            ensures { (result.1.name ≡ second.name) × (result.1.guest.out ≡ second.guest.out) }
        { claim_and_file(lists, second, 8) },
    )
}

/// What a filer finds that got this place for this item.
fn filed_at(place: u64, item: u32) -> Answer {
    let filed = Filed {
        chunk: 2,
        stands: true,
        word: u64::from(item) + 1,
    };
    Some((place, filed))
}

#[test]
fn two_filers_at_once_get_a_place_each(rt: HostRuntime) -> Result<(), Fail> {
    let (lists, mut owner) = linked_lists(rt.alloc())?;
    let (first, second) = admit_two(&lists, &mut owner);
    let ((left, first), (right, second)) = file_at_once(&rt, &lists, first, second);
    lists.take_back(&mut owner, first);
    lists.take_back(&mut owner, second);
    let in_order = left == filed_at(0, 7) && right == filed_at(1, 8);
    let turned = left == filed_at(1, 7) && right == filed_at(0, 8);
    assert!(rt;
        in_order || turned,
        "7 found {left:?}, and 8 found {right:?}"
    );
    Ok(())
}
