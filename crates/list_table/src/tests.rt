ghost use Rattle.std.specs.Prelude.{◌≡◌, ◌<◌, true, [], ◌∷◌, IfOk, IfSome};
ghost use Rattle.list_machine.specs.Grants.{granted_in};
ghost use Rattle.list_machine.specs.Facts.{IsAt};
ghost use Rattle.list_machine.specs.Steps.{IsGrantable, newcomer};
ghost use Rattle.list_machine.specs.declared.views.LinkWord.TheVariants.{OfList};
ghost use Rattle.list_machine.specs.declared.views.Stage.TheVariants.{Open};
ghost use Rattle.list_machine.specs.declared.views.Unfiled.TheVariants.{Nothing, Place};
ghost use Rattle.list_table.specs.Ledgers.{opening_ledger, leaf_of};
ghost use Rattle.list_table.specs.OwnerMoves.{MayExtend, after_link, after_adopt, after_place};
ghost use Rattle.list_table.specs.Ruled.{ledger_after_split, ledger_after_join};

mod threads;

use crate::{GuestSeat, OwnerSeat, SharedLists};
use list_machine::{Claimed, Grant};
use std::alloc::{AllocError, Global};
use std::test::Fail;

/// Leave to claim one place in list 0.
const ONE_PLACE: [Grant; 1] = [Grant { list: 0, n: 1 }];

/// Two lists and three chunks, of which the chunk 2 is the first of the claimed chain of list 0.
fn linked_lists(alloc: Global) -> Result<(SharedLists, OwnerSeat), AllocError>
    ensures size { IfOk result (λ r. (r.0.lists ≡ 2) × (r.0.chunks ≡ 3)) }
    ensures owner { IfOk result (λ r. r.1 ≡ record { name = r.0.name; ledger = after_link (opening_ledger 2) 0 OfList 2 }) }
{
    let (lists, mut owner) = SharedLists::new(alloc, 2, 3)?;
    lists.link(&mut owner, 0, None, 0, 2);
    Ok((lists, owner))
}

/// Makes a seat with leave to claim one place in list 0.
fn admit_filer(lists: &SharedLists, owner: &mut OwnerSeat) -> GuestSeat
    requires name { owner.old.name ≡ lists.now.name }
    requires ledger { owner.old.ledger ≡ after_link (opening_ledger 2) 0 OfList 2 }
    ensures name { owner.new.name ≡ owner.old.name }
    ensures ledger { owner.new.ledger ≡ ledger_after_split (after_link (opening_ledger 2) 0 OfList 2) (record { list = 0; n = 1 } ∷ []) }
    ensures guest { result ≡ record { name = owner.old.name; guest = newcomer (after_link (opening_ledger 2) 0 OfList 2).owner (record { list = 0; n = 1 } ∷ []) } }
{
    lists.admit(owner, &ONE_PLACE)
}

/// Claims a place in list 0, if one of the first chunk is to be had.
fn claim_place(lists: &SharedLists, guest: &mut GuestSeat) -> Option<u64>
    requires name { guest.old.name ≡ lists.now.name }
    requires list { 0 < lists.now.lists }
    requires idle { guest.old.guest.claim ≡ Nothing }
    requires granted { 0 < granted_in 0 guest.old.guest.grants }
    ensures name { guest.new.name ≡ guest.old.name }
    ensures out { guest.new.guest.out ≡ guest.old.guest.out }
    ensures claim { IfSome result (λ i. (i < 256) × (guest.new.guest.claim ≡ Place 0 i)) }
{
    match lists.claim(guest, 0) {
        Claimed::Index(place) if place < 256 => Some(place),
        Claimed::Index(_) | Claimed::Shut => None,
    }
}

/// What a filer found at its place.
#[derive(Clone, Copy, Debug, PartialEq, Eq)]
struct Filed {
    /// The chunk with the place.
    chunk: u32,
    /// Whether the item stands there.
    stands: bool,
    /// The word of the slot then.
    word: u64,
}

/// Files the item at the place that was claimed.
fn file_item(lists: &SharedLists, guest: &mut GuestSeat, place: u64, item: u32) -> Filed
    requires name { guest.old.name ≡ lists.now.name }
    requires list { 0 < lists.now.lists }
    requires place { place < 256 }
    requires claim { guest.old.guest.claim ≡ Place 0 place }
    ensures name { guest.new.name ≡ guest.old.name }
    ensures out { guest.new.guest.out ≡ guest.old.guest.out }
{
    let chunk = lists.follow(guest, 0, None, 0);
    let stands = lists.file(guest, 0, place, chunk, item);
    let word = lists.slot(guest, chunk, (place % 256) as u32);
    Filed {
        chunk,
        stands,
        word,
    }
}

/// Shuts list 0 and marks its first claimed slot, if one was claimed. The answer is the count of claims and the
/// word of the slot before.
fn shut_and_mark(lists: &SharedLists, owner: &mut OwnerSeat) -> (u64, Option<u64>)
    requires name { owner.old.name ≡ lists.now.name }
    requires list { 0 < lists.now.lists }
    requires chunk { 2 < lists.now.chunks }
    requires takes { (leaf_of owner.old.ledger 0).stage ≡ Open }
    requires first { IsAt (leaf_of owner.old.ledger 0).claimed 0 2 }
    ensures name { owner.new.name ≡ owner.old.name }
{
    let count = lists.shut(owner, 0);
    let word = if count == 0 {
        None
    } else {
        Some(lists.mark(owner, 0, 2, 0))
    };
    (count, word)
}

/// Two lists and three chunks, of which the chunk 1 is the first of the owned chain of list 0, and has this item in its
/// first slot.
fn lists_with_item(alloc: Global, item: u32) -> Result<(SharedLists, OwnerSeat), AllocError>
    ensures size { IfOk result (λ r. (r.0.lists ≡ 2) × (r.0.chunks ≡ 3)) }
    ensures owner { IfOk result (λ r. r.1 ≡ record { name = r.0.name; ledger = after_place (after_adopt (opening_ledger 2) 0 1) 0 1 0 item }) }
{
    let (lists, mut owner) = SharedLists::new(alloc, 2, 3)?;
    lists.adopt(&mut owner, 0, 1);
    lists.place(&mut owner, 0, 1, 0, item);
    Ok((lists, owner))
}

/// The word of a slot, as a reader sees it that is admitted now.
fn read_slot(lists: &SharedLists, owner: &mut OwnerSeat, chunk: u32, slot: u32) -> u64
    requires name { owner.old.name ≡ lists.now.name }
    requires chunk { chunk < lists.now.chunks }
    requires slot { slot < 256 }
    requires grants { IsGrantable owner.old.ledger.owner.book.leaves [] }
    ensures name { owner.new.name ≡ owner.old.name }
    ensures ledger { owner.new.ledger ≡ ledger_after_join (ledger_after_split owner.old.ledger []) (newcomer owner.old.ledger.owner []) }
{
    let mut reader = lists.admit(owner, &[]);
    let word = lists.slot(&mut reader, chunk, slot);
    lists.take_back(owner, reader);
    word
}

/// Shuts list 0, in which only the chunk 1 stands, and clears it. The answer is how many places were claimed in it.
fn shut_and_clear(lists: &SharedLists, owner: &mut OwnerSeat, item: u32) -> u64
    requires name { owner.old.name ≡ lists.now.name }
    requires list { 0 < lists.now.lists }
    requires chunk { 1 < lists.now.chunks }
    requires ledger { owner.old.ledger ≡ after_place (after_adopt (opening_ledger 2) 0 1) 0 1 0 item }
    ensures name { owner.new.name ≡ owner.old.name }
    ensures grants { IsGrantable owner.new.ledger.owner.book.leaves [] }
    ensures free { MayExtend owner.new.ledger 1 1 }
{
    let count = lists.shut(owner, 0);
    lists.begin_clearing(owner, 0);
    for slot in 0..256u32 {
        lists.clear_slot(owner, 0, 1, slot);
    }
    lists.clear_link(owner, 0, 1);
    lists.end_clearing(owner, 0);
    count
}

#[test]
fn lists_are_as_many_as_were_asked_for(rt: HostRuntime) -> Result<(), Fail> {
    let (lists, _owner) = linked_lists(rt.alloc())?;
    assert_eq!(rt; (lists.lists(), lists.chunks()), (2, 3));
    Ok(())
}

#[test]
fn an_item_stands_at_the_place_that_was_claimed(rt: HostRuntime) -> Result<(), Fail> {
    let (lists, mut owner) = linked_lists(rt.alloc())?;
    let mut filer = admit_filer(&lists, &mut owner);
    let place = claim_place(&lists, &mut filer).ok_or("no place")?;
    assert_eq!(rt; place, 0);
    let wanted = Filed {
        chunk: 2,
        stands: true,
        word: 8,
    };
    assert_eq!(rt; file_item(&lists, &mut filer, place, 7), wanted);
    lists.take_back(&mut owner, filer);
    assert_eq!(rt; shut_and_mark(&lists, &mut owner), (1, Some(8)));
    Ok(())
}

#[test]
fn a_claim_in_a_shut_list_gives_no_place(rt: HostRuntime) -> Result<(), Fail> {
    let (lists, mut owner) = linked_lists(rt.alloc())?;
    let mut filer = admit_filer(&lists, &mut owner);
    assert_eq!(rt; shut_and_mark(&lists, &mut owner), (0, None));
    assert_eq!(rt; lists.claim(&mut filer, 0), Claimed::Shut);
    Ok(())
}

#[test]
fn an_item_is_late_where_its_slot_was_marked(rt: HostRuntime) -> Result<(), Fail> {
    let (lists, mut owner) = linked_lists(rt.alloc())?;
    let mut filer = admit_filer(&lists, &mut owner);
    let place = claim_place(&lists, &mut filer).ok_or("no place")?;
    assert_eq!(rt; shut_and_mark(&lists, &mut owner), (1, Some(0)));
    let wanted = Filed {
        chunk: 2,
        stands: false,
        word: 1 << 63,
    };
    assert_eq!(rt; file_item(&lists, &mut filer, place, 7), wanted);
    lists.take_back(&mut owner, filer);
    Ok(())
}

#[test]
fn a_placed_item_stands_in_the_owned_chain(rt: HostRuntime) -> Result<(), Fail> {
    let (lists, mut owner) = lists_with_item(rt.alloc(), 5)?;
    assert_eq!(rt; read_slot(&lists, &mut owner, 1, 0), 6);
    assert_eq!(rt; lists.shut(&mut owner, 0), 0);
    assert_eq!(rt; lists.mark(&mut owner, 0, 1, 0), 6);
    Ok(())
}

#[test]
fn the_slots_of_a_cleared_list_are_0(rt: HostRuntime) -> Result<(), Fail> {
    let (lists, mut owner) = lists_with_item(rt.alloc(), 5)?;
    assert_eq!(rt; shut_and_clear(&lists, &mut owner, 5), 0);
    assert_eq!(rt; read_slot(&lists, &mut owner, 1, 0), 0);
    Ok(())
}
