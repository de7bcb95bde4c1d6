//! An owner who sweeps lists while others file in them, and notes where each item was found.
ghost use Rattle.std.specs.Prelude.{◌≡◌, ◌↔◌, ℕ, ◌+◌, ◌<◌, ◌≤◌, false, None, length, replicate, IfOk, IfSome, IsNone, OnOk};
ghost use Rattle.list_machine.specs.Words.{decode};
ghost use Rattle.list_table.specs.GuestMoves.{IsSlotWord};
ghost use Rattle.list_words.specs.Store.{found_in, one_more, row, seats_out};
ghost use Rattle.list_filers.specs.Filers.{shared_name};
ghost use Rattle.chunk_lists.specs.Knives.{lists_of};
ghost use Rattle.worked_lists.specs.Layouts.{ArePlots, AreSwept};

use crate::homes::Homes;
use chunk_lists::{Knife, Lists, Reader};
use list_machine::item_of;
use list_words::LeafLists;
use std::alloc::{AllocError, Global};
use std::marker::Brand;
use std::sync::ledger::{Blank, Ledger};
use std::thread;
use step_count::Steps;

/// How often an owner looks at a slot before it sweeps the list in any case.
const LOOKS: u32 = 20_000;

/// An owner of lists, a reader of them, and where each item was found.
#[derive(Drop)]
pub struct Owner {
    pub knife: Knife,
    pub reader: Reader,
    pub homes: Homes,
}

impl Owner {
    /// The owner of lists with a reader of them, before any of the items below `items` was found.
    pub fn new(alloc: Global, lists: &Lists, knife: Knife, items: u32) -> Result<Owner, AllocError>
        requires name { (lists_of knife).name ≡ shared_name lists.now }
        requires seats { seats_out (lists_of knife) < 18446744073709551615 }
        ensures knife { IfOk result (λ o. lists_of o.knife ≡ one_more (lists_of knife)) }
        ensures reader { IfOk result (λ o. o.reader.name ≡ lists.now.name) }
        ensures homes { IfOk result (λ o. (o.homes.lists.items ≡ replicate items None) × (o.homes.astray ≡ false)) }
    {
        let _lists = lists;
        let mut knife = knife;
        let homes = Homes::new(alloc, items)?;
        let reader = knife.note();
        Ok(Owner {
            knife,
            reader,
            homes,
        })
    }
}

/// Sweeps the lists from one on and below another, which have so many chunks each. It waits a while for each until its
/// first chunk is full, so that the sweep comes while others file. It refuses only for want of memory.
pub fn sweep_lists(
    alloc: Global,
    owner: Owner,
    lists: &Lists,
    from: u32,
    end: u32,
    chunks: u32,
) -> Result<Owner, AllocError>
    requires order { from ≤ end }
    requires end { end ≤ length (lists_of owner.knife).rows }
    requires plots { ArePlots (lists_of owner.knife) from chunks }
    requires chunks { chunks ≤ 1000000 }
    requires reader { owner.reader.name ≡ lists.now.name }
    ensures swept { IfOk result (λ o. AreSwept (lists_of owner.knife) (lists_of o.knife) from end) }
    ensures plots { IfOk result (λ o. ArePlots (lists_of o.knife) end chunks) }
    ensures lists { IfOk result (λ o. length (lists_of o.knife).rows ≡ length (lists_of owner.knife).rows) }
    ensures name { IfOk result (λ o. (lists_of o.knife).name ≡ (lists_of owner.knife).name) }
    ensures reader { IfOk result (λ o. o.reader ≡ owner.reader) }
{
    let mut owner = owner;
    sweep_each::<Brand>(alloc, &mut owner, lists, from, end, chunks, Blank::new(1))?;
    Ok(owner)
}

/// Sweeps the lists, and counts the loads of its reader.
fn sweep_each<L: Ledger>(
    alloc: Global,
    owner: &mut Owner,
    lists: &Lists,
    from: u32,
    end: u32,
    chunks: u32,
    blank: Blank,
) -> Result<(), AllocError>
    requires order { from ≤ end }
    requires end { end ≤ length (lists_of owner.old.knife).rows }
    requires plots { ArePlots (lists_of owner.old.knife) from chunks }
    requires chunks { chunks ≤ 1000000 }
    requires reader { owner.old.reader.name ≡ lists.now.name }
    requires blank { (blank.name ≡ L.name) × (blank.parts ≡ L.parts) × (0 < blank.parts) }
    ensures swept { OnOk result (AreSwept (lists_of owner.old.knife) (lists_of owner.new.knife) from end) }
    ensures plots { OnOk result (ArePlots (lists_of owner.new.knife) end chunks) }
    ensures lists { OnOk result (length (lists_of owner.new.knife).rows ≡ length (lists_of owner.old.knife).rows) }
    ensures name { OnOk result ((lists_of owner.new.knife).name ≡ (lists_of owner.old.knife).name) }
    ensures reader { OnOk result (owner.new.reader ≡ owner.old.reader) }
{
    let mut steps: Steps<L> = Steps::new(blank);
    let mut found = Vec::new(alloc);
    for list in from..end {
        wait_for_items(owner, lists, list, &mut steps);
        sweep(&mut owner.knife, list, chunks, &mut found)?;
        note_all(&mut owner.homes, found.as_slice(), list);
    }
    Ok(())
}

/// Looks at the last slot of the list's first chunk, for a while or until an item stands there.
fn wait_for_items<L: Ledger>(owner: &mut Owner, lists: &Lists, list: u32, steps: &mut Steps<L>)
    requires list { list < length (lists_of owner.old.knife).rows }
    requires reader { owner.old.reader.name ≡ lists.now.name }
    ensures { owner.new ≡ owner.old }
{
    let Some(chunk) = owner.knife.claimed(list).first().copied() else {
        return;
    };
    for _look in 0..LOOKS {
        if look(&mut owner.reader, lists, chunk, 255, steps) != Some(0) {
            return;
        }
        thread::yield_now();
    }
}

/// The word of a slot, if there is such a chunk.
fn look<L: Ledger>(
    reader: &mut Reader,
    lists: &Lists,
    chunk: u32,
    slot: u32,
    steps: &mut Steps<L>,
) -> Option<u64>
    requires name { reader.old.name ≡ lists.now.name }
    requires within { slot < 256 }
    ensures reader { reader.new ≡ reader.old }
    ensures word { IfSome result (λ word. IsSlotWord reader.old.guest chunk slot (decode word)) }
    ensures none { IsNone result ↔ (lists.now.chunks ≤ chunk) }
{
    if chunk < lists.chunks() {
        Some(reader.slot(lists, chunk, slot, steps))
    } else {
        None
    }
}

/// Shuts and sweeps a list, of which `found` has the items then.
pub(crate) fn sweep(
    knife: &mut Knife,
    list: u32,
    chunks: u32,
    found: &mut Vec<u32>,
) -> Result<(), AllocError>
    requires list { list < length (lists_of knife.old).rows }
    requires plots { ArePlots (lists_of knife.old) list chunks }
    requires chunks { chunks ≤ 1000000 }
    ensures swept { OnOk result (AreSwept (lists_of knife.old) (lists_of knife.new) list (list + 1)) }
    ensures found { OnOk result (found.new.items ≡ found_in (row (lists_of knife.new) list)) }
{
    found.clear();
    found.reserve(256 * chunks as usize)?;
    knife.shut_and_sweep(list, found);
    Ok(())
}

/// Notes the items of the list.
fn note_all(homes: &mut Homes, items: &[u32], list: u32) {
    for item in items {
        homes.note(*item, list);
    }
}

/// Notes the items that stand in the claimed slots of the lists from one on and below another.
pub fn note_standing(owner: &mut Owner, lists: &Lists, from: u32, end: u32)
    requires end { end ≤ length (lists_of owner.old.knife).rows }
    requires reader { owner.old.reader.name ≡ lists.now.name }
    ensures knife { owner.new.knife ≡ owner.old.knife }
    ensures reader { owner.new.reader ≡ owner.old.reader }
{
    note_each::<Brand>(owner, lists, from, end, Blank::new(1));
}

/// Notes the items that stand in the lists, and counts the loads of its reader.
fn note_each<L: Ledger>(owner: &mut Owner, lists: &Lists, from: u32, end: u32, blank: Blank)
    requires end { end ≤ length (lists_of owner.old.knife).rows }
    requires reader { owner.old.reader.name ≡ lists.now.name }
    requires blank { (blank.name ≡ L.name) × (blank.parts ≡ L.parts) × (0 < blank.parts) }
    ensures knife { owner.new.knife ≡ owner.old.knife }
    ensures reader { owner.new.reader ≡ owner.old.reader }
{
    let mut steps: Steps<L> = Steps::new(blank);
    for list in from..end {
        note_list(owner, lists, list, &mut steps);
    }
}

/// Notes the items that stand in the claimed slots of the list.
fn note_list<L: Ledger>(owner: &mut Owner, lists: &Lists, list: u32, steps: &mut Steps<L>)
    requires list { list < length (lists_of owner.old.knife).rows }
    requires reader { owner.old.reader.name ≡ lists.now.name }
    ensures knife { owner.new.knife ≡ owner.old.knife }
    ensures reader { owner.new.reader ≡ owner.old.reader }
{
    let Owner {
        knife,
        reader,
        homes,
    } = owner;
    for chunk in knife.claimed(list) {
        note_chunk(reader, homes, lists, list, *chunk, steps);
    }
}

/// Notes the items that stand in a chunk of the list.
fn note_chunk<L: Ledger>(
    reader: &mut Reader,
    homes: &mut Homes,
    lists: &Lists,
    list: u32,
    chunk: u32,
    steps: &mut Steps<L>,
)
    requires { reader.old.name ≡ lists.now.name }
    ensures { reader.new ≡ reader.old }
{
    for slot in 0..256 {
        let Some(word) = look(reader, lists, chunk, slot, steps) else {
            return;
        };
        if let Some(item) = item_of(word) {
            homes.note(item, list);
        }
    }
}
