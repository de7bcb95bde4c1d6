ghost use Rattle.std.specs.Prelude.{◌≡◌, ℕ, ◌+◌, ◌*◌, ◌/◌, ◌%◌, ◌^◌, ◌<◌, ◌≤◌, ◌↔◌, [], ◌∷◌, ◌++◌, Some, length, slice_get, OnOk, OnErr, IsTrue, vec_len};
ghost use Rattle.std.specs.Vec.{vec_capacity};
ghost use Rattle.list_machine.specs.Words.{decode};
ghost use Rattle.list_words.specs.Plain.{chain, slot_word, word_with};
ghost use Rattle.list_words.specs.Store.{is_shut};
ghost use Rattle.list_words.specs.PlainRows.{no_list, emptied_list, filed_list, granted_list, items_of, lengthened_list, linked_list, opened_list, placed_list, roomier_list, shut_list};
ghost use Rattle.list_words.specs.declared.leaf_lists.Filed.TheVariants.{At, Late};
ghost use Rattle.list_words.specs.declared.leaf_lists.Seen.TheVariants.{Shut as SawShut};
ghost use Rattle.list_words.specs.declared.leaf_lists.Phase.TheVariants.{Fresh, Open, Shut};

use crate::within::{append_within, push_within};
use crate::{Filed, Phase, Seen};
use list_machine::{file, mark};
use std::alloc::{AllocError, Global};
use std::marker::Model;

#[cfg(test)]
mod parts;

/// How many slots a chunk has.
pub const SLOTS: usize = 256;

/// One list over vectors: its two chains, and the items in their slots in order. The item at place i stands in
/// slot `i mod 256` of the chunk at place `i / 256` of its chain.
#[derive(Drop)]
pub struct PlainRow {
    phase: Phase,
    claimed: Vec<u32>,
    filed: Vec<u32>,
    owned: Vec<u32>,
    placed: Vec<u32>,
    granted: u32,
    claimed_room: u32,
    owned_room: u32,
}

impl Model for PlainRow {
    ghost use Rattle.list_words.specs.PlainRows.{PlainList};

    ghost Value = { PlainList };

    ghost use Rattle.list_words.specs.PlainRooms.{list_of, IsRoomy};

    ghost view = { list_of };

    ghost invariant = { IsRoomy };
}

impl PlainRow {
    /// A list that was never opened.
    pub fn new(alloc: Global) -> PlainRow
        ensures { result ≡ no_list }
    {
        PlainRow {
            phase: Phase::Fresh,
            claimed: Vec::new(alloc),
            filed: Vec::new(alloc),
            owned: Vec::new(alloc),
            placed: Vec::new(alloc),
            granted: 0,
            claimed_room: 0,
            owned_room: 0,
        }
    }

    pub fn phase(&self) -> Phase
        ensures value { result ≡ self.now.phase }
        ensures fresh { self.now.phase ≡ Fresh → self.now.granted ≡ 0 }
    {
        self.phase
    }

    pub fn claimed(&self) -> &[u32]
        ensures { result.now ≡ self.now.claimed }
    {
        &self.claimed
    }

    pub fn owned(&self) -> &[u32]
        ensures { result.now ≡ self.now.owned }
    {
        &self.owned
    }

    /// The items in the claimed slots.
    pub fn filed(&self) -> &[u32]
        ensures { result.now ≡ self.now.filed }
    {
        &self.filed
    }

    /// The items in the owned slots.
    pub fn placed(&self) -> &[u32]
        ensures { result.now ≡ self.now.placed }
    {
        &self.placed
    }

    /// Makes room for so many more chunks in each chain, and for the items in their slots.
    pub fn reserve(&mut self, claimed: u32, owned: u32) -> Result<(), AllocError>
        requires claimed { length self.old.claimed < 2 ^ 32 }
        requires owned { length self.old.owned < 2 ^ 32 }
        ensures ok { OnOk result (self.new ≡ roomier_list self.old claimed owned) }
        ensures err { OnErr result (self.new ≡ self.old) }
    {
        let claimed = self.claimed_room.max(claimed);
        let owned = self.owned_room.max(owned);
        reserve_chunks(&mut self.claimed, &mut self.filed, claimed)?;
        reserve_chunks(&mut self.owned, &mut self.placed, owned)?;
        self.claimed_room = claimed;
        self.owned_room = owned;
        Ok(())
    }

    pub fn open(&mut self)
        requires { self.old.phase ≡ Fresh }
        ensures opened { self.new ≡ opened_list self.old }
        ensures empty { (self.old.claimed ≡ []) × (self.old.owned ≡ []) × (self.old.filed ≡ []) }
    {
        self.phase = Phase::Open;
    }

    pub fn link(&mut self, chunk: u32)
        requires takes { self.old.phase ≡ Open }
        requires room { 0 < self.old.claimed_room }
        ensures { self.new ≡ linked_list self.old chunk }
    {
        push_within(&mut self.claimed, chunk);
        self.claimed_room -= 1;
    }

    pub fn lengthen(&mut self, chunk: u32)
        requires takes { self.old.phase ≡ Open }
        requires room { 0 < self.old.owned_room }
        ensures { self.new ≡ lengthened_list self.old chunk }
    {
        push_within(&mut self.owned, chunk);
        self.owned_room -= 1;
    }

    /// Lets n more slots of the claimed chain be claimed.
    pub fn grant(&mut self, n: u32)
        requires takes { self.old.phase ≡ Open }
        requires slots { self.old.granted + n ≤ 256 * length self.old.claimed }
        requires fits { self.old.granted + n < 2 ^ 32 }
        ensures { self.new ≡ granted_list self.old n }
    {
        self.granted += n;
    }

    /// Claims the next slot of the claimed chain and files the item there, or tells that the list is shut.
    pub fn file(&mut self, item: u32) -> Filed
        requires { (self.old.phase ≡ Shut → ⊥) → length self.old.filed < self.old.granted }
        ensures late { self.old.phase ≡ Shut → (result ≡ Late SawShut) × (self.new ≡ self.old) }
        ensures filed { (self.old.phase ≡ Shut → ⊥) → self.new ≡ filed_list self.old item }
        ensures at { (self.old.phase ≡ Shut → ⊥) → (c : ℕ) × (slice_get self.old.claimed (length self.old.filed / 256) ≡ Some c) × (result ≡ At c (length self.old.filed % 256)) }
    {
        if self.phase == Phase::Shut {
            return Filed::Late { seen: Seen::Shut };
        }
        let index = self.filed.len();
        push_within(&mut self.filed, item);
        Filed::At {
            chunk: self.claimed[index / SLOTS],
            slot: (index % SLOTS) as u32,
        }
    }

    /// Places the item in the next slot of the owned chain. Answers its chunk and slot.
    pub fn place(&mut self, item: u32) -> (u32, u32)
        requires takes { self.old.phase ≡ Open }
        requires room { length self.old.placed < 256 * length self.old.owned }
        ensures placed { self.new ≡ placed_list self.old item }
        ensures chunk { slice_get self.old.owned (length self.old.placed / 256) ≡ Some result.0 }
        ensures slot { result.1 ≡ length self.old.placed % 256 }
    {
        let index = self.placed.len();
        push_within(&mut self.placed, item);
        (self.owned[index / SLOTS], (index % SLOTS) as u32)
    }

    /// Whether the chunk has this rank in the claimed chain, and the item stands in its slot.
    pub fn has_filed(&self, rank: u32, chunk: u32, slot: u32, item: u32) -> bool
        ensures { IsTrue result ↔ ((slice_get self.now.claimed rank ≡ Some chunk) × (slot < 256) × (slice_get self.now.filed (256 * rank + slot) ≡ Some item)) }
    {
        let Some(found) = self.claimed.get(rank as usize) else {
            return false;
        };
        if *found != chunk || slot >= 256 {
            return false;
        }
        match self.filed.get(SLOTS * rank as usize + slot as usize) {
            Some(stands) => *stands == item,
            None => false,
        }
    }

    /// The word of a slot of the chunk, if it has this rank in the chain, and otherwise 0.
    pub fn slot(&self, owned: bool, rank: u32, chunk: u32, i: u32) -> u64
        requires { i < 256 }
        ensures here { slice_get (chain owned self.now) rank ≡ Some chunk → decode result ≡ slot_word self.now owned rank i }
        ensures elsewhere { (slice_get (chain owned self.now) rank ≡ Some chunk → ⊥) → result ≡ 0 }
    {
        if owned {
            slot_in(self.phase, &self.owned, &self.placed, rank, chunk, i)
        } else {
            slot_in(self.phase, &self.claimed, &self.filed, rank, chunk, i)
        }
    }

    /// Shuts the list and appends its items, first those of the claimed slots.
    pub fn sweep(&mut self, out: &mut Vec<u32>)
        requires takes { self.old.phase ≡ Open }
        requires room { vec_len out.old + 256 * (length self.old.claimed + length self.old.owned) ≤ vec_capacity out.old }
        ensures shut { self.new ≡ shut_list self.old }
        ensures found { out.new.items ≡ out.old.items ++ items_of self.old }
        ensures granted { length self.old.filed ≤ self.old.granted }
        ensures filed { length self.old.filed ≤ 256 * length self.old.claimed }
        ensures placed { length self.old.placed ≤ 256 * length self.old.owned }
        ensures capacity { vec_capacity out.old ≤ vec_capacity out.new }
    {
        self.phase = Phase::Shut;
        append_within(out, &self.filed);
        append_within(out, &self.placed);
    }

    /// Lets go of the chunks and items of a shut list, and of its room.
    pub fn empty(&mut self, alloc: Global)
        requires { self.old.phase ≡ Shut }
        ensures { self.new ≡ emptied_list self.old }
    {
        self.claimed = Vec::new(alloc);
        self.filed = Vec::new(alloc);
        self.owned = Vec::new(alloc);
        self.placed = Vec::new(alloc);
        self.claimed_room = 0;
        self.owned_room = 0;
    }
}

/// The word of a slot of the chunk, if it has this rank among the chunks, and otherwise 0.
fn slot_in(phase: Phase, chunks: &[u32], items: &[u32], rank: u32, chunk: u32, i: u32) -> u64
    requires { i < 256 }
    ensures here { slice_get chunks.now rank ≡ Some chunk → decode result ≡ word_with (is_shut phase) (slice_get items.now (256 * rank + i)) }
    ensures elsewhere { (slice_get chunks.now rank ≡ Some chunk → ⊥) → result ≡ 0 }
{
    let Some(found) = chunks.get(rank as usize) else {
        return 0;
    };
    if *found != chunk {
        return 0;
    }
    match items.get(SLOTS * rank as usize + i as usize) {
        Some(item) => word_of(phase, *item),
        None => 0,
    }
}

/// The word that filing the item leaves, and that marking it leaves where the list is shut.
fn word_of(phase: Phase, item: u32) -> u64
    ensures { decode result ≡ word_with (is_shut phase) (Some item) }
{
    let Some(word) = file(0, item) else {
        unreachable!()
    };
    if phase == Phase::Shut {
        mark(word)
    } else {
        word
    }
}

/// Makes room for so many more chunks, and for the items of all slots.
fn reserve_chunks(chunks: &mut Vec<u32>, items: &mut Vec<u32>, more: u32) -> Result<(), AllocError>
    requires few { vec_len chunks.old < 2 ^ 32 }
    requires slots { vec_len items.old ≤ 256 * vec_len chunks.old }
    ensures chunks { chunks.new.items ≡ chunks.old.items }
    ensures items { items.new.items ≡ items.old.items }
    ensures chunk_len { vec_len chunks.new ≡ vec_len chunks.old }
    ensures item_len { vec_len items.new ≡ vec_len items.old }
    ensures chunk_room { OnOk result (vec_len chunks.old + more ≤ vec_capacity chunks.new) }
    ensures item_room { OnOk result (256 * (vec_len chunks.old + more) ≤ vec_capacity items.new) }
    ensures chunk_capacity { vec_capacity chunks.old ≤ vec_capacity chunks.new }
    ensures item_capacity { vec_capacity items.old ≤ vec_capacity items.new }
{
    chunks.reserve(more as usize)?;
    let slots = SLOTS * (chunks.len() + more as usize);
    items.reserve(slots - items.len())?;
    Ok(())
}
