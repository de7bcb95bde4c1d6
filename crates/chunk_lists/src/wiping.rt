//! The clearing of a list, word by word.
ghost use Rattle.std.specs.Prelude.{◌≡◌, ℕ, ◌+◌, ◌*◌, ◌-◌, ◌<◌, length};
ghost use Rattle.list_machine.specs.Facts.{IsAt};
ghost use Rattle.list_machine.specs.declared.views.Stage.TheVariants.{Cleared};
ghost use Rattle.list_table.specs.Ledgers.{leaf_of};
ghost use Rattle.list_table.specs.OwnerMoves.{MayBegin, chunks_in};
ghost use Rattle.chunk_lists.specs.Wipes.{AreWiped, wiped_to, cleared_ledger};

use list_table::{OwnerSeat, SharedLists};

/// Clears the words of a list, whose chunks are free then.
pub(crate) fn wipe(
    lists: &SharedLists,
    seat: &mut OwnerSeat,
    list: u32,
    claimed: &[u32],
    owned: &[u32],
)
    requires name { seat.old.name ≡ lists.now.name }
    requires list { list < lists.now.lists }
    requires leaves { length seat.old.ledger.owner.book.leaves ≡ lists.now.lists }
    requires claimed { claimed.now ≡ (leaf_of seat.old.ledger list).claimed }
    requires owned { owned.now ≡ (leaf_of seat.old.ledger list).owned }
    requires claimed_chunks { (r c : ℕ) → IsAt claimed.now r c → c < lists.now.chunks }
    requires owned_chunks { (r c : ℕ) → IsAt owned.now r c → c < lists.now.chunks }
    requires may { MayBegin seat.old.ledger list }
    ensures name { seat.new.name ≡ seat.old.name }
    ensures ledger { seat.new.ledger ≡ cleared_ledger seat.old.ledger list }
{
    lists.begin_clearing(seat, list);
    wipe_chain(lists, seat, list, 0, claimed);
    wipe_chain(lists, seat, list, claimed.len(), owned);
    lists.end_clearing(seat, list);
}

/// Clears the words of the chunks of a chain, before which so many chunks of the list are cleared.
fn wipe_chain(lists: &SharedLists, seat: &mut OwnerSeat, list: u32, before: usize, chain: &[u32])
    requires name { seat.old.name ≡ lists.now.name }
    requires list { list < lists.now.lists }
    requires leaves { length seat.old.ledger.owner.book.leaves ≡ lists.now.lists }
    requires wiped { AreWiped seat.old.ledger list (257 * before + 1) }
    requires chain { (r c : ℕ) → IsAt chain.now r c → IsAt (chunks_in (leaf_of seat.old.ledger list)) (before + r) c }
    requires chunks { (r c : ℕ) → IsAt chain.now r c → c < lists.now.chunks }
    ensures name { seat.new.name ≡ seat.old.name }
    ensures ledger { seat.new.ledger ≡ wiped_to seat.old.ledger list (257 * (before + length chain.now) + 1) }
{
    let _before = before;
    for rank in 0..chain.len() {
        wipe_chunk(lists, seat, list, chain[rank]);
    }
}

/// Clears the words of a chunk.
fn wipe_chunk(lists: &SharedLists, seat: &mut OwnerSeat, list: u32, chunk: u32)
    requires name { seat.old.name ≡ lists.now.name }
    requires list { list < lists.now.lists }
    requires leaves { length seat.old.ledger.owner.book.leaves ≡ lists.now.lists }
    requires chunk { chunk < lists.now.chunks }
    requires wiped { (r : ℕ) × AreWiped seat.old.ledger list (257 * r + 1) × IsAt (chunks_in (leaf_of seat.old.ledger list)) r chunk }
    ensures name { seat.new.name ≡ seat.old.name }
    ensures ledger { (r : ℕ) → AreWiped seat.old.ledger list (257 * r + 1) → seat.new.ledger ≡ wiped_to seat.old.ledger list (257 * (r + 1) + 1) }
{
    for slot in 0..256u32 {
        lists.clear_slot(seat, list, chunk, slot);
    }
    lists.clear_link(seat, list, chunk);
}
