//! The marks of a sweep, and what they find.
ghost use Rattle.std.specs.Prelude.{◌≡◌, ℕ, ◌+◌, ◌*◌, ◌<◌, ◌≤◌, List, [], ◌∷◌, ◌++◌, length, Option, Contains, ◌^◌, vec_len};
ghost use Rattle.std.specs.Vec.{vec_capacity};
ghost use Rattle.list_machine.specs.Words.{decode, item_in};
ghost use Rattle.list_machine.specs.Facts.{IsAt};
ghost use Rattle.list_machine.specs.declared.views.Stage.TheVariants.{Open, Swept};
ghost use Rattle.list_machine.specs.declared.views.Fact.TheVariants.{Item};
ghost use Rattle.list_table.specs.Ledgers.{Knows, leaf_of, notes_of};
ghost use Rattle.list_table.specs.OwnerMoves.{ledger_after_shut};
ghost use Rattle.chunk_lists.specs.Sweeps.{AreSwept, items_in};

use list_machine::item_of;
use list_table::{OwnerSeat, SharedLists};
use list_words::push_within;

/// Shuts a list, marks its slots as moved and appends the items that the marks find: those of the claimed slots, and
/// then those of the used owned ones. It finds each item that the owner knows to stand in the list.
pub(crate) fn shut_and_mark(
    lists: &SharedLists,
    seat: &mut OwnerSeat,
    list: u32,
    claimed: &[u32],
    owned: &[u32],
    used: u32,
    out: &mut Vec<u32>,
)
    requires name { seat.old.name ≡ lists.now.name }
    requires list { list < lists.now.lists }
    requires leaves { length seat.old.ledger.owner.book.leaves ≡ lists.now.lists }
    requires notes { length seat.old.ledger.notes ≡ lists.now.lists }
    requires takes { (leaf_of seat.old.ledger list).stage ≡ Open }
    requires claimed { claimed.now ≡ (leaf_of seat.old.ledger list).claimed }
    requires owned { owned.now ≡ (leaf_of seat.old.ledger list).owned }
    requires claimed_chunks { (r c : ℕ) → IsAt claimed.now r c → c < lists.now.chunks }
    requires owned_chunks { (r c : ℕ) → IsAt owned.now r c → c < lists.now.chunks }
    requires granted { (leaf_of seat.old.ledger list).granted ≤ 256 * length claimed.now }
    requires few { (leaf_of seat.old.ledger list).granted < 2 ^ 31 }
    requires used { (used ≡ (leaf_of seat.old.ledger list).used) × (used ≤ 256 * length owned.now) }
    requires room { vec_len out.old + 256 * (length claimed.now + length owned.now) ≤ vec_capacity out.old }
    ensures name { seat.new.name ≡ seat.old.name }
    ensures swept { (found p : ℕ) × (marked : List (Option ℕ)) × AreSwept (ledger_after_shut seat.old.ledger list found) seat.new.ledger list p found (found + used) marked
        × (length marked ≡ found) × (found ≤ (leaf_of seat.old.ledger list).granted)
        × (out.new.items ≡ out.old.items ++ (items_in marked ++ (notes_of seat.old.ledger list).placed))
        × ((c k x : ℕ) → Knows seat.old.ledger.owner.facts (Item list c k x) → Contains (items_in marked ++ (notes_of seat.old.ledger list).placed) x) }
    ensures capacity { vec_capacity out.old ≤ vec_capacity out.new }
{
    seat.notes_are_kept();
    let found = lists.shut(seat, list) as u32;
    sweep_claimed(lists, seat, list, claimed, found, out);
    sweep_owned(lists, seat, list, owned, found, used, out);
    seat.notes_are_kept();
    seat.facts_agree();
    seat.items_are_swept();
}

/// Marks the claimed slots of a list that was just shut, as many as its shut found claimed, and appends the items that
/// the marks find.
fn sweep_claimed(
    lists: &SharedLists,
    seat: &mut OwnerSeat,
    list: u32,
    chain: &[u32],
    found: u32,
    out: &mut Vec<u32>,
)
    requires name { seat.old.name ≡ lists.now.name }
    requires list { list < lists.now.lists }
    requires leaves { length seat.old.ledger.owner.book.leaves ≡ lists.now.lists }
    requires notes { length seat.old.ledger.notes ≡ lists.now.lists }
    requires chain { chain.now ≡ (leaf_of seat.old.ledger list).claimed }
    requires chunks { (r c : ℕ) → IsAt chain.now r c → c < lists.now.chunks }
    requires found { found ≤ 256 * length chain.now }
    requires shut { (p : ℕ) × ((leaf_of seat.old.ledger list).stage ≡ Swept p found 0) }
    requires none { (notes_of seat.old.ledger list).marked ≡ [] }
    requires room { vec_len out.old + found ≤ vec_capacity out.old }
    ensures name { seat.new.name ≡ seat.old.name }
    ensures swept { (p : ℕ) × (marked : List (Option ℕ)) × AreSwept seat.old.ledger seat.new.ledger list p found found marked × (length marked ≡ found) × (out.new.items ≡ out.old.items ++ items_in marked) }
    ensures len { vec_len out.new ≤ vec_len out.old + found }
    ensures capacity { vec_capacity out.old ≤ vec_capacity out.new }
{
    for place in 0..found {
        let chunk = chain[(place / 256) as usize];
        let word = lists.mark(seat, list, chunk, place % 256);
        take_item(out, word);
    }
}

/// Marks the used owned slots of a list whose claimed slots are marked, and appends their items.
fn sweep_owned(
    lists: &SharedLists,
    seat: &mut OwnerSeat,
    list: u32,
    chain: &[u32],
    found: u32,
    used: u32,
    out: &mut Vec<u32>,
)
    requires name { seat.old.name ≡ lists.now.name }
    requires list { list < lists.now.lists }
    requires leaves { length seat.old.ledger.owner.book.leaves ≡ lists.now.lists }
    requires notes { length seat.old.ledger.notes ≡ lists.now.lists }
    requires chain { chain.now ≡ (leaf_of seat.old.ledger list).owned }
    requires chunks { (r c : ℕ) → IsAt chain.now r c → c < lists.now.chunks }
    requires used { (used ≡ (leaf_of seat.old.ledger list).used) × (used ≤ 256 * length chain.now) }
    requires shut { (p : ℕ) × ((leaf_of seat.old.ledger list).stage ≡ Swept p found found) }
    requires room { vec_len out.old + used ≤ vec_capacity out.old }
    ensures name { seat.new.name ≡ seat.old.name }
    ensures swept { (p : ℕ) × AreSwept seat.old.ledger seat.new.ledger list p found (found + used) (notes_of seat.old.ledger list).marked }
    ensures found { out.new.items ≡ out.old.items ++ (notes_of seat.old.ledger list).placed }
    ensures capacity { vec_capacity out.old ≤ vec_capacity out.new }
{
    let _found = found;
    seat.notes_are_kept();
    for place in 0..used {
        let chunk = chain[(place / 256) as usize];
        let word = lists.mark(seat, list, chunk, place % 256);
        seat.facts_agree();
        take_item(out, word);
    }
}

/// Appends the item of a slot with this word, where it has one.
fn take_item(out: &mut Vec<u32>, word: u64)
    requires { vec_len out.old < vec_capacity out.old }
    ensures items { out.new.items ≡ out.old.items ++ items_in (item_in (decode word) ∷ []) }
    ensures len { vec_len out.new ≤ vec_len out.old + 1 }
    ensures capacity { vec_capacity out.old ≤ vec_capacity out.new }
{
    if let Some(item) = item_of(word) {
        push_within(out, item);
    }
}
