ghost use Rattle.std.specs.Prelude.{◌≡◌, ◌≢◌, ℕ, ◌*◌, ◌≤◌, List, [], ◌∷◌, length, slice_index, IsTrue, Contains, AllPairs};
ghost use Rattle.std.specs.Vec.{vec_capacity};
ghost use Rattle.list_words.specs.Store.{IsOpen, Keeps, row, chunks_of, found_in};
ghost use Rattle.item_moves.specs.Aimed.{AreAimed};
ghost use Rattle.item_moves.specs.Homes.{AreHomed, IsKnownIn, OnlyHome};
ghost use Rattle.item_moves.specs.Settled.{AreSettled, AreSwept, IsKept};

use crate::aims::Aims;
use crate::placing::place_found;
use list_words::LeafLists;

/// Sweeps a list, and places what was found there where it belongs.
pub fn sweep_list<L: LeafLists, A: Aims>(
    lists: &mut L,
    aims: &A,
    homes: &mut [u32],
    from: u32,
    found: &mut Vec<u32>,
)
    requires homed { AreHomed (L.store lists.old) (L.knows lists.old) (A.guest aims.now) homes.old }
    requires takes { IsOpen (L.store lists.old) from }
    requires aimed { (splits : List ℕ) × Contains splits from
        × AreAimed (L.store lists.old) (A.leaf aims.now) (A.covers aims.now) (A.guest aims.now) homes.old splits }
    requires room { 256 * length (chunks_of (row (L.store lists.old) from)) ≤ vec_capacity found.old }
    ensures homed { AreHomed (L.store lists.new) (L.knows lists.new) (A.guest aims.now) homes.new }
    ensures home { OnlyHome (A.leaf aims.now) homes.old homes.new }
    ensures swept { AreSwept (L.store lists.old) (L.store lists.new) (from ∷ []) }
    ensures found { (x : ℕ) → Contains (found_in (row (L.store lists.new) from)) x → IsTrue (A.covers aims.now from x)
        → slice_index homes.new x ≡ A.leaf aims.now x }
    ensures moved { (x : ℕ) → IsKnownIn (L.knows lists.old) from x → IsTrue (A.covers aims.now from x) → slice_index homes.new x ≡ A.leaf aims.now x }
    ensures capacity { vec_capacity found.old ≤ vec_capacity found.new }
    ensures known { Keeps (L.knows lists.old) (L.knows lists.new) }
    ensures borne { (f : L.Filer) → L.borne_out lists.old f → L.borne_out lists.new f }
{
    found.clear();
    lists.shut_and_sweep(from, found);
    place_found(lists, aims, homes, from, found);
}

/// Sweeps these lists, one after the other, and places what was found there where it belongs. An item that was known to stand
/// in one of them stands then in the list of its leaf.
pub fn sweep_all<L: LeafLists, A: Aims>(
    lists: &mut L,
    aims: &A,
    homes: &mut [u32],
    splits: &[u32],
    found: &mut Vec<u32>,
)
    requires homed { AreHomed (L.store lists.old) (L.knows lists.old) (A.guest aims.now) homes.old }
    requires apart { AllPairs (λ (a b : ℕ). a ≢ b) splits.now }
    requires takes { (l : ℕ) → Contains splits.now l → IsOpen (L.store lists.old) l }
    requires aimed { AreAimed (L.store lists.old) (A.leaf aims.now) (A.covers aims.now) (A.guest aims.now) homes.old splits.now }
    requires room { (l : ℕ) → Contains splits.now l → 256 * length (chunks_of (row (L.store lists.old) l)) ≤ vec_capacity found.old }
    ensures homed { AreHomed (L.store lists.new) (L.knows lists.new) (A.guest aims.now) homes.new }
    ensures home { OnlyHome (A.leaf aims.now) homes.old homes.new }
    ensures swept { AreSwept (L.store lists.old) (L.store lists.new) splits.now }
    ensures settled { AreSettled (L.store lists.old) (A.leaf aims.now) (A.covers aims.now) homes.old splits.now
        → AreSettled (L.store lists.new) (A.leaf aims.now) (A.covers aims.now) homes.new [] }
    ensures kept { (x : ℕ) → IsKept (L.knows lists.old) (A.leaf aims.now) (A.covers aims.now) splits.now x
        → IsKnownIn (L.knows lists.new) (A.leaf aims.now x) x }
    ensures capacity { vec_capacity found.old ≤ vec_capacity found.new }
    ensures known { Keeps (L.knows lists.old) (L.knows lists.new) }
    ensures borne { (f : L.Filer) → L.borne_out lists.old f → L.borne_out lists.new f }
{
    for from in splits {
        sweep_list(lists, aims, homes, *from, found);
    }
}
