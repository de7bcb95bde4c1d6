ghost use Rattle.std.specs.Prelude.{◌≡◌, ℕ, List, Contains};
ghost use Rattle.list_words.specs.Store.{IsOpen, IsReclaimed, IsShut, row};
ghost use Rattle.item_moves.specs.Homes.{AreHomed};
ghost use Rattle.item_moves.specs.Settled.{AreSettled};

use crate::aims::Aims;
use list_words::LeafLists;

/// Gives back the chunks of swept lists that nobody reaches. Open lists and what stands in them stay, and so do the homes of what
/// sweeps found.
pub fn give_back<L: LeafLists, A: Aims>(lists: &mut L, aims: &A, homes: &[u32])
    requires homed { AreHomed (L.store lists.old) (L.knows lists.old) (A.guest aims.now) homes.now }
    requires shut { (l : ℕ) → Contains (L.store lists.old).order l → IsShut (L.store lists.old) l }
    ensures store { IsReclaimed (L.store lists.old) (L.store lists.new) }
    ensures homed { AreHomed (L.store lists.new) (L.knows lists.new) (A.guest aims.now) homes.now }
    ensures shut { (l : ℕ) → Contains (L.store lists.new).order l → IsShut (L.store lists.new) l }
    ensures settled { (left : List ℕ) → AreSettled (L.store lists.old) (A.leaf aims.now) (A.covers aims.now) homes.now left
        → AreSettled (L.store lists.new) (A.leaf aims.now) (A.covers aims.now) homes.now left }
    ensures open_rows { (l : ℕ) → IsOpen (L.store lists.old) l → row (L.store lists.new) l ≡ row (L.store lists.old) l }
    ensures known { (l c x : ℕ) → IsOpen (L.store lists.old) l → L.knows lists.old l c x → L.knows lists.new l c x }
{
    lists.reclaim();
}
