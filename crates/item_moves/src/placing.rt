ghost use Rattle.std.specs.Prelude.{◌≡◌, ℕ, ◌<◌, length, slice_set, slice_index, IsTrue, Contains};
ghost use Rattle.list_words.specs.Store.{IsOpen, Keeps};
ghost use Rattle.item_moves.specs.Homes.{AreHomed, IsAlone, OnlyPlaced, OnlyHome};

use crate::aims::Aims;
use list_words::LeafLists;

/// Places an item in a list, unless that is its home already.
pub fn place_once<L: LeafLists, A: Aims>(
    lists: &mut L,
    aims: &A,
    homes: &mut [u32],
    list: u32,
    item: u32,
)
    requires homed { AreHomed (L.store lists.old) (L.knows lists.old) (A.guest aims.now) homes.old }
    requires takes { IsOpen (L.store lists.old) list }
    requires item { item < length homes.old }
    requires guest { IsTrue (A.guest aims.now list item) }
    requires alone { IsAlone (L.store lists.old) homes.old item list }
    ensures homed { AreHomed (L.store lists.new) (L.knows lists.new) (A.guest aims.now) homes.new }
    ensures home { homes.new ≡ slice_set homes.old item list }
    ensures placed { OnlyPlaced (L.store lists.old) (L.store lists.new) }
    ensures known { Keeps (L.knows lists.old) (L.knows lists.new) }
    ensures borne { (f : L.Filer) → L.borne_out lists.old f → L.borne_out lists.new f }
{
    if homes[item as usize] != list {
        lists.place(list, item);
        homes[item as usize] = list;
    }
}

/// Places each item that was found in a list and that this list covers in the list of its leaf.
pub fn place_found<L: LeafLists, A: Aims>(
    lists: &mut L,
    aims: &A,
    homes: &mut [u32],
    from: u32,
    found: &[u32],
)
    requires homed { AreHomed (L.store lists.old) (L.knows lists.old) (A.guest aims.now) homes.old }
    requires takes { (x : ℕ) → IsTrue (A.covers aims.now from x) → IsOpen (L.store lists.old) (A.leaf aims.now x) }
    requires item { (x : ℕ) → IsTrue (A.covers aims.now from x) → x < length homes.old }
    requires guest { (x : ℕ) → IsTrue (A.covers aims.now from x) → IsTrue (A.guest aims.now (A.leaf aims.now x) x) }
    requires alone { (x : ℕ) → IsTrue (A.covers aims.now from x) → IsAlone (L.store lists.old) homes.old x (A.leaf aims.now x) }
    ensures homed { AreHomed (L.store lists.new) (L.knows lists.new) (A.guest aims.now) homes.new }
    ensures home { OnlyHome (A.leaf aims.now) homes.old homes.new }
    ensures found { (x : ℕ) → Contains found.now x → IsTrue (A.covers aims.now from x) → slice_index homes.new x ≡ A.leaf aims.now x }
    ensures placed { OnlyPlaced (L.store lists.old) (L.store lists.new) }
    ensures known { Keeps (L.knows lists.old) (L.knows lists.new) }
    ensures borne { (f : L.Filer) → L.borne_out lists.old f → L.borne_out lists.new f }
{
    for item in found {
        if let Some(list) = aims.aim(from, *item) {
            place_once(lists, aims, homes, list, *item);
        }
    }
}
