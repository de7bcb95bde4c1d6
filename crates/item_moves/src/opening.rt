ghost use Rattle.std.specs.Prelude.{◌≡◌, ◌≢◌, ℕ, ◌<◌, ◌≤◌, List, length, slice_index};
ghost use Rattle.chunk_pool.specs.Amounts.{chunks_for};
ghost use Rattle.list_words.specs.declared.leaf_lists.Phase.TheVariants.{Fresh};
ghost use Rattle.list_words.specs.Store.{Keeps, row};
ghost use Rattle.item_moves.specs.Homes.{AreHomed, guest_count};
ghost use Rattle.item_moves.specs.Opened.{IsOpened};

use crate::aims::Aims;
use list_words::LeafLists;

/// Opens the list of a new leaf, with the chunks in its owned chain for `items`. Where that is no less than its guests are,
/// each of them has a slot.
pub fn open_leaf<L: LeafLists, A: Aims>(lists: &mut L, aims: &A, list: u32, items: u32)
    requires below { list < length (L.store lists.old).rows }
    requires new { (row (L.store lists.old) list).phase ≡ Fresh }
    requires room { chunks_for items ≤ (row (L.store lists.old) list).owned_room }
    requires free { chunks_for items ≤ (L.store lists.old).free }
    ensures opened { IsOpened (L.store lists.old) (L.store lists.new) list (chunks_for items) }
    ensures homed { (homes : List ℕ) → AreHomed (L.store lists.old) (L.knows lists.old) (A.guest aims.now) homes
        → ((x : ℕ) → x < length homes → slice_index homes x ≢ list)
        → guest_count (A.guest aims.now) (length homes) list ≤ items → AreHomed (L.store lists.new) (L.knows lists.new) (A.guest aims.now) homes }
    ensures known { Keeps (L.knows lists.old) (L.knows lists.new) }
    ensures borne { (f : L.Filer) → L.borne_out lists.old f → L.borne_out lists.new f }
{
    lists.open_list(list);
    for _chunk in 0..items.div_ceil(256) {
        lists.extend_owned(list);
    }
}
