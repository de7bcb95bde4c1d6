ghost use Rattle.std.specs.Prelude.{◌≡◌, ℕ, ◌+◌, ◌≤◌, false, ◌++◌, length, replicate, vec_len};
ghost use Rattle.std.specs.Vec.{vec_capacity};
ghost use Rattle.list_words.specs.Store.{IsOpen};
ghost use Rattle.item_moves.specs.Homes.{AreHomed};

use crate::aims::Aims;
use list_words::{LeafLists, push_within};

/// What stands for the home of an item that has none: no list has this number.
pub const NO_HOME: u32 = u32::MAX;

/// Notes that so many items more were admitted, which have no home yet.
pub fn add_items<L: LeafLists, A: Aims>(lists: &L, aims: &A, homes: &mut Vec<u32>, items: u32)
    requires homed { AreHomed (L.store lists.now) (L.knows lists.now) (A.guest aims.now) homes.old.items }
    requires no_list { IsOpen (L.store lists.now) 4294967295 → ⊥ }
    requires new { (l x : ℕ) → IsOpen (L.store lists.now) l → length homes.old.items ≤ x → A.guest aims.now l x ≡ false }
    requires room { vec_len homes.old + items ≤ vec_capacity homes.old }
    ensures homed { AreHomed (L.store lists.now) (L.knows lists.now) (A.guest aims.now) homes.new.items }
    ensures homes { homes.new.items ≡ homes.old.items ++ replicate items 4294967295 }
{
    for _item in 0..items {
        push_within(homes, NO_HOME);
    }
}
