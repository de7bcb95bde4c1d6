//! Laws of items by lists, and of types.
ghost use Rattle.std.specs.Prelude.{◌≡◌, ◌≢◌, ◌+◌, ◌<◌, ◌≤◌, ◌==◌, ◌↔◌, ℕ, [], ◌++◌, All, Contains, Some, count_by, length, slice_get, slice_index_or};
ghost use Rattle.std.specs.List.Sorted.{IsStrictlyIncreasing};
ghost use Rattle.leaf_items.specs.Items.{ItemsValue, granted, items_from, items_of, owned, with_ready};
ghost use Rattle.leaf_items.specs.Openings.{AreDealt, PartsValue, with_parts};

use crate::items::LeafItems;
use crate::parts::Parts;

/// A law: the items of a list are those that are in it, ascending.
pub fn items_are_those_in_a_list()
    ensures are { (value : ItemsValue) (list item : ℕ) → (slice_get value.leaf item ≡ Some list) ↔ Contains (items_of value list) item }
    ensures ascend { (value : ItemsValue) (list : ℕ) → IsStrictlyIncreasing (items_of value list) }
{}

/// A law: a list owns some of its items, and the others were granted to it.
pub fn owned_and_granted_are_all()
    ensures { (value : ItemsValue) (list : ℕ) → owned value list + granted value list ≡ length (items_of value list) }
{}

/// A law: an admission appends its items to their lists, to which they are granted.
pub fn admissions_append_items()
    ensures items { (value : ItemsValue) (list : ℕ) → items_of (with_ready value) list
        ≡ items_of value list ++ items_from (length value.leaf) value.ready list }
    ensures owned { (value : ItemsValue) (list : ℕ) → All (λ born. born ≤ length value.leaf) value.born → owned (with_ready value) list ≡ owned value list }
    ensures granted { (value : ItemsValue) (list : ℕ) → All (λ born. born ≤ length value.leaf) value.born
        → granted (with_ready value) list ≡ granted value list + count_by (λ l. l == list) value.ready }
{}

/// A law: where the items of a list are dealt, each new list has its part, the list has none any more, and others keep theirs.
pub fn openings_move_items()
    ensures new { (value : ItemsValue) (parts : PartsValue) (part : ℕ) → AreDealt value parts → All (λ list. list < length value.born) value.leaf
        → part < length parts.parts → items_of (with_parts value parts) (length value.born + part) ≡ slice_index_or parts.parts part [] }
    ensures none { (value : ItemsValue) (parts : PartsValue) → AreDealt value parts → items_of (with_parts value parts) parts.list ≡ [] }
    ensures others { (value : ItemsValue) (parts : PartsValue) (list : ℕ) → list < length value.born → list ≢ parts.list
        → items_of (with_parts value parts) list ≡ items_of value list }
    ensures dealt { (value : ItemsValue) (parts other : PartsValue) → AreDealt value other → other.list ≢ parts.list → AreDealt (with_parts value parts) other }
{}

/// A law: an item of the list is in the new one at which it aims, and any other item stays where it is.
pub fn dealt_items_go_where_they_aim()
    ensures goes { (value : ItemsValue) (parts : PartsValue) (place item aim : ℕ) → slice_get (items_of value parts.list) place ≡ Some item
        → slice_get parts.aims place ≡ Some aim → slice_get (with_parts value parts).leaf item ≡ Some (length value.born + aim) }
    ensures stays { (value : ItemsValue) (parts : PartsValue) (item list : ℕ) → slice_get value.leaf item ≡ Some list → list ≢ parts.list
        → slice_get (with_parts value parts).leaf item ≡ Some list }
{}

/// A law: a new list owns all of its items. Another one owns what it did, and what was granted to it stays granted.
pub fn new_lists_own_their_items()
    ensures new { (value : ItemsValue) (parts : PartsValue) (part : ℕ) → part < length parts.parts
        → granted (with_parts value parts) (length value.born + part) ≡ 0 }
    ensures owned { (value : ItemsValue) (parts : PartsValue) (list : ℕ) → list < length value.born → list ≢ parts.list
        → owned (with_parts value parts) list ≡ owned value list }
    ensures granted { (value : ItemsValue) (parts : PartsValue) (list : ℕ) → list < length value.born → list ≢ parts.list
        → granted (with_parts value parts) list ≡ granted value list }
{}

/// A law of types: threads may read items and parts at once and move them between them. The bounds of `goes_to_threads` are
/// what is proved.
pub fn leaf_items_go_to_threads(items: &LeafItems, parts: &Parts) {
    goes_to_threads(items);
    goes_to_threads(parts);
}

/// Takes what threads may share and be handed, and nothing else.
fn goes_to_threads<T: Send + Sync>(_value: &T) {}
