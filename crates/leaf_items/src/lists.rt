ghost use Rattle.std.specs.Prelude.{◌≡◌, ◌+◌, ◌≤◌, ◌<◌, ◌^◌, [], ◌++◌, All, length, map, vec_items, vec_len};
ghost use Rattle.std.specs.Vec.{vec_capacity};
ghost use Rattle.leaf_items.specs.Items.{items_from};
ghost use Rattle.leaf_items.specs.Kept.{AreLists, births};
ghost use Rattle.leaf_items.specs.Lists.{opened_lists};
ghost use Rattle.leaf_items.specs.Openings.{moved};

use crate::item_list::ItemList;
use crate::within::push_within;

/// Admits an item in each of the lists that are ready, in their order.
pub(crate) fn admit_all(leaf: &mut Vec<u32>, lists: &mut Vec<ItemList>, ready: &[u32])
    requires lists { AreLists leaf.old.items ready.now lists.old.items }
    requires room { vec_len leaf.old + length ready.now ≤ vec_capacity leaf.old }
    requires few { vec_len leaf.old + length ready.now < 2 ^ 32 }
    ensures lists { AreLists leaf.new.items [] lists.new.items }
    ensures leaf { leaf.new.items ≡ leaf.old.items ++ ready.now }
    ensures births { births lists.new.items ≡ births lists.old.items }
    ensures leaf_room { vec_len leaf.new ≤ vec_capacity leaf.new }
    ensures len { vec_len lists.new ≡ vec_len lists.old }
    ensures capacity { vec_capacity lists.new ≡ vec_capacity lists.old }
{
    for list in ready {
        let item = leaf.len() as u32;
        push_within(leaf, *list);
        let known = &mut lists[*list as usize];
        known.append(item);
    }
}

/// Notes for each of these items, which are those of a list, that it is now in the list at which it aims, from the first on.
pub(crate) fn move_items(leaf: &mut Vec<u32>, list: u32, items: &[u32], aims: &[u32], first: u32)
    requires items { items.now ≡ items_from 0 leaf.old.items list }
    requires many { length aims.now ≡ length items.now }
    requires numbers { All (λ aim. first + aim < 2 ^ 32) aims.now }
    ensures leaf { leaf.new.items ≡ moved first list leaf.old.items aims.now }
    ensures len { vec_len leaf.new ≡ vec_len leaf.old }
    ensures capacity { vec_capacity leaf.new ≡ vec_capacity leaf.old }
{
    for k in 0..items.len() {
        leaf[items[k] as usize] = first + aims[k];
    }
}

/// Opens a list for each part.
pub(crate) fn open_all(lists: &mut Vec<ItemList>, born: u32, parts: Vec<Vec<u32>>)
    requires { vec_len lists.old + vec_len parts ≤ vec_capacity lists.old }
    ensures lists { lists.new.items ≡ lists.old.items ++ opened_lists born (map vec_items parts.items) }
    ensures len { vec_len lists.new ≡ vec_len lists.old + vec_len parts }
    ensures capacity { vec_capacity lists.old ≤ vec_capacity lists.new }
{
    for items in parts {
        push_within(lists, ItemList::new(born, items));
    }
}
