//! The items of each list of an octree's leaves, by numbers, also once a leaf is split.
#![tactic(auto)]

mod item_list;
mod items;
mod laws;
mod lists;
mod parts;
#[cfg(test)]
mod tests;
mod within;

pub use items::LeafItems;
pub use laws::{
    admissions_append_items, dealt_items_go_where_they_aim, items_are_those_in_a_list,
    leaf_items_go_to_threads, new_lists_own_their_items, openings_move_items,
    owned_and_granted_are_all,
};
pub use parts::Parts;
