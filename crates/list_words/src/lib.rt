//! Lists of items for the leaves of an octree: what every kind of lists promises, and lists over vectors.
#![tactic(auto)]

mod births;
mod laws;
mod leaf_lists;
mod plain_filer;
mod plain_homes;
mod plain_lists;
mod plain_row;
mod shared_filer;
#[cfg(test)]
mod tests;
mod within;

pub use births::count_off;
pub use laws::{
    items_are_found_once, rows_after_a_change, rows_after_a_link, rows_after_a_reclaim,
    rows_after_a_shut, rows_after_grants,
};
pub use leaf_lists::{Answer, Filed, Filings, LeafLists, Phase, Seen};
pub use list_machine::Grant;
pub use plain_filer::{PlainFiler, PlainReader};
pub use plain_lists::PlainLists;
pub use shared_filer::{ListsOf, SharedFiler};
pub use within::push_within;
