//! The book of the lists of leaves: what their owner keeps of each list beside the items in its slots.
#![tactic(auto)]

mod book;
mod list_row;
#[cfg(test)]
mod tests;

pub use book::Book;
pub use book::laws::{
    chunks_stand_once, counts_are_kept, numbers_are_small, order_is_of_shut_lists,
};
