//! The lists of a world: their words, their book and their seats, each step of which is one move of the machine of lists.
#![tactic(auto)]

mod lists;
mod seat;
#[cfg(test)]
mod tests;

pub use lists::Lists;
pub use seat::{Seat, Unfiled};
