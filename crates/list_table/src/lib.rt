//! The words of lists in one table of atomic words, which many threads share, and each step of their seats as
//! one atomic operation.
#![tactic(auto)]

mod clearing;
mod filing;
mod laws;
mod lending;
mod lists;
mod owning;
mod rule;
mod seats;
mod shared;
#[cfg(test)]
mod tests;
mod views;

pub use lists::SharedLists;
pub use seats::{GuestSeat, OwnerSeat};
pub use views::{Ledger, Notes, View};
