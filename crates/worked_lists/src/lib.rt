//! Lists at work: lists that are laid out alike, filers that file in threads of their own, and an owner who sweeps meanwhile.
#![tactic(auto)]

mod crowd;
mod grants;
mod homes;
mod layout;
mod owner;
#[cfg(test)]
mod tests;
mod worker;

pub use crowd::{Crew, file_at_once, hire};
pub use grants::{admit_even, even_grants};
pub use homes::Homes;
pub use layout::lay_out;
pub use owner::{Owner, note_standing, sweep_lists};
pub use worker::Worker;
