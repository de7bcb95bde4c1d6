//! Items that move between the lists of leaves: links and grants at an admission, and at a publication the lists of new
//! leaves, sweeps, and placing what was found and what came late.
#![tactic(auto)]

mod aims;
mod coming_back;
mod homeless;
mod laws;
mod linking;
mod opening;
mod placing;
mod reclaiming;
mod sweeping;
#[cfg(test)]
mod tests;

pub use aims::Aims;
pub use coming_back::{are_fair, bring_home, place_answer, place_late};
pub use homeless::{NO_HOME, add_items};
pub use laws::{items_stay_in_their_lists, settled_items_stay_settled};
pub use linking::{admit_slots, link_chunks, link_for_grants};
pub use opening::open_leaf;
pub use placing::{place_found, place_once};
pub use reclaiming::give_back;
pub use sweeping::{sweep_all, sweep_list};
