//! The words of lists that many threads file into, what each seat may know of them, and the steps that
//! keep this knowledge true.
#![tactic(auto)]

mod laws;
mod move_laws;
mod sweep_laws;
#[cfg(test)]
mod tests;
mod views;
mod words;

pub use laws::{
    claim_counts_are_small, claimed_places_have_chunks, facts_agree, facts_hold,
    facts_of_the_owner_outlast_steps, facts_outlast_steps, items_are_swept, items_stand_in_chains,
    late_lists_are_shut, steps_keep_the_rule, sweeps_go_on, the_rule_holds_at_the_start,
    walks_are_short,
};
pub use move_laws::{moves_are_runs, moves_leave_words};
pub use sweep_laws::{
    first_places_are_marked, items_of_guests_are_swept, next_marks_are_new, swept_lists_stay,
};
pub use views::{Book, Fact, Grant, Guest, Leaf, LinkWord, Owner, Stage, Unfiled};
pub use words::{Claimed, claim, clear, file, item_of, link, mark, shut, word_is_value_and_bit};
