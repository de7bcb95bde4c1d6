//! The rows of a version: the nodes of the octree of a journal with the chains of its leaves, and the journal's batches. The
//! definitions (in `specs/`) are those that both a store and a simulated one cite, and laws say which events change a version.
#![tactic(auto)]

mod batch_row;
mod laws;

pub use batch_row::BatchRow;
pub use laws::{
    opening_version_is_of_no_events, publications_fix_what_was_admitted,
    versions_last_until_a_publication,
};
