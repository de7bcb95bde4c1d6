//! A world of loaders and viewers, in which each list of steps is one run. Definitions (in `specs/`), and laws as small public
//! functions.
#![tactic(auto)]

mod filing_laws;
mod laws;
mod publication_laws;

pub use filing_laws::{filings_go_on, least_chunks_are_free};
pub use laws::{
    finished_frames_show_prefixes, loaders_answer_their_batches, versions_stay_current,
    worlds_begin_stored,
};
pub use publication_laws::{
    commits_cover_the_next_version, decisions_place_published_items, items_go_their_way,
    sweeps_find_each_known_item,
};
