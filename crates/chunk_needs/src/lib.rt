//! What the record of a store needs: the slots that it granted and owns in the leaves of its octree, the chunks for them,
//! and its limits. Definitions (in `specs/`), and laws about them as small public functions.
#![tactic(auto)]

mod laws;

pub use laws::{
    admissions_need_slots, beginnings_keep_the_limits, enough_chunks_never_run_out,
    first_admission_needs_its_points, looks_need_nothing, publications_need_slots,
    slots_are_granted_or_owned, what_lives_was_taken,
};
