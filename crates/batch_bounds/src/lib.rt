//! The batches of clouds, and the octree of all of them, unless a bound refuses a batch: the first such one.
#![tactic(auto)]

mod admission;
mod ends;
mod limits;
mod search;
mod stop;

pub use admission::{Refusal, build_within};
pub use ends::batch_ends;
pub use limits::Limits;
