//! Runs of least keys: what points tell of an inner node's voxels, made apart from the node, joined in any
//! order, and read as voxels.
#![tactic(auto)]

mod cell_marks;
mod cell_table;
mod joining;
mod laws;
mod least_run;
#[cfg(test)]
mod tests;

pub use cell_table::CellTable;
pub use joining::is_join_due;
pub use laws::{joins_keep_least_keys, runs_go_to_threads, runs_show_voxels};
pub use least_run::LeastRun;
pub use voxel_sampler::Near;
