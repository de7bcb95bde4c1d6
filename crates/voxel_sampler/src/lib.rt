//! The voxels that a batch of points adds to an inner node, and what is kept of a node for the next batch.
#![tactic(auto)]

mod best;
mod laws;
mod near;
mod ready;
mod sampling;
mod sorting;
#[cfg(test)]
mod tests;
mod updating;
mod voxel_run;

pub use best::Best;
pub use laws::{merge_adds_voxels, merges_give_voxels};
pub use near::Near;
pub use ready::Ready;
pub use sampling::{merge, prepare};
pub use voxel_run::VoxelRun;
