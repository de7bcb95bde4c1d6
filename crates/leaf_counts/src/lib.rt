//! The nodes of an octree with their numbers of points, kept batch by batch, and plans of what a batch splits.
#![tactic(auto)]

mod counts;
mod descent;
mod growing;
mod growth;
mod laws;
mod overfilling;
mod plan;
mod progress;
mod skeleton;
mod splitting;
#[cfg(test)]
mod tests;

pub use counts::Counts;
pub use growth::Growth;
pub use laws::{
    commits_give_skeleton, leaves_of_a_point_are_one, leaves_stay_or_split,
    leaves_were_leaves_between, node_paths_fit, nodes_are_those_of_outline, nodes_count_points,
};
pub use plan::{Plan, PlanRefusal, Spill};
pub use skeleton::Skeleton;
