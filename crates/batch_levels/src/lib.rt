//! The levels of an octree, kept batch by batch: the nodes with their counts, the points of each leaf, and the runs of each inner node.
#![tactic(auto)]

mod growing;
mod laws;
mod level;
mod levels;
mod node_runs;
mod spilling;
#[cfg(test)]
mod tests;

pub use laws::levels_show_octree;
pub use level::{InnerLevel, Level};
pub use levels::Levels;
pub use node_runs::NodeRuns;
