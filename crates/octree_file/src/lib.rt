//! Files of octrees: an octree saved as bytes.
#![tactic(auto)]

mod file;
mod laws;
mod order;
mod writing;

pub use file::tree_file;
pub use laws::same_points_have_same_file;
pub use writing::{INNER, LEAF, SIGNATURE};
