//! What the octree of a list of points is: the data types that definitions speak of, the definitions
//! (in `specs/`), and laws about them as small public functions.
#![tactic(auto)]

mod laws;
mod outline;
mod tree;
mod voxel;

pub use laws::{
    each_point_has_one_leaf, leaves_keep_points, paths_lead_to_cubes, same_points_have_same_octree,
};
pub use outline::OutlineNode;
pub use tree::{InnerNode, Points, Tree};
pub use voxel::Voxel;
