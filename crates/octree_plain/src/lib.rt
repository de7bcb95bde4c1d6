//! The octree of a list of points, built at once: its nodes, its text, its outline, and the default cube.
#![tactic(auto)]

mod bounds;
mod cell_set;
mod count;
mod fitting;
#[cfg(test)]
mod fitting_tests;
mod growth;
#[cfg(test)]
mod growth_tests;
mod listing;
#[cfg(test)]
mod listing_tests;
mod outlines;
mod sampling;
mod summary;

pub use bounds::bounds_text;
pub use cell_set::push_marked_cells;
pub use count::node_count;
pub use fitting::{Span, fit_cube};
pub use growth::{build, spread};
pub use listing::nodes_text;
pub use octree_model::{InnerNode, OutlineNode, Points, Tree, Voxel};
pub use outlines::outline;
pub use summary::demo_text;
