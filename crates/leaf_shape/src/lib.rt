//! The shape of an octree as its lists stand: for each list the path for which it was opened, and the list of a point.
#![tactic(auto)]

mod laws;
mod node;
mod opening;
mod opens;
mod place;
mod shape;
#[cfg(test)]
mod tests;

pub use laws::{
    lists_are_those_of_leaves, lists_elsewhere_stay, lists_of_a_point_are_one, lists_only_go_down,
};
pub use shape::LeafShape;
