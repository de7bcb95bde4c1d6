//! That the lists of an octree's leaves are where items belong: definitions, and a law.
#![tactic(auto)]

mod laws;

pub use laws::lists_of_leaves_are_aimed;
