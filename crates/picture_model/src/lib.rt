//! What a picture of an octree is: the definitions of the camera, the cut, items, frames and pictures
//! (in `specs/`), which the crates that make pictures cite.
#![tactic(auto)]
