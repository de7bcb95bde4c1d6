//! The camera: what lies where before it, which cubes it shows by the nodes below them, the cut of an
//! outline, and the items that are drawn.
#![tactic(auto)]

mod camera;
mod cut;
mod item;
mod laws;
mod numbers;
#[cfg(test)]
mod tests;

pub use camera::Camera;
pub use cut::{Cut, cut_of};
pub use item::Item;
pub use laws::{cut_has_the_items, outline_is_in_path_order};
pub use numbers::{CameraFault, CameraField, CameraNumbers};
