//! Pictures of what a camera sees: the items of nodes, the square that each covers, a canvas on which they
//! are drawn, and the bytes of the picture.
#![tactic(auto)]

mod canvas;
mod frame;
mod items;
mod laws;
mod picture;
mod pixels;
mod spot;
mod square;
#[cfg(test)]
mod tests;

pub use camera_cut::Item;
pub use canvas::{Canvas, NO_KEY, splat};
pub use frame::Frame;
pub use items::{leaf_items, point_item, voxel_item, voxel_items};
pub use laws::{order_of_items_is_of_no_matter, same_points_have_same_picture};
pub use picture::{picture_of, ppm};
pub use pixels::Square;
pub use spot::{Spot, project};
pub use square::square_of;
