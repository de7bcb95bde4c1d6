//! Points, cubes of space with their octants and cells, paths of nodes, batches of points, and the bounds of a store.
#![tactic(auto)]

mod batch;
mod config;
mod cube;
mod path;
mod point;
mod refused;
#[cfg(test)]
mod tests;

pub use batch::{Batch, BatchRefusal, first_outside};
pub use config::{Config, Entry};
pub use cube::Cube;
pub use path::Path;
pub use point::Point;
pub use refused::{Cause, Refused, RefusedRow};
