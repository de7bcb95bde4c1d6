//! The reader of XYZ text: lines of coordinates, with or without an intensity and a colour, to points.
#![tactic(auto)]

mod fields;
mod lines;
mod numbers;
mod points;
mod reader;
#[cfg(test)]
mod tests;

pub use reader::{XyzFault, read_xyz};
