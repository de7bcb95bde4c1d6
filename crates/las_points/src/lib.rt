//! The reader of uncompressed LAS files, versions 1.2 to 1.4: points with coordinates and colours.
#![tactic(auto)]

mod fields;
mod formats;
mod header;
mod reader;
mod records;
#[cfg(test)]
mod tests;

pub use reader::{LasCloud, LasFault, RgbByte, read_las};
