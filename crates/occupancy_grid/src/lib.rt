//! A set of the cells of an inner node, as bits in pages that are made as they are needed.
#![tactic(auto)]

mod grid;
#[cfg(test)]
mod tests;

pub use grid::Grid;
