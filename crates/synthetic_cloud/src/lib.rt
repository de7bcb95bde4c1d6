//! Clouds that are made from a number, and are the same in each run.
#![tactic(auto)]

mod generator;
#[cfg(test)]
mod tests;

pub use generator::generate;
