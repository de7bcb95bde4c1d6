//! A counter of steps that costs nothing when the program runs: it takes no bytes and its calls have no code.
#![tactic(auto)]

mod steps;
#[cfg(test)]
mod tests;

pub use steps::Steps;
