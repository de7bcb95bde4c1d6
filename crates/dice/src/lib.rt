//! Numbers that look random and are the same in each run.
#![tactic(auto)]

mod dice;
#[cfg(test)]
mod tests;

pub use dice::Dice;
