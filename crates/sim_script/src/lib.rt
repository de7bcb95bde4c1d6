//! Schedules: which actor takes each step of a simulated run, read from a text.
#![tactic(auto)]

mod numbers;
mod reader;
#[cfg(test)]
mod tests;
mod turns;
mod words;

pub use reader::{ScheduleFault, read_schedule};
