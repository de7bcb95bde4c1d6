//! The words of a world's lists, in rows: what each step does to one of them.
#![tactic(auto)]

mod rows;
#[cfg(test)]
mod tests;

pub use rows::Rows;
