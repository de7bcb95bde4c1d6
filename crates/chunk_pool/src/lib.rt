//! The numbers of the free chunks: a finite set that gives its least number first.
#![tactic(auto)]

mod pool;
#[cfg(test)]
mod tests;

pub use pool::Pool;
