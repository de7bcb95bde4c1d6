//! A small caller of the front, and worked turns as tests: what no clause can say, that passes in one
//! thread and in many get their turns, and that the closed record is what they did.
#![tactic(auto)]

#[cfg(test)]
mod alone;
pub mod crowd;
#[cfg(test)]
mod crowds;
pub mod log;
#[cfg(test)]
mod pair;
#[cfg(test)]
mod threads;
pub mod turn;
