//! The top call: what a run of the program does with its words, its files, its output and its error stream.
#![tactic(auto)]

mod bounds;
mod clouds;
mod demo;
mod faults;
mod octree;
mod output;
mod plain;
mod reading;
mod status;
mod words;

pub use plain::simlod_plain;
pub use status::Status;
