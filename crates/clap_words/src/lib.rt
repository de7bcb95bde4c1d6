//! The words of a command line, options `--name=value` and files, read by `clap`.
#![tactic(auto)]

mod command;
mod given;

pub use given::Given;
