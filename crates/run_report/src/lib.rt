//! The texts of a run: the line that tells why it ended early.
#![tactic(auto)]

mod fault;
mod line;
mod name;

pub use fault::Fault;
pub use line::{fault_line, out_of_memory_line, output_fault_line};
pub use name::Name;
