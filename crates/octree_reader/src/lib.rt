//! The reader of files of octrees: bytes that are the file of an octree are opened, and all others refused.
#![tactic(auto)]

mod fault;
mod fields;
mod head;
mod laws;
mod nodes;
mod opening;
#[cfg(test)]
mod tests;

pub use fault::FileFault;
pub use laws::files_have_heads;
pub use opening::{Saved, open_file};
