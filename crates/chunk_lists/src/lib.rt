//! The lists of leaves by atomic words: their owner, who fills, shuts, sweeps and clears them while others file.
#![tactic(auto)]

mod keeper;
mod knife;
mod sweeping;
mod wiping;

pub use knife::Knife;
pub use list_filers::{Filer, Reader};
pub use list_table::SharedLists as Lists;
