ghost use Rattle.std.specs.Prelude.{◌≡◌, []};

use cube_math::Path;
use std::alloc::Global;

/// What a plan has named so far, and how many spills it has used.
#[derive(Drop)]
pub struct Progress {
    pub(crate) used: usize,
    pub(crate) splits: Vec<Path>,
    pub(crate) leaves: Vec<Path>,
}

impl Progress {
    /// Nothing yet. It takes no memory.
    pub(crate) fn new(alloc: Global) -> Progress
        ensures used { result.used ≡ 0 }
        ensures splits { result.splits.items ≡ [] }
        ensures leaves { result.leaves.items ≡ [] }
    {
        Progress {
            used: 0,
            splits: Vec::new(alloc),
            leaves: Vec::new(alloc),
        }
    }
}
