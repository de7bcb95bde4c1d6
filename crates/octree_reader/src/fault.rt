ghost use Rattle.std.specs.Prelude.{◌≡◌};

use std::alloc::AllocError;

/// Why bytes are not opened as a file of an octree: the first of these that applies.
#[derive(Clone, Copy, Debug, PartialEq, Eq)]
pub enum FileFault {
    /// The first five bytes are not those of each file.
    Magic,
    /// There are fewer than 22 bytes, the cube does not fit the space, or the leaf limit is not 1 to 50,000.
    Head,
    /// No list of points has an octree with this file.
    Tree,
    /// There was no memory.
    Memory,
}

impl From<AllocError> for FileFault {
    ghost use Rattle.octree_reader.specs.declared.fault.FileFault.TheVariants.{Memory};

    ghost from_gives = { λ _ made. made ≡ Memory };

    fn from(_error: AllocError) -> FileFault {
        FileFault::Memory
    }
}
