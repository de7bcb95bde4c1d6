use crate::cube::Cube;

/// What a store of points is made with: its root cube and its bounds.
#[derive(Clone, Copy, Debug, PartialEq, Eq)]
pub struct Config {
    /// The cube of the octree's root.
    pub cube: Cube,
    /// The most points of a leaf whose cube could be split, 1 to 50,000.
    pub leaf: u32,
    /// The most nodes of the octree, 1 to 200,000.
    pub nodes: u32,
    /// The most points that are admitted, 1 to 10,000,000.
    pub points: u32,
    /// How many chunks there are, 1 to 1,000,000.
    pub chunks: u32,
    /// The most points of a batch, 1 to 50,000.
    pub batch: u32,
}

/// A published batch in a journal: the number of its input, from 0, its loader, and how many points it has.
#[derive(Clone, Copy, Debug, PartialEq, Eq)]
pub struct Entry {
    pub input: u32,
    pub loader: u32,
    pub len: u32,
}
