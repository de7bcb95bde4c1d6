/// Why a bound refused a batch. `at` is the length of the journal at that moment, but in `Outside` the
/// place in the batch, from 0, of its first point outside the cube.
#[derive(Clone, Copy, Debug, PartialEq, Eq)]
pub enum Cause {
    /// The cube does not contain the point at this place.
    Outside {
        at: u32,
    },
    /// `admitted` points and the batch's `n` are together more than `most`.
    Points {
        at: u32,
        admitted: u32,
        n: u32,
        most: u32,
    },
    /// `need` chunks are more than those that are free, while `held` wait to be cleared.
    Chunks {
        at: u32,
        need: u64,
        free: u32,
        held: u32,
    },
    /// The octree with the batch has `need` nodes, more than `most`.
    Nodes {
        at: u32,
        need: u64,
        most: u32,
    },
}

/// A batch that a bound refused, by its input number, which counts from 0.
#[derive(Clone, Copy, Debug, PartialEq, Eq)]
pub struct RefusedRow {
    pub input: u32,
    pub cause: Cause,
}

/// Why a store refused a batch. `at` is the length of the journal at that moment.
#[derive(Clone, Copy, Debug, PartialEq, Eq)]
pub enum Refused {
    /// `admitted` points and the batch's `n` are together more than `most`.
    PointsFull {
        at: u32,
        admitted: u32,
        n: u32,
        most: u32,
    },
    /// `need` chunks are more than those that are free, while `held` wait to be cleared.
    ChunksFull {
        at: u32,
        need: u64,
        free: u32,
        held: u32,
    },
    /// The octree with the batch has `need` nodes, more than `most`.
    NodesFull {
        at: u32,
        need: u64,
        most: u32,
    },
    /// There was no memory.
    Memory,
}
