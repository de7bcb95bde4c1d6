//! How many chunks a store has where the words give no number.
ghost use Rattle.std.specs.Prelude.{◌≡◌, ◌≤◌, min};
ghost use Rattle.chunk_pool.specs.Amounts.{enough};

#[cfg(test)]
mod tests;

// The most chunks that a store may have.
const MOST_CHUNKS: u64 = 1_000_000;

// How many items have room in a chunk.
const SLOTS: u64 = 256;

/// The chunks of a store where none are given: as many as never run out in an octree of at most so many nodes whose root cube
/// has these bits, 7 to 31, while at most so many points are admitted; and at most 1,000,000.
pub fn default_chunks(bits: u32, nodes: u32, points: u32) -> u32
    requires low { 7 ≤ bits }
    requires high { bits ≤ 31 }
    ensures { result ≡ min 1000000 (enough bits points nodes) }
{
    let levels = u64::from(bits - 6);
    let filled = (u64::from(points) + (SLOTS - 1)) / SLOTS;
    MOST_CHUNKS.min(2 * u64::from(nodes) + levels * filled) as u32
}
