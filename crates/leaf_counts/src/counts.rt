ghost use Rattle.std.specs.Prelude.{◌≡◌, [], Some};
ghost use Rattle.leaf_counts.specs.Nodes.{count_at};

use sqlite_items::Items;

/// A node with its number of points, and the nodes below it.
#[cycle(counts)]
#[derive(Drop)]
pub enum Counts {
    /// A leaf.
    Leaf(u32),
    /// An inner node, with what stands below it in the order of octants.
    Inner(u32, Items<Counts>),
}

impl Counts {
    /// How many points lie in the node's cube.
    pub fn count(&self) -> u32
        ensures { count_at self.now [] ≡ Some result }
    {
        match self {
            Counts::Leaf(count) => *count,
            Counts::Inner(count, _) => *count,
        }
    }
}
