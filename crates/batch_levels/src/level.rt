ghost use Rattle.std.specs.Prelude.{◌≡◌};

use crate::node_runs::NodeRuns;
use cube_math::Point;
use sqlite_items::Items;

/// A node with what is kept of it for the batches to come, and the nodes below it.
#[cycle(level)]
#[derive(Drop)]
pub enum Level {
    /// A leaf: its points, in the order in which they came.
    Leaf(Items<Point>),
    Inner(InnerLevel),
}

/// An inner node: how many points lie in its cube, the runs of their least keys, and the eight nodes below in
/// order of octants.
#[cycle(level)]
#[derive(Drop)]
pub struct InnerLevel {
    pub(crate) count: u32,
    pub(crate) runs: NodeRuns,
    pub(crate) levels: Items<Level>,
}

impl InnerLevel {
    /// How many points lie in the node's cube.
    pub fn count(&self) -> u32
        ensures { result ≡ self.now.count }
    {
        self.count
    }

    /// The runs of the points.
    pub fn runs(&self) -> &NodeRuns
        ensures { result.now ≡ self.now.runs }
    {
        &self.runs
    }

    /// The eight nodes below, by octant.
    pub fn levels(&self) -> &[Level]
        ensures { result.now ≡ self.now.levels }
    {
        self.levels.as_slice()
    }
}
