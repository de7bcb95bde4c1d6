ghost use Rattle.std.specs.Prelude.{◌≡◌, IfOk, map};
ghost use Rattle.least_runs.specs.Runs.{voxels_of};
ghost use Rattle.pinned_version.specs.Rows.{outline_node_of};

use cube_math::{Cube, Path};
use least_runs::{CellTable, LeastRun};
use octree_model::{OutlineNode, Voxel};
use std::alloc::{AllocError, Global};
use std::marker::Model;
use std::sync::Arc;

/// The chunks of the two chains of a leaf's list, by their numbers, each chain in its order.
#[derive(Debug, Drop)]
pub struct Chains {
    claimed: Vec<u32>,
    owned: Vec<u32>,
}

impl Model for Chains {
    ghost use Rattle.version_rows.specs.Versions.{ChainsValue};

    ghost Value = { ChainsValue };

    ghost view = { λ c. record { claimed = c.claimed.items; owned = c.owned.items } };
}

impl Chains {
    /// Chains of these chunks, moved in.
    pub fn new(claimed: Vec<u32>, owned: Vec<u32>) -> Chains
        ensures { result ≡ record { claimed = claimed.items; owned = owned.items } }
    {
        Chains { claimed, owned }
    }

    /// The chunks in whose slots loaders file.
    pub fn claimed(&self) -> &[u32]
        ensures { result.now ≡ self.now.claimed }
    {
        self.claimed.as_slice()
    }

    /// The chunks in whose slots the owner places items.
    pub fn owned(&self) -> &[u32]
        ensures { result.now ≡ self.now.owned }
    {
        self.owned.as_slice()
    }
}

/// The runs of least keys of an inner node, which versions share. Contracts see the list of them, each a list of keys.
#[derive(Drop)]
pub struct Runs {
    runs: Vec<Arc<LeastRun>>,
}

impl Model for Runs {
    ghost use Rattle.std.specs.Prelude.{List, map};
    ghost use Rattle.voxel_sampler.specs.Nears.{NearValue};

    ghost Value = { List (List NearValue) };

    ghost view = { λ r. map (λ run. run.value) r.runs.items };
}

impl Runs {
    /// These runs, moved in.
    pub fn new(runs: Vec<Arc<LeastRun>>) -> Runs
        ensures { result ≡ map (λ run. run.value) runs.items }
    {
        Runs { runs }
    }

    /// The runs.
    pub fn runs(&self) -> &[Arc<LeastRun>]
        ensures { map (λ run. run.value) result.now ≡ self.now }
    {
        self.runs.as_slice()
    }

    /// The node's voxels: each cell with the colour of its least entry over the runs, ascending by cell.
    pub fn voxels(&self, alloc: Global, table: &mut CellTable) -> Result<Vec<Voxel>, AllocError>
        ensures { IfOk result (λ voxels. voxels.items ≡ voxels_of self.now) }
    {
        table.voxels_of(alloc, &self.runs)
    }
}

/// What a node is: a leaf with the chains of its list, or an inner node with its runs.
#[derive(Drop)]
pub enum Role {
    Leaf(Chains),
    Inner(Runs),
}

/// The row of a node.
#[derive(Drop)]
pub struct NodeRow {
    /// Where it stands in the octree.
    pub path: Path,
    /// Its cube.
    pub cube: Cube,
    /// How many published points lie in its cube.
    pub count: u64,
    /// How many points in its cube were admitted before the publication, published or not.
    pub admitted: u64,
    /// What it is.
    pub role: Role,
}

impl NodeRow {
    /// The node without its numbers, chains and runs.
    pub(crate) fn outline_node(&self) -> OutlineNode
        ensures { result ≡ outline_node_of self.now }
    {
        OutlineNode {
            path: self.path,
            cube: self.cube,
            inner: matches!(self.role, Role::Inner(_)),
        }
    }
}
