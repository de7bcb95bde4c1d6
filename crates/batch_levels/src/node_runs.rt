ghost use Rattle.std.specs.Prelude.{◌≡◌, ◌++◌, IfOk, OnOk, map};
ghost use Rattle.voxel_sampler.specs.Nears.{least_nears, voxel_of};
ghost use Rattle.least_runs.specs.Runs.{joined_run};

use least_runs::{CellTable, LeastRun, is_join_due};
use octree_model::Voxel;
use std::alloc::{AllocError, Global};
use std::marker::Model;
use std::sync::Arc;

/// The runs of an inner node, one for each batch whose points it got, but for those that are joined. Contracts see them
/// as the least entry of each cell over all of them.
#[derive(Drop)]
pub struct NodeRuns {
    runs: Vec<Arc<LeastRun>>,
}

impl Model for NodeRuns {
    ghost use Rattle.std.specs.Prelude.{List, map};
    ghost use Rattle.voxel_sampler.specs.Nears.{NearValue};
    ghost use Rattle.least_runs.specs.Runs.{joined_run};

    ghost Value = { List NearValue };

    ghost view = { λ n. joined_run (map (λ run. run.value) n.runs.items) };
}

impl NodeRuns {
    /// One run.
    pub(crate) fn of(alloc: Global, run: LeastRun) -> Result<NodeRuns, AllocError>
        ensures { IfOk result (λ runs. runs ≡ least_nears run) }
    {
        let share = Arc::new(alloc, run)?;
        let mut runs = Vec::new(alloc);
        runs.push(share)?;
        Ok(NodeRuns { runs })
    }

    /// One run more. Where it is due they are joined.
    pub(crate) fn add(
        &mut self,
        alloc: Global,
        table: &mut CellTable,
        run: LeastRun,
    ) -> Result<(), AllocError>
        ensures { OnOk result (self.new ≡ least_nears (self.old ++ run)) }
    {
        let share = Arc::new(alloc, run)?;
        self.runs.push(share)?;
        if is_join_due(&self.runs) {
            let joined = Arc::new(alloc, table.join(alloc, &self.runs)?)?;
            self.runs.clear();
            self.runs.push(joined)?;
        }
        Ok(())
    }

    /// The runs.
    pub fn runs(&self) -> &[Arc<LeastRun>]
        ensures { joined_run (map (λ run. run.value) result.now) ≡ self.now }
    {
        self.runs.as_slice()
    }

    /// The node's voxels.
    pub fn voxels(&self, alloc: Global, table: &mut CellTable) -> Result<Vec<Voxel>, AllocError>
        ensures { IfOk result (λ voxels. voxels.items ≡ map voxel_of self.now) }
    {
        table.voxels_of(alloc, &self.runs)
    }
}
