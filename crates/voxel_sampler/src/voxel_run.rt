ghost use Rattle.std.specs.Prelude.{◌≡◌};
ghost use Rattle.voxel_sampler.specs.Order.{IsAscending};
ghost use Rattle.voxel_sampler.specs.Runs.{voxel_cells};

use octree_model::Voxel;
use std::marker::Model;

/// The voxels that one merge added or coloured anew, ascending by cell.
#[derive(Drop)]
pub struct VoxelRun {
    voxels: Vec<Voxel>,
}

impl Model for VoxelRun {
    ghost use Rattle.std.specs.Prelude.{List};
    ghost use Rattle.octree_model.specs.Voxels.{VoxelValue};
    ghost use Rattle.voxel_sampler.specs.Order.{IsAscending};
    ghost use Rattle.voxel_sampler.specs.Runs.{voxel_cells};

    ghost Value = { List VoxelValue };

    ghost view = { λ r. r.voxels.items };

    ghost invariant = { λ r. IsAscending (voxel_cells r.voxels.items) };
}

impl VoxelRun {
    /// A run of these voxels, moved in.
    pub fn new(voxels: Vec<Voxel>) -> VoxelRun
        requires { IsAscending (voxel_cells voxels.items) }
        ensures { result ≡ voxels.items }
    {
        VoxelRun { voxels }
    }

    /// The voxels, ascending by cell.
    pub fn voxels(&self) -> &[Voxel]
        ensures voxels { result.now ≡ self.now }
        ensures ascending { IsAscending (voxel_cells self.now) }
    {
        self.voxels.as_slice()
    }
}
