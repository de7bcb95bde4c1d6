use std::marker::Model;

/// A cell of an inner node's grid in which a point falls, with a colour number.
#[derive(Clone, Copy, Debug, PartialEq, Eq)]
pub struct Voxel {
    /// The number of the cell, below 2^21.
    pub cell: u32,
    /// The colour number, below 2^24.
    pub rgb: u32,
}

impl Model for Voxel {
    ghost use Rattle.std.specs.Prelude.{◌<◌, ◌^◌};
    ghost use Rattle.octree_model.specs.Voxels.{VoxelValue};

    ghost Value = { VoxelValue };

    ghost view = { λ v. record { cell = v.cell; rgb = v.rgb } };

    ghost invariant = { λ v. (v.cell < 2 ^ 21) × (v.rgb < 2 ^ 24) };

    ghost inverse = { λ v. record { cell = v.cell; rgb = v.rgb } };
}
