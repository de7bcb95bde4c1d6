ghost use Rattle.std.specs.Prelude.{◌≡◌};
ghost use Rattle.voxel_sampler.specs.Nears.{cells_of};
ghost use Rattle.voxel_sampler.specs.Order.{IsAscending};

use std::marker::Model;
use voxel_sampler::Near;

/// Keys of cells of one node, ascending by cell, one a cell. It never changes, so that versions and threads
/// may share it.
#[derive(Drop)]
pub struct LeastRun {
    nears: Vec<Near>,
}

impl Model for LeastRun {
    ghost use Rattle.std.specs.Prelude.{List};
    ghost use Rattle.voxel_sampler.specs.Nears.{NearValue, cells_of};
    ghost use Rattle.voxel_sampler.specs.Order.{IsAscending};

    ghost Value = { List NearValue };

    ghost view = { λ r. r.nears.items };

    ghost invariant = { λ r. IsAscending (cells_of r.nears.items) };
}

impl LeastRun {
    /// A run of these keys, moved in.
    pub fn new(nears: Vec<Near>) -> LeastRun
        requires { IsAscending (cells_of nears.items) }
        ensures { result ≡ nears.items }
    {
        LeastRun { nears }
    }

    /// The keys, ascending by cell.
    pub fn nears(&self) -> &[Near]
        ensures list { result.now ≡ self.now }
        ensures ascending { IsAscending (cells_of self.now) }
    {
        self.nears.as_slice()
    }
}
