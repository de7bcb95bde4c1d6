ghost use Rattle.std.specs.Prelude.{◌≡◌, []};
ghost use Rattle.voxel_sampler.specs.Nears.{cells_of};
ghost use Rattle.voxel_sampler.specs.Order.{IsAscending};

use crate::near::Near;
use std::alloc::Global;
use std::marker::Model;

/// The least key of each cell of a node in which a point fell, ascending by cell.
#[derive(Drop)]
pub struct Best {
    nears: Vec<Near>,
}

impl Model for Best {
    ghost use Rattle.std.specs.Prelude.{List};
    ghost use Rattle.voxel_sampler.specs.Nears.{NearValue, cells_of};
    ghost use Rattle.voxel_sampler.specs.Order.{IsAscending};

    ghost Value = { List NearValue };

    ghost view = { λ b. b.nears.items };

    ghost invariant = { λ b. IsAscending (cells_of b.nears.items) };
}

impl Best {
    /// No key. It takes no memory.
    pub fn new(alloc: Global) -> Best
        ensures { result ≡ [] }
    {
        Best {
            nears: Vec::new(alloc),
        }
    }

    /// The keys, ascending by cell.
    pub fn list(&self) -> &[Near]
        ensures list { result.now ≡ self.now }
        ensures ascending { IsAscending (cells_of self.now) }
    {
        self.nears.as_slice()
    }

    /// Takes other keys in place of those there. It takes no memory.
    pub(crate) fn replace(&mut self, nears: Vec<Near>)
        requires { IsAscending (cells_of nears.items) }
        ensures { self.new ≡ nears.items }
    {
        self.nears = nears;
    }
}
