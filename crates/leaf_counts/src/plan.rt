ghost use Rattle.std.specs.Prelude.{◌≡◌};

use crate::growth::Growth;
use cube_math::{Path, Point};
use std::alloc::AllocError;
use std::marker::Model;

/// The points of an over-full leaf.
#[derive(Drop)]
pub struct Spill {
    pub path: Path,
    pub points: Vec<Point>,
}

/// What a batch does to a skeleton, with all the memory that doing it needs: the nodes that change, and no
/// others.
#[derive(Drop)]
pub struct Plan {
    pub(crate) growth: Growth,
    pub(crate) nodes: u32,
    pub(crate) splits: Vec<Path>,
    pub(crate) leaves: Vec<Path>,
}

impl Model for Plan {
    ghost use Rattle.leaf_counts.specs.Plans.{PlanValue};

    ghost Value = { PlanValue };

    ghost use Rattle.leaf_counts.specs.contracts.growth.Growth as rows;
    ghost use Rattle.std.specs.Coded.{codes};

    ghost coded = { Prim.hlevel (codes, rows.the_row.coded) };

    ghost view = { λ p. record { growth = p.growth; nodes = p.nodes; splits = p.splits.items; leaves = p.leaves.items } };
}

impl Plan {
    /// The paths of the nodes that become inner nodes, in path order.
    pub fn splits(&self) -> &[Path]
        ensures { result.now ≡ self.now.splits }
    {
        self.splits.as_slice()
    }

    /// The paths of the nodes that become leaves and were none, in path order.
    pub fn leaves(&self) -> &[Path]
        ensures { result.now ≡ self.now.leaves }
    {
        self.leaves.as_slice()
    }
}

/// Why nothing was planned.
#[derive(Clone, Copy, Debug, PartialEq, Eq)]
pub enum PlanRefusal {
    /// There would be `need` nodes, more than `most`.
    NodesFull { need: u64, most: u32 },
    /// There was no memory.
    Memory,
}

impl From<AllocError> for PlanRefusal {
    ghost use Rattle.leaf_counts.specs.declared.plan.PlanRefusal.TheVariants.{Memory};

    ghost from_gives = { λ _ made. made ≡ Memory };

    fn from(_error: AllocError) -> PlanRefusal {
        PlanRefusal::Memory
    }
}
