ghost use Rattle.std.specs.Prelude.{◌≡◌, ◌<◌, ◌^◌, IsTrue, nat_lt, if◌then◌else◌};
ghost use Rattle.cube_math.specs.Cubes.{contains};
ghost use Rattle.voxel_sampler.specs.Nears.{near_key, near_of, voxel_of};

use cube_math::{Cube, Point};
use octree_model::Voxel;
use std::marker::Model;

/// The least key of a cell: the square of the distance of a point from the cell's middle, and the point's
/// colour number.
#[derive(Clone, Copy, Debug, PartialEq, Eq)]
pub struct Near {
    /// The square of the distance. It stands first, so that no entry has gaps.
    pub far: u64,
    /// The number of the cell, below 2^21.
    pub cell: u32,
    /// The colour number, below 2^24.
    pub rgb: u32,
}

impl Model for Near {
    ghost use Rattle.std.specs.Prelude.{◌<◌, ◌^◌};
    ghost use Rattle.voxel_sampler.specs.Nears.{NearValue};

    ghost Value = { NearValue };

    ghost view = { λ n. record { cell = n.cell; far = n.far; rgb = n.rgb } };

    ghost invariant = { λ n. (n.cell < 2 ^ 21) × (n.rgb < 2 ^ 24) };

    ghost inverse = { λ n. record { cell = n.cell; far = n.far; rgb = n.rgb } };
}

impl Near {
    /// The cell of a point, with the point's key.
    pub fn of(cube: &Cube, p: &Point) -> Near
        requires contained { IsTrue (contains cube.now p.now) }
        requires splits { 7 < cube.now.bits }
        ensures value { result ≡ near_of cube.now p.now }
        ensures below { result.cell < 2 ^ 21 }
    {
        Near {
            cell: cube.cell(p),
            far: cube.far(p),
            rgb: p.rgb,
        }
    }

    /// Whether the key is less than that of the other.
    pub fn is_below(&self, other: &Near) -> bool
        ensures { result ≡ nat_lt (near_key self.now) (near_key other.now) }
    {
        if self.far == other.far {
            self.rgb < other.rgb
        } else {
            self.far < other.far
        }
    }

    /// The one of the two that has the lesser key.
    pub fn lesser(self, other: Near) -> Near
        ensures { result ≡ (if nat_lt (near_key other) (near_key self) then other else self) }
    {
        if other.is_below(&self) { other } else { self }
    }

    /// The cell with the colour of its least key.
    pub fn voxel(&self) -> Voxel
        ensures { result ≡ voxel_of self.now }
    {
        Voxel {
            cell: self.cell,
            rgb: self.rgb,
        }
    }
}
