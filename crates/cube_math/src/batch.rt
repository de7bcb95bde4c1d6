ghost use Rattle.std.specs.Prelude.{◌≡◌, ◌<◌, ◌≤◌, [], length, Some, None, OnOk, MatchResult, IfOk, IfErr, All, IsTrue};
ghost use Rattle.cube_math.specs.Refusals.{first_outside};

use crate::cube::Cube;
use crate::point::Point;
use std::marker::Model;

/// Points of one input, which a cube contains: at least one, and at most the bound `most`.
#[derive(Debug, Drop)]
pub struct Batch {
    input: u32,
    points: Vec<Point>,
    cube: Cube,
    most: u32,
}

impl Model for Batch {
    ghost use Rattle.cube_math.specs.Batches.{BatchValue, IsBatch};

    ghost Value = { BatchValue };

    ghost view = { λ b. record { input = b.input; points = b.points.items; cube = b.cube; most = b.most } };

    ghost invariant = { λ b. IsBatch b.points.items b.cube b.most };
}

/// Why points are no batch, tested in this order.
#[derive(Clone, Copy, Debug, PartialEq, Eq)]
pub enum BatchRefusal {
    /// There is no point.
    Empty,
    /// There are `n` points, more than `most`.
    TooMany { n: u64, most: u32 },
    /// The point at this place, from 0, is the first that the cube does not contain.
    Outside { at: u32 },
}

impl Batch {
    ghost use Rattle.cube_math.specs.Batches.{IsBatch};
    ghost use Rattle.cube_math.specs.Refusals.{refusal};

    /// A batch of these points, or the first refusal that applies and the points back.
    pub fn new(
        input: u32,
        points: Vec<Point>,
        cube: &Cube,
        most: u32,
    ) -> Result<Batch, (BatchRefusal, Vec<Point>)>
        ensures ok { IfOk result (λ b. b ≡ record { input = input; points = points.items; cube = cube.now; most = most }) }
        ensures accepted { OnOk result (refusal points.items cube.now most ≡ None) }
        ensures refused { IfErr result (λ e. refusal points.items cube.now most ≡ Some e.0) }
        ensures back { IfErr result (λ e. e.1.items ≡ points.items) }
    {
        if points.is_empty() {
            return Err((BatchRefusal::Empty, points));
        }
        if points.len() > most as usize {
            let n = points.len() as u64;
            return Err((BatchRefusal::TooMany { n, most }, points));
        }
        match first_outside(points.as_slice(), cube) {
            Some(at) => Err((BatchRefusal::Outside { at: at as u32 }, points)),
            None => Ok(Batch {
                input,
                points,
                cube: *cube,
                most,
            }),
        }
    }

    /// The number of the input, from 0.
    pub fn input(&self) -> u32
        ensures { result ≡ self.now.input }
    {
        self.input
    }

    /// The points, in the order of the input. The cube contains each of them.
    pub fn points(&self) -> &[Point]
        ensures value { result.now ≡ self.now.points }
        ensures kept { IsBatch self.now.points self.now.cube self.now.most }
    {
        self.points.as_slice()
    }

    /// The cube that contains the points.
    pub fn cube(&self) -> Cube
        ensures { result ≡ self.now.cube }
    {
        self.cube
    }

    /// The bound on the number of points.
    pub fn most(&self) -> u32
        ensures { result ≡ self.now.most }
    {
        self.most
    }
}

/// The place of the first point that the cube does not contain, or None where it contains them all.
pub fn first_outside(points: &[Point], cube: &Cube) -> Option<usize>
    ensures { result ≡ first_outside cube.now points.now }
{
    points.iter().position(|p| !cube.contains(p))
}
