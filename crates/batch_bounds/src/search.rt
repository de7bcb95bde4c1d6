ghost use Rattle.std.specs.Prelude.{◌≡◌, ◌<◌, ◌≤◌, ◌-◌, ◌^◌, List, Some, All, IfOk, IsTrue, length};
ghost use Rattle.cube_math.specs.Cubes.{contains};
ghost use Rattle.cube_math.specs.Points.{PointValue};
ghost use Rattle.octree_model.specs.Counts.{nodes};
ghost use Rattle.octree_model.specs.Octree.{octree};
ghost use Rattle.batch_bounds.specs.Stops.{IsCut, CanCut, IsFirst, need_at, nodes_at};

use crate::limits::Limits;
use crate::stop::Stop;
use cube_math::{Cause, Cube, Point, RefusedRow};
use octree_plain::{Tree, build, node_count};
use std::alloc::{AllocError, Global};

/// The first batch with which the octree has more than the most nodes, where it has `need` nodes with the
/// last batch, which are too many. Counts of nodes only grow, so it halves the batches in which to look.
pub fn first_over(
    alloc: Global,
    points: &[Point],
    ends: &[usize],
    cube: &Cube,
    limits: &Limits,
    need: u64,
) -> Result<Stop, AllocError>
    requires cut { CanCut points.now ends.now }
    requires some { 0 < length ends.now }
    requires few { length points.now < 2 ^ 32 }
    requires batches { length ends.now < 2 ^ 32 }
    requires leaf { 1 ≤ limits.now.leaf }
    requires contained { All (λ p. IsTrue (contains cube.now p)) points.now }
    requires need { need ≡ nodes (octree limits.now.leaf cube.now points.now) }
    requires over { limits.now.nodes < need }
    ensures { (batches : List (List PointValue)) → IsCut points.now ends.now batches
        → IfOk result (λ stop. IsFirst (nodes_at cube.now limits.now.leaf limits.now.nodes batches) (length batches) (Some stop)) }
{
    let mut low = 0usize;
    let mut high = ends.len() - 1;
    let mut need = need;
    while low < high {
        let middle = low + (high - low) / 2;
        let nodes = nodes_of(alloc, &points[..ends[middle]], cube, limits.leaf)?;
        if nodes > u64::from(limits.nodes) {
            high = middle;
            need = nodes;
        } else {
            low = middle + 1;
        }
    }
    Ok(Stop {
        batch: high,
        row: RefusedRow {
            input: high as u32,
            cause: Cause::Nodes {
                at: high as u32,
                need,
                most: limits.nodes,
            },
        },
    })
}

/// How many nodes the octree of points has.
pub fn nodes_of(alloc: Global, points: &[Point], cube: &Cube, leaf: u32) -> Result<u64, AllocError>
    requires few { length points.now < 2 ^ 32 }
    requires leaf { 1 ≤ leaf }
    requires contained { All (λ p. IsTrue (contains cube.now p)) points.now }
    ensures { IfOk result (λ count. count ≡ nodes (octree leaf cube.now points.now)) }
{
    let (_tree, count) = counted(alloc, points, cube, leaf)?;
    Ok(count)
}

/// The octree of points, and how many nodes it has.
pub fn counted(
    alloc: Global,
    points: &[Point],
    cube: &Cube,
    leaf: u32,
) -> Result<(Tree, u64), AllocError>
    requires few { length points.now < 2 ^ 32 }
    requires leaf { 1 ≤ leaf }
    requires contained { All (λ p. IsTrue (contains cube.now p)) points.now }
    ensures tree { IfOk result (λ found. found.0 ≡ octree leaf cube.now points.now) }
    ensures count { IfOk result (λ found. found.1 ≡ nodes (octree leaf cube.now points.now)) }
{
    // So that the cube fits the space.
    prove!(cube.bits <= 31);
    let tree = build(alloc, points, *cube, leaf)?;
    let count = node_count(&tree);
    Ok((tree, count))
}
