ghost use Rattle.std.specs.Prelude.{◌≡◌, ◌<◌, ◌≤◌, ◌^◌, List, Option, Some, None, All, IfOk, IfErr, IsTrue, length, option_map};
ghost use Rattle.cube_math.specs.Cubes.{contains};
ghost use Rattle.cube_math.specs.Points.{PointValue};
ghost use Rattle.octree_model.specs.Octree.{octree};
ghost use Rattle.batch_bounds.specs.Bounds.{first_refusal, refusal};
ghost use Rattle.batch_bounds.specs.Stops.{IsCut, CanCut, IsFirst, Refuses, early_at};
ghost use Rattle.batch_bounds.specs.declared.admission.Refusal.TheVariants.{Memory};

use crate::limits::Limits;
use crate::search::{counted, first_over, nodes_of};
use crate::stop::{Stop, earlier, first_outside_batch, first_too_many, start_of};
use cube_math::{Cube, Point, RefusedRow};
use octree_plain::Tree;
use std::alloc::{AllocError, Global};

/// Why there is no octree.
#[derive(Clone, Copy, Debug, PartialEq, Eq)]
pub enum Refusal {
    /// A bound refuses this batch, and none before it.
    Batch { row: RefusedRow },
    /// There was no memory.
    Memory,
}

impl From<AllocError> for Refusal {
    ghost from_gives = { λ _ e. e ≡ Memory };

    fn from(_error: AllocError) -> Refusal {
        Refusal::Memory
    }
}

/// The octree of points that are cut into batches, unless a bound refuses one: then the first such.
pub fn build_within(
    alloc: Global,
    points: &[Point],
    ends: &[usize],
    cube: &Cube,
    limits: &Limits,
) -> Result<Tree, Refusal>
    requires cut { CanCut points.now ends.now }
    requires few { length points.now < 2 ^ 32 }
    requires batches { length ends.now < 2 ^ 32 }
    requires leaf { 1 ≤ limits.now.leaf }
    requires nodes { 1 ≤ limits.now.nodes }
    ensures built { IfOk result (λ tree. tree ≡ octree limits.now.leaf cube.now points.now) }
    ensures admitted { (batches : List (List PointValue)) → IsCut points.now ends.now batches → IfOk result (λ tree. first_refusal cube.now limits.now batches ≡ None) }
    ensures refused { (batches : List (List PointValue)) → IsCut points.now ends.now batches → IfErr result (λ refusal. Refuses refusal (first_refusal cube.now limits.now batches)) }
{
    let outside = first_outside_batch(points, ends, cube);
    match earlier(outside, first_too_many(ends, limits.points)) {
        Some(stop) => match first_before(alloc, points, ends, cube, limits, stop) {
            Ok(first) => Err(Refusal::Batch { row: first.row }),
            Err(_) => Err(Refusal::Memory),
        },
        None => build_all(alloc, points, ends, cube, limits),
    }
}

/// The first batch that is refused, where this is the first that is refused for a point outside or for
/// points: itself, unless one before it makes too many nodes.
fn first_before(
    alloc: Global,
    points: &[Point],
    ends: &[usize],
    cube: &Cube,
    limits: &Limits,
    stop: Stop,
) -> Result<Stop, AllocError>
    requires cut { CanCut points.now ends.now }
    requires few { length points.now < 2 ^ 32 }
    requires batches { length ends.now < 2 ^ 32 }
    requires leaf { 1 ≤ limits.now.leaf }
    requires stop { (batches : List (List PointValue)) → IsCut points.now ends.now batches → IsFirst (early_at cube.now limits.now.points batches) (length batches) (Some stop) }
    ensures { (batches : List (List PointValue)) → IsCut points.now ends.now batches
        → IfOk result (λ first. IsFirst (refusal cube.now limits.now batches) (length batches) (Some first)) }
{
    if stop.batch == 0 {
        return Ok(stop);
    }
    let admitted = &points[..start_of(ends, stop.batch)];
    let need = nodes_of(alloc, admitted, cube, limits.leaf)?;
    if need <= u64::from(limits.nodes) {
        return Ok(stop);
    }
    let first = first_over(alloc, admitted, &ends[..stop.batch], cube, limits, need)?;
    Ok(first)
}

/// The octree of all points, unless a batch makes too many nodes: then the first such.
fn build_all(
    alloc: Global,
    points: &[Point],
    ends: &[usize],
    cube: &Cube,
    limits: &Limits,
) -> Result<Tree, Refusal>
    requires cut { CanCut points.now ends.now }
    requires few { length points.now < 2 ^ 32 }
    requires batches { length ends.now < 2 ^ 32 }
    requires leaf { 1 ≤ limits.now.leaf }
    requires nodes { 1 ≤ limits.now.nodes }
    requires none { (batches : List (List PointValue)) → IsCut points.now ends.now batches → IsFirst (early_at cube.now limits.now.points batches) (length batches) None }
    ensures built { IfOk result (λ tree. tree ≡ octree limits.now.leaf cube.now points.now) }
    ensures admitted { (batches : List (List PointValue)) → IsCut points.now ends.now batches → IfOk result (λ tree. first_refusal cube.now limits.now batches ≡ None) }
    ensures refused { (batches : List (List PointValue)) → IsCut points.now ends.now batches → IfErr result (λ e. Refuses e (first_refusal cube.now limits.now batches)) }
{
    let (tree, need) = counted(alloc, points, cube, limits.leaf)?;
    if need > u64::from(limits.nodes) {
        let stop = first_over(alloc, points, ends, cube, limits, need)?;
        return Err(Refusal::Batch { row: stop.row });
    }
    Ok(tree)
}
