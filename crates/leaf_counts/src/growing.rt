ghost use Rattle.std.specs.Prelude.{◌≡◌, ◌+◌, ◌++◌, ◌≤◌, List, [], IfOk, length};
ghost use Rattle.cube_math.specs.Cubes.{CubeValue, FitsSpace};
ghost use Rattle.cube_math.specs.Points.{PointValue};
ghost use Rattle.leaf_counts.specs.Growing.{CanGrow, IsGrowing, IsGrown};

use crate::counts::Counts;
use crate::growth::Growth;
use crate::plan::Spill;
use crate::progress::Progress;
use crate::splitting::split;
use cube_math::{Cube, Path, Point};
use octree_plain::spread;
use sqlite_items::Items;
use std::alloc::{AllocError, Global};

/// How the counts of a node change by a batch's points in its cube. Names the nodes that become inner
/// nodes and leaves, and uses the spills of the leaves that the points make over-full.
pub(crate) fn grow(
    alloc: Global,
    progress: &mut Progress,
    spills: &[Spill],
    counts: &Counts,
    path: Path,
    cube: Cube,
    leaf: u32,
    points: &[Point],
) -> Result<Growth, AllocError>
    requires growing { CanGrow leaf path cube counts.now points.now spills.now progress.old.used }
    requires room { length path + cube.bits ≤ 31 }
    ensures { (root : CubeValue) (before batch : List PointValue) → IsGrowing root before batch leaf path cube counts.now points.now spills.now progress.old.used
        → IfOk result (λ growth. IsGrown before batch leaf path cube counts.now progress.old progress.new growth) }
{
    if points.is_empty() {
        return Ok(Growth::Same);
    }
    match counts {
        Counts::Leaf(count) => {
            if cube.bits > 7 && u64::from(*count) + points.len() as u64 > u64::from(leaf) {
                let spill = &spills[progress.used];
                progress.used += 1;
                let all = both(alloc, spill.points.as_slice(), points)?;
                Ok(Growth::New(split(alloc, progress, all, path, cube, leaf)?))
            } else {
                Ok(Growth::New(Counts::Leaf(count + points.len() as u32)))
            }
        }
        Counts::Inner(count, children) => {
            let lists = spread(alloc, &cube, points)?;
            let mut growths = Vec::with_capacity(alloc, 8)?;
            let mut places = Vec::with_capacity(alloc, 8)?;
            for (g, below) in children.as_slice().iter().enumerate() {
                let octant = g as u8;
                growths.push(grow(
                    alloc,
                    progress,
                    spills,
                    below,
                    path.child(octant),
                    cube.child(octant),
                    leaf,
                    lists[g].as_slice(),
                )?)?;
                places.push(Counts::Leaf(0))?;
            }
            Ok(Growth::Each(
                count + points.len() as u32,
                Items::from_vec(growths),
                Items::from_vec(places),
            ))
        }
    }
}

/// As `grow`, of a whole tree in its cube.
pub(crate) fn grow_all(
    alloc: Global,
    progress: &mut Progress,
    spills: &[Spill],
    counts: &Counts,
    cube: Cube,
    leaf: u32,
    points: &[Point],
) -> Result<Growth, AllocError>
    requires { CanGrow leaf [] cube counts.now points.now spills.now progress.old.used }
    ensures fits { FitsSpace cube.ox cube.oy cube.oz cube.bits }
    ensures grown { (root : CubeValue) (before batch : List PointValue) → IsGrowing root before batch leaf [] cube counts.now points.now spills.now progress.old.used
        → IfOk result (λ growth. IsGrown before batch leaf [] cube counts.now progress.old progress.new growth) }
{
    // So that no path gets longer than 24 octants.
    prove!(cube.bits <= 31);
    grow(
        alloc,
        progress,
        spills,
        counts,
        Path::root(),
        cube,
        leaf,
        points,
    )
}

/// The first points and then the second ones.
fn both(alloc: Global, first: &[Point], second: &[Point]) -> Result<Vec<Point>, AllocError>
    ensures { IfOk result (λ points. points.items ≡ first.now ++ second.now) }
{
    let mut points = Vec::with_capacity(alloc, first.len().saturating_add(second.len()))?;
    points.extend_from_slice(first)?;
    points.extend_from_slice(second)?;
    Ok(points)
}
