ghost use Rattle.std.specs.Prelude.{◌≡◌, ◌+◌, ◌++◌, ◌≤◌, ◌<◌, ◌^◌, All, IsTrue, IfOk, length, map};
ghost use Rattle.cube_math.specs.Cubes.{contains};
ghost use Rattle.octree_model.specs.Octree.{octree};
ghost use Rattle.leaf_counts.specs.Nodes.{counted};
ghost use Rattle.leaf_counts.specs.Paths.{inner_paths, leaf_paths};

use crate::counts::Counts;
use crate::progress::Progress;
use cube_math::{Cube, Path, Point};
use octree_plain::spread;
use sqlite_items::Items;
use std::alloc::{AllocError, Global};

/// The counts of a node with these points, which is split as often as its points need. Names all inner
/// nodes and leaves from the node on.
pub(crate) fn split(
    alloc: Global,
    progress: &mut Progress,
    points: Vec<Point>,
    path: Path,
    cube: Cube,
    leaf: u32,
) -> Result<Counts, AllocError>
    requires contained { All (λ p. IsTrue (contains cube p)) points.items }
    requires few { length points.items < 2 ^ 32 }
    requires room { length path + cube.bits ≤ 31 }
    ensures counts { IfOk result (λ counts. counts ≡ counted (octree leaf cube points.items)) }
    ensures splits { IfOk result (λ counts. progress.new.splits.items ≡ progress.old.splits.items ++ map (λ steps. path ++ steps) (inner_paths counts)) }
    ensures leaves { IfOk result (λ counts. progress.new.leaves.items ≡ progress.old.leaves.items ++ map (λ steps. path ++ steps) (leaf_paths counts)) }
    ensures used { progress.new.used ≡ progress.old.used }
{
    let count = points.len() as u32;
    if points.len() <= leaf as usize || cube.bits == 7 {
        progress.leaves.push(path)?;
        return Ok(Counts::Leaf(count));
    }
    progress.splits.push(path)?;
    let lists = spread(alloc, &cube, points.as_slice())?;
    drop(points);
    let mut children = Vec::with_capacity(alloc, 8)?;
    let mut g = 0u8;
    for list in lists {
        children.push(split(alloc, progress, list, path.child(g), cube.child(g), leaf)?)?;
        g += 1;
    }
    Ok(Counts::Inner(count, Items::from_vec(children)))
}
