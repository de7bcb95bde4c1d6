ghost use Rattle.std.specs.Prelude.{◌≡◌, ◌+◌, ◌++◌, ◌≤◌, List, All, IsTrue, length, map, OnOk};
ghost use Rattle.cube_math.specs.Cubes.{contains};
ghost use Rattle.cube_math.specs.Points.{PointValue};
ghost use Rattle.octree_model.specs.Octree.{inside};
ghost use Rattle.leaf_counts.specs.Overfull.{IsCountedBy, overfull};

use crate::counts::Counts;
use cube_math::{Cube, Path, Point};
use octree_plain::spread;
use std::alloc::{AllocError, Global};

/// Appends the paths of the leaves, at or below a node with this path and cube, that the points of a
/// batch in this cube make over-full.
pub(crate) fn add_overfull(
    alloc: Global,
    paths: &mut Vec<Path>,
    counts: &Counts,
    path: Path,
    cube: Cube,
    leaf: u32,
    points: &[Point],
) -> Result<(), AllocError>
    requires counted { IsCountedBy leaf cube counts.now }
    requires room { length path + cube.bits ≤ 31 }
    requires contained { All (λ p. IsTrue (contains cube p)) points.now }
    ensures { (batch : List PointValue) → inside cube batch ≡ points.now → OnOk result (paths.new.items ≡ paths.old.items ++ map (λ steps. path ++ steps) (overfull leaf cube counts.now batch)) }
{
    if points.is_empty() {
        return Ok(());
    }
    match counts {
        Counts::Leaf(count) => {
            if cube.bits > 7 && u64::from(*count) + points.len() as u64 > u64::from(leaf) {
                paths.push(path)?;
            }
            Ok(())
        }
        Counts::Inner(_, children) => {
            let lists = spread(alloc, &cube, points)?;
            for (g, below) in children.as_slice().iter().enumerate() {
                let octant = g as u8;
                add_overfull(
                    alloc,
                    paths,
                    below,
                    path.child(octant),
                    cube.child(octant),
                    leaf,
                    lists[g].as_slice(),
                )?;
            }
            Ok(())
        }
    }
}
