ghost use Rattle.std.specs.Prelude.{◌≡◌, ◌≤◌, ℕ, List, All, IfOk, IsTrue, length, map, drop};
ghost use Rattle.cube_math.specs.Cubes.{CubeValue};
ghost use Rattle.cube_math.specs.Points.{PointValue};
ghost use Rattle.leaf_counts.specs.Nodes.{cube_at, counted, is_leaf_at};
ghost use Rattle.octree_model.specs.Bags.{IsSameBag};
ghost use Rattle.octree_model.specs.Octree.{inside, octree};
ghost use Rattle.batch_levels.specs.Growing.{IsOverLeaf};
ghost use Rattle.batch_levels.specs.Levels.{level_of};

use crate::level::Level;
use cube_math::{Path, Point};
use leaf_counts::Spill;
use std::alloc::{AllocError, Global};

/// The points of the leaf to which the path leads from a node that it reaches after so many steps.
pub(crate) fn points_below<'a>(level: &'a Level, path: &Path, steps: u32) -> &'a [Point]
    requires steps { steps ≤ length path.now }
    requires leaf { IsOverLeaf level.now (drop steps path.now) }
    ensures { (leaf : ℕ) (cube : CubeValue) (points : List PointValue) → level.now ≡ level_of leaf cube points → IsTrue (is_leaf_at (counted (octree leaf cube points)) (drop steps path.now))
        → result.now ≡ inside (cube_at cube (drop steps path.now)) points }
{
    // So that there is room for one step more.
    prove!(path.len() <= 24);
    match level {
        Level::Leaf(points) => points.as_slice(),
        Level::Inner(inner) => {
            let octant = usize::from(path.octant(steps));
            points_below(&inner.levels.as_slice()[octant], path, steps + 1)
        }
    }
}

/// The leaves at these paths with their points.
pub(crate) fn spills_of(
    alloc: Global,
    root: &Level,
    paths: &[Path],
) -> Result<Vec<Spill>, AllocError>
    requires { All (λ path. IsOverLeaf root.now path) paths.now }
    ensures paths { IfOk result (λ spills. map (λ spill. spill.path) spills.items ≡ paths.now) }
    ensures bags { (leaf : ℕ) (cube : CubeValue) (points : List PointValue) → root.now ≡ level_of leaf cube points → All (λ path. IsTrue (is_leaf_at (counted (octree leaf cube points)) path)) paths.now
        → IfOk result (λ spills. All (λ spill. IsSameBag spill.points.items (inside (cube_at cube spill.path) points)) spills.items) }
{
    let mut spills = Vec::with_capacity(alloc, paths.len())?;
    for path in paths {
        let points = points_below(root, path, 0).to_vec(alloc)?;
        spills.push(Spill {
            path: *path,
            points,
        })?;
    }
    Ok(spills)
}
