ghost use Rattle.std.specs.Prelude.{◌≡◌};
ghost use Rattle.octree_model.specs.Octree.{octree};
ghost use Rattle.batch_levels.specs.Levels.{level_of};
ghost use Rattle.batch_levels.specs.Shown.{shown};

use cube_math::{Cube, Point};

/// A law: what is kept of points shows their octree: its nodes, their counts, the voxels of its inner
/// nodes, and the points of its leaves in their order.
pub fn levels_show_octree(cube: &Cube, points: &[Point], leaf: u32)
    ensures { shown (level_of leaf cube.now points.now) ≡ octree leaf cube.now points.now }
{}
