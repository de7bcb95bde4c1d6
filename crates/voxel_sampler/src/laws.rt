ghost use Rattle.std.specs.Prelude.{◌≡◌, List, [], ◌++◌, map};
ghost use Rattle.cube_math.specs.Cubes.{cell};
ghost use Rattle.cube_math.specs.Points.{PointValue};
ghost use Rattle.octree_model.specs.Bags.{joined};
ghost use Rattle.octree_model.specs.Numbers.{ascending};
ghost use Rattle.octree_model.specs.Voxels.{VoxelValue, voxels};
ghost use Rattle.voxel_sampler.specs.Laws.{nears_after, runs_of, all_voxels};
ghost use Rattle.voxel_sampler.specs.Nears.{cells_of, nears, nears_with};
ghost use Rattle.voxel_sampler.specs.Runs.{run_of, last_entries};

use cube_math::Cube;

/// A law: whatever batches are merged one after the other, from none on, the last entries of the cells
/// over all runs are the voxels of all the points together, the keys kept are the least of each cell, and
/// their cells, which are those of the grid, are the cells of the points.
pub fn merges_give_voxels(cube: &Cube)
    ensures voxels { (batches : List (List PointValue)) → last_entries (all_voxels (runs_of [] cube.now batches)) ≡ voxels cube.now (joined batches) }
    ensures nears { (batches : List (List PointValue)) → nears_after [] cube.now batches ≡ nears cube.now (joined batches) }
    ensures cells { (batches : List (List PointValue)) → cells_of (nears_after [] cube.now batches) ≡ ascending (map (cell cube.now) (joined batches)) }
{}

/// A law: where some entries have as their last ones the voxels of points, and the keys kept are the least
/// of these points, the same holds with the points of one batch more once it is merged.
pub fn merge_adds_voxels(cube: &Cube)
    ensures voxels { (points batch : List PointValue) (entries : List VoxelValue) → last_entries entries ≡ voxels cube.now points
        → last_entries (entries ++ run_of (nears cube.now points) cube.now batch) ≡ voxels cube.now (points ++ batch) }
    ensures nears { (points batch : List PointValue) → nears_with (nears cube.now points) cube.now batch ≡ nears cube.now (points ++ batch) }
{}
