ghost use Rattle.std.specs.Prelude.{◌≡◌, List, [], ◌∷◌, ◌++◌, map};
ghost use Rattle.std.specs.List.Sorted.{IsPermutation};
ghost use Rattle.cube_math.specs.Points.{PointValue};
ghost use Rattle.octree_model.specs.Bags.{IsSameBag, joined};
ghost use Rattle.octree_model.specs.Voxels.{voxels};
ghost use Rattle.voxel_sampler.specs.Nears.{NearValue, nears};
ghost use Rattle.least_runs.specs.Runs.{joined_run, voxels_of};

use crate::cell_table::CellTable;
use crate::least_run::LeastRun;
use cube_math::Cube;
use std::sync::Arc;

/// A law: however a list of points is cut into parts, and in whatever order these come, the voxels of the runs of the
/// parts are the voxels of the list; and the runs of parts, joined, are the run of the parts' points, so that it is
/// of no matter which of them are joined.
pub fn runs_show_voxels(cube: &Cube)
    ensures voxels { (parts : List (List PointValue)) (points : List PointValue) → IsSameBag (joined parts) points → voxels_of (map (nears cube.now) parts) ≡ voxels cube.now points }
    ensures joined { (parts : List (List PointValue)) → joined_run (map (nears cube.now) parts) ≡ nears cube.now (joined parts) }
{}

/// A law of whatever runs: the run that is joined from some of them stands for these, and their order is of no
/// matter. So runs tell the same voxels before and after they are joined.
pub fn joins_keep_least_keys()
    ensures joined { (some others : List (List NearValue)) → joined_run (joined_run some ∷ others) ≡ joined_run (some ++ others) }
    ensures order { (runs others : List (List NearValue)) → IsPermutation runs others → joined_run runs ≡ joined_run others }
{}

/// A law of types: threads may read a run and its shares at once and move them between them, and a table may go to the
/// thread that makes runs by it. The bounds of `goes_to_threads` are what is proved.
pub fn runs_go_to_threads(run: &LeastRun, share: &Arc<LeastRun>, table: &CellTable) {
    goes_to_threads(run);
    goes_to_threads(share);
    goes_to_threads(table);
}

/// Takes what threads may share and be handed, and nothing else.
fn goes_to_threads<T: Send + Sync>(_value: &T) {}
