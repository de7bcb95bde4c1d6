ghost use Rattle.std.specs.Prelude.{◌≡◌, ◌<◌, ◌^◌, ◌++◌, All, IsTrue, IfOk, OnOk, OnErr, map};
ghost use Rattle.cube_math.specs.Cubes.{contains, cell};
ghost use Rattle.octree_model.specs.Numbers.{ascending};
ghost use Rattle.occupancy_grid.specs.Grids.{AddsSomePages};
ghost use Rattle.occupancy_grid.specs.Pages.{page_of};
ghost use Rattle.voxel_sampler.specs.Nears.{cells_of, nears_with};
ghost use Rattle.voxel_sampler.specs.Ready.{IsReadyFor};
ghost use Rattle.voxel_sampler.specs.Runs.{run_of};

use crate::best::Best;
use crate::near::Near;
use crate::ready::Ready;
use crate::sorting::lowest_of;
use crate::updating::updated;
use crate::voxel_run::VoxelRun;
use cube_math::{Cube, Point};
use occupancy_grid::Grid;
use std::alloc::{AllocError, Global};

/// Makes ready what merging these points into an inner node with this cube takes: the new keys and the
/// run, and in the grid the pages of their cells. Until `merge` is called the grid's set and the keys
/// stay. Where memory is wanting, some of the pages may be there.
pub fn prepare(
    alloc: Global,
    grid: &mut Grid,
    best: &Best,
    cube: &Cube,
    points: &[Point],
) -> Result<Ready, AllocError>
    requires contained { All (λ p. IsTrue (contains cube.now p)) points.now }
    requires splits { 7 < cube.now.bits }
    requires cells { grid.old.cells ≡ cells_of best.now }
    ensures nears { IfOk result (λ ready. ready.nears ≡ nears_with best.now cube.now points.now) }
    ensures run { IfOk result (λ ready. ready.run ≡ run_of best.now cube.now points.now) }
    ensures ready { IfOk result (λ ready. IsReadyFor grid.new best.now ready) }

    // The grid's set stays, and the pages of the points' cells come.
    ensures cells { grid.new.cells ≡ grid.old.cells }
    ensures pages { OnOk result (grid.new.pages ≡ ascending (grid.old.pages ++ map page_of (map (cell cube.now) points.now))) }
    ensures refused { OnErr result (AddsSomePages grid.old grid.new (map (cell cube.now) points.now)) }
{
    let lowest = lowest_of(alloc, cube, points)?;
    let ready = updated(alloc, best.list(), &lowest)?;
    let cells = cell_numbers(alloc, &lowest)?;
    grid.reserve(&cells)?;
    Ok(ready)
}

/// The cells of the entries.
fn cell_numbers(alloc: Global, nears: &[Near]) -> Result<Vec<u32>, AllocError>
    ensures cells { IfOk result (λ cells. cells.items ≡ cells_of nears.now) }
    ensures below { IfOk result (λ cells. All (λ z. z < 2 ^ 21) cells.items) }
{
    let mut cells = Vec::with_capacity(alloc, nears.len())?;
    for near in nears {
        cells.push(near.cell)?;
    }
    Ok(cells)
}

/// Puts the cells of the run into the grid and the new keys in place of the old ones, and gives the run.
/// It takes no memory.
pub fn merge(grid: &mut Grid, best: &mut Best, ready: Ready) -> VoxelRun
    requires { IsReadyFor grid.old best.old ready }
    ensures run { result ≡ ready.run }
    ensures best { best.new ≡ ready.nears }
    ensures grid { grid.new ≡ record grid.old { cells = cells_of ready.nears } }
{
    let Ready { nears, run } = ready;
    for voxel in &run {
        let _ = grid.set(voxel.cell);
    }
    best.replace(nears);
    VoxelRun::new(run)
}
