ghost use Rattle.std.specs.Prelude.{◌≡◌, ◌++◌, IfOk, map, filter};
ghost use Rattle.voxel_sampler.specs.Nears.{cells_of, least_nears, voxel_of};
ghost use Rattle.voxel_sampler.specs.Order.{IsAscending};
ghost use Rattle.voxel_sampler.specs.Updates.{is_change};

use crate::near::Near;
use crate::ready::Ready;
use std::alloc::{AllocError, Global};

/// The least keys of both lists, and the voxels of those that are new or less than in the first list. It
/// goes once over each list.
pub fn updated(alloc: Global, best: &[Near], lowest: &[Near]) -> Result<Ready, AllocError>
    requires best { IsAscending (cells_of best.now) }
    requires lowest { IsAscending (cells_of lowest.now) }
    ensures nears { IfOk result (λ ready. ready.nears ≡ least_nears (best.now ++ lowest.now)) }
    ensures run { IfOk result (λ ready. ready.run ≡ map voxel_of (filter (is_change best.now) lowest.now)) }
{
    let room = best.len().saturating_add(lowest.len());
    let mut ready = Ready::with_room(alloc, room, lowest.len())?;
    let mut old = 0;
    let mut new = 0;
    while old < best.len() && new < lowest.len() {
        let known = best[old];
        let found = lowest[new];
        if known.cell < found.cell {
            ready.keep(known)?;
            old += 1;
        } else if found.cell < known.cell {
            ready.change(found)?;
            new += 1;
        } else {
            ready.replace(known, found)?;
            old += 1;
            new += 1;
        }
    }
    for near in &best[old..] {
        ready.keep(*near)?;
    }
    for near in &lowest[new..] {
        ready.change(*near)?;
    }
    Ok(ready)
}
