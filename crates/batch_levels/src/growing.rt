ghost use Rattle.std.specs.Prelude.{◌≡◌, ◌+◌, ◌++◌, ◌<◌, ◌^◌, List, All, IsTrue, IfOk, length};
ghost use Rattle.cube_math.specs.Cubes.{contains};
ghost use Rattle.cube_math.specs.Points.{PointValue};
ghost use Rattle.batch_levels.specs.Growing.{HasRoom};
ghost use Rattle.batch_levels.specs.Levels.{level_of};

use crate::level::{InnerLevel, Level};
use crate::node_runs::NodeRuns;
use cube_math::{Cube, Point};
use least_runs::CellTable;
use octree_plain::spread;
use sqlite_items::Items;
use std::alloc::{AllocError, Global};

/// A node of these points, split as often as they need.
pub(crate) fn made(
    alloc: Global,
    table: &mut CellTable,
    points: Items<Point>,
    cube: Cube,
    leaf: u32,
) -> Result<Level, AllocError>
    requires contained { All (λ p. IsTrue (contains cube p)) points }
    requires few { length points < 2 ^ 32 }
    ensures { IfOk result (λ level. level ≡ level_of leaf cube points) }
{
    if points.len() <= leaf as usize || cube.bits == 7 {
        return Ok(Level::Leaf(points));
    }
    let count = points.len() as u32;
    let run = table.run_of(alloc, &cube, points.as_slice())?;
    let runs = NodeRuns::of(alloc, run)?;
    let lists = spread(alloc, &cube, points.as_slice())?;
    drop(points);
    let mut levels = Vec::with_capacity(alloc, 8)?;
    let mut g = 0u8;
    for list in lists {
        let points = Items::from_vec(list);
        levels.push(made(alloc, table, points, cube.child(g), leaf)?)?;
        g += 1;
    }
    Ok(Level::Inner(InnerLevel {
        count,
        runs,
        levels: Items::from_vec(levels),
    }))
}

/// The node once a batch's points in its cube have come: each inner node on their way gets
/// their run, and a leaf that gets too many points is split.
pub(crate) fn grown(
    alloc: Global,
    table: &mut CellTable,
    level: Level,
    points: &[Point],
    cube: Cube,
    leaf: u32,
) -> Result<Level, AllocError>
    requires room { HasRoom leaf cube level (length points.now) }
    requires contained { All (λ p. IsTrue (contains cube p)) points.now }
    ensures { (before : List PointValue) → level ≡ level_of leaf cube before → IfOk result (λ after. after ≡ level_of leaf cube (before ++ points.now)) }
{
    if points.is_empty() {
        return Ok(level);
    }
    match level {
        Level::Leaf(mut kept) => {
            kept.append(Items::from_slice(alloc, points)?)?;
            made(alloc, table, kept, cube, leaf)
        }
        Level::Inner(inner) => {
            let InnerLevel {
                count,
                mut runs,
                mut levels,
            } = inner;
            let run = table.run_of(alloc, &cube, points)?;
            runs.add(alloc, table, run)?;
            let lists = spread(alloc, &cube, points)?;
            let mut g = 0u8;
            for list in lists {
                // The nodes below are taken from the front and come back at the end, so that after
                // eight of them they stand in their order.
                let below = levels.remove(0);
                let points = list.as_slice();
                levels.push(grown(alloc, table, below, points, cube.child(g), leaf)?)?;
                g += 1;
            }
            Ok(Level::Inner(InnerLevel {
                count: count + points.len() as u32,
                runs,
                levels,
            }))
        }
    }
}
