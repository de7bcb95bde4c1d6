ghost use Rattle.std.specs.Prelude.{◌≡◌, ◌≤◌, All, IfOk};

use crate::tally::{Tally, of_level, of_tree};
use crate::task::Task;
use batch_levels::Levels;
use cube_math::{Batch, Cube, Point};
use octree_plain::{build, fit_cube};
use std::alloc::Global;
use std::time::{CpuClock, Duration};

/// Makes the octree of the points in the least cube round them, in the way of the task. Tells how much
/// was made, and how much of the processor's time it took.
pub fn made<R: CpuClock + AllocGlobal>(
    rt: &R,
    points: &[Point],
    task: &Task,
) -> Result<(Tally, Duration), &'static str> {
    if task.leaf == 0 || task.batch == 0 {
        return Err("a number is 0");
    }
    let cube = fit_cube(points).ok().ok_or("the points fit no cube")?;
    if task.by_batches {
        let batches = batches_of(rt.alloc(), points, &cube, task.batch)?;
        let start = now(rt)?;
        let levels = levels_of(rt.alloc(), batches.as_slice(), cube, task.leaf)?;
        let took = now(rt)?.saturating_sub(start);
        let tally = of_level(rt.alloc(), levels.root());
        Ok((tally.ok().ok_or("out of memory")?, took))
    } else {
        let start = now(rt)?;
        let tree = build(rt.alloc(), points, cube, task.leaf)
            .ok()
            .ok_or("out of memory")?;
        let took = now(rt)?.saturating_sub(start);
        Ok((of_tree(&tree), took))
    }
}

/// The processor's time so far.
fn now<R: CpuClock>(rt: &R) -> Result<Duration, &'static str> {
    rt.process_cpu_time().ok().ok_or("no clock")
}

/// The points, cut into batches of so many.
fn batches_of(
    alloc: Global,
    points: &[Point],
    cube: &Cube,
    size: u32,
) -> Result<Vec<Batch>, &'static str>
    requires { 1 ≤ size }
    ensures { IfOk result (λ batches. All (λ batch. batch.cube ≡ cube.now) batches.items) }
{
    let mut batches = Vec::new(alloc);
    for piece in points.chunks(size as usize) {
        let piece = piece.to_vec(alloc).ok().ok_or("out of memory")?;
        let Ok(batch) = Batch::new(0, piece, cube, size) else {
            return Err("a batch is refused");
        };
        batches.push(batch).ok().ok_or("out of memory")?;
    }
    Ok(batches)
}

/// The levels of batches.
fn levels_of(
    alloc: Global,
    batches: &[Batch],
    cube: Cube,
    leaf: u32,
) -> Result<Levels, &'static str>
    requires leaf { 1 ≤ leaf }
    requires cubes { All (λ batch. batch.cube ≡ cube) batches.now }
{
    let mut levels = Levels::new(alloc, cube, leaf).ok().ok_or("out of memory")?;
    for batch in batches {
        levels = with_batch(alloc, levels, batch)?;
    }
    Ok(levels)
}

/// The levels with one batch more.
fn with_batch(alloc: Global, levels: Levels, batch: &Batch) -> Result<Levels, &'static str>
    requires { batch.now.cube ≡ levels.skeleton.cube }
    ensures { IfOk result (λ more. more.skeleton.cube ≡ levels.skeleton.cube) }
{
    let room = u32::MAX - levels.total();
    if batch.points().len() > room as usize {
        return Err("too many points");
    }
    levels
        .add(alloc, batch, u32::MAX)
        .ok()
        .ok_or("out of memory")
}
