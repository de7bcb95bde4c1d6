ghost use Rattle.std.specs.Prelude.{◌≡◌, ◌≤◌, IfOk};
ghost use Rattle.picture_model.specs.Frames.{frame};

use crate::task::Task;
use camera_cut::{Camera, CameraNumbers, Item};
use dice::Dice;
use frame_words::splat_parallel;
use splat_ppm::{Frame, splat};
use std::alloc::{AllocError, Global};
use std::thread::Threads;
use std::time::{Clock, Duration, Instant};

/// A camera before the items.
const BEFORE: CameraNumbers = CameraNumbers {
    pos: [0, 0, 0],
    rows: [1024, 0, 0, 0, 1024, 0, 0, 0, 1024],
    focal: 1000,
    near: 1,
    width: 1024,
    height: 768,
    threshold: 128,
    dot: 2,
};

/// Draws as many items as the task says, in its way. Tells how many pixels show one, and how long it took.
pub fn drawn<R: Clock + Threads + Sync + AllocGlobal>(
    rt: &R,
    task: &Task,
) -> Result<(usize, Duration), &'static str> {
    let Task { threads, items } = *task;
    if threads > 16 {
        return Err("there are too many threads");
    }
    let camera = Camera::new(BEFORE).ok().ok_or("no camera")?;
    let items = scattered(rt.alloc(), items).ok().ok_or("out of memory")?;
    let start = Instant::now(rt).ok().ok_or("no clock")?;
    let frame = frame_of(rt, rt.alloc(), &items, &camera, threads)
        .ok()
        .ok_or("out of memory")?;
    let took = start.elapsed(rt).ok().ok_or("no clock")?;
    Ok((lit(frame.colours()), took))
}

/// The frame of the items, by so many threads, or by the canvas of one thread where that is 0.
fn frame_of<R: Threads + Sync>(
    rt: &R,
    alloc: Global,
    items: &[Item],
    camera: &Camera,
    threads: u32,
) -> Result<Frame, AllocError>
    requires { threads ≤ 16 }
    ensures { IfOk result (λ f. f ≡ frame camera.now items.now) }
{
    if threads == 0 {
        splat(alloc, items, camera)
    } else {
        splat_parallel(rt, alloc, items, camera, threads)
    }
}

/// Items that lie about before the camera, as dice have it.
fn scattered(alloc: Global, count: u32) -> Result<Vec<Item>, AllocError> {
    let mut dice = Dice::new(1);
    let mut items = Vec::with_capacity(alloc, count as usize)?;
    for _item in 0..count {
        items.push(Item {
            x: dice.below(100_000) as i32 - 50_000,
            y: dice.below(100_000) as i32 - 50_000,
            z: dice.below(100_000) as i32,
            side: 0,
            rgb: 1 + dice.below(0xff_ff_ff) as u32,
        })?;
    }
    Ok(items)
}

/// How many pixels are not black.
fn lit(colours: &[u32]) -> usize {
    colours.iter().filter(|rgb| **rgb != 0).count()
}
