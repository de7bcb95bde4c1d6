ghost use Rattle.std.specs.Prelude.{◌≡◌, ◌<◌, ◌*◌, ◌≤◌, All, IfOk, min, sum_by, vec_len};
ghost use Rattle.filing_timing.specs.Standing.{standing_in};
ghost use Rattle.list_filers.specs.Filers.{shared_name};

use crate::task::Task;
use chunk_lists::Lists;
use list_words::{Answer, Filed};
use std::alloc::{AllocError, Global};
use std::sync::Arc;
use std::thread::Threads;
use std::time::{Clock, Duration, Instant};
use worked_lists::{Crew, Worker, file_at_once, hire, lay_out};

/// Files as many items as there are places for, in the way of the task. Tells how many came to stand, and how long it
/// took.
pub fn filed<R: Clock + Threads + Sync + AllocGlobal>(
    rt: &R,
    task: &Task,
) -> Result<(usize, Duration), &'static str> {
    let Task {
        threads,
        lists,
        chunks,
    } = *task;
    if threads == 0 || threads > 64 || lists == 0 || lists > 1000 {
        return Err("the number of threads or lists is 0 or too large");
    }
    if chunks > 1_000_000 || chunks > 1_000_000 / lists {
        return Err("there are too many chunks");
    }
    let (lists, workers) = begin(rt.alloc(), threads, lists, chunks)
        .ok()
        .ok_or("out of memory")?;
    let start = Instant::now(rt).ok().ok_or("no clock")?;
    let workers = file_at_once(rt, &lists, workers)
        .ok()
        .ok_or("out of memory")?;
    let took = start.elapsed(rt).ok().ok_or("no clock")?;
    Ok((standing(workers.as_slice()), took))
}

/// Lists with places for all items, and workers who share them.
fn begin(
    alloc: Global,
    threads: u32,
    lists: u32,
    chunks: u32,
) -> Result<(Arc<Lists, Global>, Vec<Worker>), AllocError>
    requires threads { (0 < threads) × (threads ≤ 64) }
    requires lists { lists ≤ 1000 }
    requires chunks { chunks ≤ 1000000 }
    requires all { lists * chunks ≤ 1000000 }
    ensures names { IfOk result (λ r. All (λ w. w.name ≡ shared_name r.0.value) r.1.items) }
    ensures count { IfOk result (λ r. vec_len r.1 ≡ threads) }
{
    let (shared, mut knife) = lay_out(alloc, lists, chunks)?;
    let places = 256 * chunks / threads;
    let crew = Crew {
        lists,
        places,
        workers: threads,
        first: 0,
        share: lists * places,
        seed: 1,
    };
    let workers = hire(alloc, &mut knife, crew)?;
    Ok((shared, workers))
}

/// How many items came to stand, or the most that a count holds.
fn standing(workers: &[Worker]) -> usize
    ensures { result ≡ min (sum_by (λ w. standing_in w.answers) workers.now) 18446744073709551615 }
{
    let mut count = 0usize;
    for worker in workers {
        count = count.saturating_add(at_home(worker.answers()));
    }
    count
}

/// How many answers are that an item stands.
fn at_home(answers: &[Answer]) -> usize
    ensures { result ≡ standing_in answers.now }
{
    answers
        .iter()
        .filter(|answer| matches!(answer.filed, Filed::At { .. }))
        .count()
}
