//! Times the filing of many items in lists by threads. Its words are the number of threads, of lists and of chunks of each
//! list.
#![tactic(auto)]

mod filing;
mod task;

use crate::filing::filed;
use crate::task::Task;
use std::process::ExitCode;
use std::rt::Env;
use std::thread::Threads;
use std::time::Clock;

/// Prints how many items came to stand to the output, and how long their filing took to the error stream.
fn main(rt: HostRuntime) -> ExitCode {
    match run(&rt) {
        Ok(()) => ExitCode::SUCCESS,
        Err(why) => {
            let _ = eprintln!(rt; "filing_timing: {why}");
            ExitCode::FAILURE
        }
    }
}

fn run<R: Env + Clock + Threads + Sync + Print + Eprint + AllocGlobal>(
    rt: &R,
) -> Result<(), &'static str> {
    let task = Task::read(rt)?;
    let (items, took) = filed(rt, &task)?;
    println!(rt;
        "threads {} lists {} items {items}",
        task.threads, task.lists
    )
    .ok()
    .ok_or("no output")?;
    eprintln!(rt; "took {} microseconds", took.as_micros())
        .ok()
        .ok_or("no error stream")?;
    Ok(())
}
