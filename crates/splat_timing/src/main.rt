//! Times the drawing of many items by threads. Its words are the number of threads, 0 for the canvas of one thread, and the
//! number of items.
#![tactic(auto)]

mod drawing;
mod task;

use crate::drawing::drawn;
use crate::task::Task;
use std::process::ExitCode;
use std::rt::Env;
use std::thread::Threads;
use std::time::Clock;

/// Prints how many pixels show an item to the output, and how long the drawing took to the error stream.
fn main(rt: HostRuntime) -> ExitCode {
    match run(&rt) {
        Ok(()) => ExitCode::SUCCESS,
        Err(why) => {
            let _ = eprintln!(rt; "splat_timing: {why}");
            ExitCode::FAILURE
        }
    }
}

fn run<R: Env + Clock + Threads + Sync + Print + Eprint + AllocGlobal>(
    rt: &R,
) -> Result<(), &'static str> {
    let task = Task::read(rt)?;
    let (lit, took) = drawn(rt, &task)?;
    println!(rt; "items {} lit {lit}", task.items)
        .ok()
        .ok_or("no output")?;
    eprintln!(rt; "took {} microseconds", took.as_micros())
        .ok()
        .ok_or("no error stream")?;
    Ok(())
}
