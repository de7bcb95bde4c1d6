//! Times an octree made by batches or at once. Its words are `batches` or `once`, the leaf limit, the
//! number of points of a batch, and the file.
#![tactic(auto)]

mod making;
mod scan;
mod tally;
mod task;

use crate::making::made;
use crate::scan::read_scan;
use crate::tally::Tally;
use crate::task::Task;
use std::fmt::Display;
use std::process::ExitCode;

/// Prints what was made to the output, which is the same in both ways, and how long it took to the
/// error stream.
fn main(rt: HostRuntime) -> ExitCode {
    match run(&rt) {
        Ok(()) => ExitCode::SUCCESS,
        Err(why) => {
            let _ = eprintln!(rt; "batch_timing: {why}");
            ExitCode::FAILURE
        }
    }
}

fn run(rt: &HostRuntime) -> Result<(), &'static str> {
    let task = Task::read(rt)?;
    let points = read_scan(rt, task.name.as_str())?;
    let (tally, took) = made(rt, points.as_slice(), &task)?;
    let Tally {
        points,
        nodes,
        voxels,
    } = tally;
    println!(rt; "points {points} nodes {nodes} voxels {voxels}")
        .ok()
        .ok_or("no output")?;
    eprintln!(rt; "took {} microseconds", took.as_micros())
        .ok()
        .ok_or("no error stream")?;
    Ok(())
}
