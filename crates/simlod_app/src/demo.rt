ghost use Rattle.std.specs.Prelude.{IfErr, vec_items};
ghost use Rattle.run_report.specs.Faults.{HasAxis};
ghost use Rattle.run_words.specs.Values.{HasRanges};
ghost use Rattle.simlod_app.specs.Dues.{Gives};
ghost use Rattle.simlod_app.specs.Runs.{demo_output};

use crate::octree::octree_output;
use run_report::Fault;
use run_words::Job;
use std::alloc::Global;
use synthetic_cloud::generate;

/// The output of `demo`: what the octree of the points of the job's seed has. They are cut into batches as
/// the points of one file are.
pub fn demo_output(alloc: Global, job: &Job) -> Result<Vec<u8>, Fault>
    requires { HasRanges job.now }
    ensures axis { IfErr result HasAxis }
    ensures gives { Gives vec_items result (demo_output job.now) }
{
    let points = generate(alloc, job.seed, job.count)?;
    let mut clouds = Vec::new(alloc);
    clouds.push(points)?;
    octree_output(alloc, clouds, job)
}
