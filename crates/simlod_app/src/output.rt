ghost use Rattle.std.specs.Prelude.{◌≡◌, IfErr, map, vec_items};
ghost use Rattle.cloud_io.specs.Counts.{Rose};
ghost use Rattle.cloud_io.specs.Files.{Opened};
ghost use Rattle.run_report.specs.Faults.{HasAxis};
ghost use Rattle.run_words.specs.Values.{HasRanges};
ghost use Rattle.simlod_app.specs.Dues.{Gives, GivesOver};
ghost use Rattle.simlod_app.specs.Outcomes.{IsReached};
ghost use Rattle.simlod_app.specs.Reads.{AreOpened, AreReadFor, OfFiles};
ghost use Rattle.simlod_app.specs.Runs.{job_output, clouds_output, reading_of};

use crate::bounds::bounds_output;
use crate::demo::demo_output;
use crate::octree::octree_output;
use crate::reading::{read_clouds, reading_of};
use cloud_io::Inputs;
use cube_math::Point;
use run_report::Fault;
use run_words::{CommandName, Job};
use std::alloc::Global;

/// The output of a job over its files.
pub fn job_output<I: Inputs>(alloc: Global, inputs: &mut I, job: &Job) -> Result<Vec<u8>, Fault>
    requires { HasRanges job.now }
    ensures kept { I.files inputs.new ≡ I.files inputs.old }
    ensures axis { IfErr result HasAxis }
    ensures gives { (opened : Opened) × AreOpened (I.files inputs.old) job.now.files (I.opened inputs.old) (I.opened inputs.new) opened
        × AreReadFor result job.now.files opened
        × OfFiles (I.files inputs.old) job.now.files opened (λ files.
        GivesOver (λ name. IsReached (reading_of job.now) files name × Rose (I.faults inputs.old) (I.faults inputs.new))
        (Rose (I.missing inputs.old) (I.missing inputs.new))
        vec_items result (job_output job.now files)) }
{
    let clouds = read_clouds(alloc, inputs, job.files.as_slice(), reading_of(job))?;
    clouds_output(alloc, clouds, job)
}

/// The output of a job with these clouds of its files.
fn clouds_output(alloc: Global, clouds: Vec<Vec<Point>>, job: &Job) -> Result<Vec<u8>, Fault>
    requires { HasRanges job.now }
    ensures axis { IfErr result HasAxis }
    ensures gives { Gives vec_items result (clouds_output job.now (map vec_items clouds.items)) }
{
    match job.command {
        CommandName::Bounds => bounds_output(alloc, clouds),
        CommandName::Demo => demo_output(alloc, job),
        _ => octree_output(alloc, clouds, job),
    }
}
