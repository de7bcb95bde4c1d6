ghost use Rattle.std.specs.Prelude.{IfOk, IfErr, ◌≡◌, map, string_bytes};
ghost use Rattle.run_report.specs.Faults.{HasAxis};
ghost use Rattle.run_words.specs.Values.{HasRanges};
ghost use Rattle.simlod_app.specs.Dues.{Gives};
ghost use Rattle.simlod_app.specs.Runs.{is_run, job_here, run_here};

use crate::faults;
use run_report::Fault;
use run_words::{CommandName, Job, read_words};
use std::alloc::Global;

/// The job of the words, if it is one that is run here: a listing, a picture, bounds or a
/// demonstration.
pub fn read_job(alloc: Global, words: &[String]) -> Result<Job, Fault>
    ensures gives { Gives (λ j. j) result (job_here (map string_bytes words.now)) }
    ensures ranges { IfOk result (λ j. HasRanges j) }
    ensures axis { IfErr result HasAxis }
{
    match read_words(alloc, words) {
        Ok(job) => run_here(job),
        Err(fault) => Err(faults::words_fault(alloc, fault)),
    }
}

/// A job, if it is one that is run here.
fn run_here(job: Job) -> Result<Job, Fault>
    requires { HasRanges job }
    ensures gives { Gives (λ j. j) result (run_here job) }
    ensures ranges { IfOk result (λ j. HasRanges j) }
    ensures axis { IfErr result HasAxis }
{
    if !is_run(job.command) {
        return Err(Fault::Command);
    }
    Ok(job)
}

/// Whether a command is run here.
fn is_run(command: CommandName) -> bool
    ensures { result ≡ is_run command }
{
    match command {
        CommandName::Nodes | CommandName::Bounds | CommandName::Image | CommandName::Demo => true,
        CommandName::Replay | CommandName::Live => false,
    }
}
