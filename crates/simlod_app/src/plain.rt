ghost use Rattle.std.specs.Prelude.{◌≡◌, IfErr, map, string_bytes, vec_items};
ghost use Rattle.cloud_io.specs.Counts.{Rose};
ghost use Rattle.cloud_io.specs.Files.{Opened};
ghost use Rattle.run_report.specs.Faults.{HasAxis, fault_line};
ghost use Rattle.simlod_app.specs.Dues.{GivesOver};
ghost use Rattle.simlod_app.specs.Outcomes.{IsNextOf, IsRun, TellsLine, TellsFault, outside};
ghost use Rattle.simlod_app.specs.Reads.{AreOpened, AreReadFor, OfFiles, job_files};
ghost use Rattle.simlod_app.specs.Runs.{words_output};

use crate::output::job_output;
use crate::status::{Status, status_of};
use crate::words::read_job;
use cloud_io::{Inputs, Sink, write_all};
use run_report::{Fault, fault_line, out_of_memory_line, output_fault_line};
use std::alloc::Global;

/// Does what the words say: reads the files of the words from `inputs`, writes the output to `out` in
/// one piece, and for each status but `Ok` writes one line to `errors`. A failing error stream changes
/// no status.
pub fn simlod_plain<I: Inputs, K: Sink, E: Sink>(
    alloc: Global,
    words: &[String],
    inputs: &mut I,
    out: &mut K,
    errors: &mut E,
) -> Status
    ensures kept { I.files inputs.new ≡ I.files inputs.old }
    ensures run { IsRun (I.files inputs.old) (map string_bytes words.now)
        (outside (I.opened inputs.old) (I.faults inputs.old) (I.missing inputs.old)
        (K.contents out.old) (K.faults out.old) (E.contents errors.old) (E.faults errors.old))
        (outside (I.opened inputs.new) (I.faults inputs.new) (I.missing inputs.new)
        (K.contents out.new) (K.faults out.new) (E.contents errors.new) (E.faults errors.new)) result }
{
    match words_output(alloc, words, inputs) {
        Err(fault) => refuse(alloc, &fault, errors),
        Ok(text) => match write_all(out, text.as_slice()) {
            Ok(()) => Status::Ok,
            Err(_) => {
                tell(errors, output_fault_line());
                Status::OutputFault
            }
        },
    }
}

/// The output of the job of the words, or why there is none.
fn words_output<I: Inputs>(
    alloc: Global,
    words: &[String],
    inputs: &mut I,
) -> Result<Vec<u8>, Fault>
    ensures kept { I.files inputs.new ≡ I.files inputs.old }
    ensures axis { IfErr result HasAxis }
    ensures gives { (opened : Opened)
        × AreOpened (I.files inputs.old) (job_files (map string_bytes words.now)) (I.opened inputs.old) (I.opened inputs.new) opened
        × AreReadFor result (job_files (map string_bytes words.now)) opened
        × OfFiles (I.files inputs.old) (job_files (map string_bytes words.now)) opened (λ files.
        GivesOver (λ name. IsNextOf (map string_bytes words.now) files name × Rose (I.faults inputs.old) (I.faults inputs.new))
        (Rose (I.missing inputs.old) (I.missing inputs.new))
        vec_items result (words_output (map string_bytes words.now) files)) }
{
    let job = read_job(alloc, words)?;
    job_output(alloc, inputs, &job)
}

/// Tells a fault, and answers its status, or that there was no memory for its line.
fn refuse<E: Sink>(alloc: Global, fault: &Fault, errors: &mut E) -> Status
    requires { HasAxis fault.now }
    ensures { TellsFault (E.contents errors.old) (E.contents errors.new) (E.faults errors.old) (E.faults errors.new) fault.now result }
{
    let line = match fault {
        Fault::Memory => None,
        told => fault_line(alloc, told).ok(),
    };
    match line {
        Some(line) => {
            tell(errors, line.as_slice());
            status_of(fault)
        }
        None => {
            tell(errors, out_of_memory_line());
            Status::Memory
        }
    }
}

/// Writes a line to the error stream. Where that fails there is nobody to tell.
fn tell<E: Sink>(errors: &mut E, line: &[u8])
    ensures { TellsLine (E.contents errors.old) (E.contents errors.new) (E.faults errors.old) (E.faults errors.new) line.now }
{
    let _ = write_all(errors, line);
}
