//! The program: the top call over the system's words, files and streams.
#![tactic(auto)]

use cloud_io::{FileInputs, StderrSink, StdoutSink, write_all};
use run_report::out_of_memory_line;
use simlod_app::{Status, simlod_plain};
use std::alloc::Global;
use std::io::ErrorKind;
use std::process::ExitCode;
use std::rt::Env;
use std::{env, io};

fn main(rt: HostRuntime) -> ExitCode {
    let alloc = rt.alloc();
    let mut out = StdoutSink::new(rt.stdout());
    let mut errors = StderrSink::new(rt.stderr());
    let status = match command_words(&rt, alloc) {
        Ok(words) => {
            let mut inputs = FileInputs::new(rt, alloc);
            simlod_plain(alloc, words.as_slice(), &mut inputs, &mut out, &mut errors)
        }
        Err(_) => {
            let _ = write_all(&mut errors, out_of_memory_line());
            Status::Memory
        }
    };
    ExitCode::from(status.code())
}

/// The words after the program's name. Where they are no text they are taken for none, and so for no command.
fn command_words<R: Env + AllocGlobal>(rt: &R, alloc: Global) -> io::Result<Vec<String>> {
    let mut words = Vec::new(alloc);
    let given = match env::args(rt) {
        Err(error) if error.kind() == ErrorKind::InvalidData => return Ok(words),
        given => given?,
    };
    for word in given.skip(1) {
        words.push(word)?;
    }
    Ok(words)
}
