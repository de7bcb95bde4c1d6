//! A run in memory, and what is expected of it.
ghost use Rattle.std.specs.Prelude.{◌≤◌};

use cloud_io::{MemInputs, MemSink, NamedFile};
use simlod_app::{Status, simlod_plain};
use std::alloc::{AllocError, Global};
use std::process::Abort;

/// Three points, with the third of which a root of at most two points splits.
pub const THREE: &str = "0 0 0\n1 0 0\n200 0 0\n";

/// What the run of a line left.
#[derive(Drop)]
pub struct Outcome<'a> {
    pub line: &'a str,
    pub status: Status,
    pub out: MemSink,
    pub errors: MemSink,
}

impl Outcome<'_> {
    /// Asserts that the run succeeded and wrote this output, and nothing to the error stream.
    pub fn expect_output(&self, rt: &impl Abort, output: &[u8]) {
        let line = self.line;
        assert_eq!(rt; self.status, Status::Ok, "at {line}");
        assert_eq!(rt; self.out.bytes(), output, "at {line}");
        assert_eq!(rt; self.errors.bytes().len(), 0, "at {line}");
    }

    /// Asserts that the run ended with the status, said this line and wrote nothing.
    pub fn expect_refusal(&self, rt: &impl Abort, status: Status, said: &str) {
        let line = self.line;
        assert_eq!(rt; self.status, status, "at {line}");
        assert_eq!(rt; self.errors.bytes(), said.as_bytes(), "at {line}");
        assert_eq!(rt; self.out.bytes().len(), 0, "at {line}");
    }
}

/// Which calls of the outside fail, by their numbers from 1, and how much one write takes.
#[derive(Drop)]
pub struct Outside {
    pub inputs: Vec<u64>,
    pub out: Vec<u64>,
    pub errors: Vec<u64>,
    pub piece: usize,
    ghost takes: { 1 ≤ piece },
}

/// An outside where nothing fails.
pub fn sound(alloc: Global) -> Outside {
    Outside {
        inputs: Vec::new(alloc),
        out: Vec::new(alloc),
        errors: Vec::new(alloc),
        piece: 1_000_000,
    }
}

/// Runs the words of a line, parted by single spaces, over these files.
pub fn run<'a>(
    alloc: Global,
    line: &'a str,
    files: &[(&str, &str)],
) -> Result<Outcome<'a>, AllocError> {
    run_in(alloc, line, files, sound(alloc))
}

/// The same in an outside where calls fail.
pub fn run_in<'a>(
    alloc: Global,
    line: &'a str,
    files: &[(&str, &str)],
    outside: Outside,
) -> Result<Outcome<'a>, AllocError> {
    run_over(alloc, line, files_of(alloc, files)?, outside)
}

/// The same over files of any bytes.
pub fn run_over<'a>(
    alloc: Global,
    line: &'a str,
    files: Vec<NamedFile>,
    outside: Outside,
) -> Result<Outcome<'a>, AllocError> {
    let words = words_of(alloc, line)?;
    let Outside {
        inputs,
        out,
        errors,
        piece,
    } = outside;
    let mut inputs = MemInputs::new(alloc, files, inputs);
    let mut out = MemSink::new(alloc, out, piece);
    let mut errors = MemSink::new(alloc, errors, piece);
    let status = simlod_plain(alloc, words.as_slice(), &mut inputs, &mut out, &mut errors);
    Ok(Outcome {
        line,
        status,
        out,
        errors,
    })
}

fn words_of(alloc: Global, line: &str) -> Result<Vec<String>, AllocError> {
    let mut words = Vec::new(alloc);
    for word in line.split(' ') {
        if !word.is_empty() {
            words.push(String::from_str(alloc, word)?)?;
        }
    }
    Ok(words)
}

/// Files of these names and texts.
pub fn files_of(alloc: Global, files: &[(&str, &str)]) -> Result<Vec<NamedFile>, AllocError> {
    let mut named = Vec::new(alloc);
    for (name, text) in files {
        named.push(NamedFile {
            name: String::from_str(alloc, name)?,
            bytes: text.as_bytes().to_vec(alloc)?,
        })?;
    }
    Ok(named)
}
