ghost use Rattle.std.specs.Prelude.{◌≡◌, []};
ghost use Rattle.cloud_io.specs.SystemFiles.{open_fault};

use crate::faults::{Failed, OpenFault};
use crate::inputs::Inputs;
use crate::system_file::SystemFile;
use std::alloc::Global;
use std::fs;
use std::io::ErrorKind;
use std::rt::Files;

/// The files of the system. They tell no names; of an opened file they tell the bytes that its reader
/// tells.
///
/// A name that the system does not find is a missing file; every other failure is a fault, such as the
/// opening of a file that may not be read or the reading of a folder.
#[derive(Drop)]
pub struct FileInputs<R: Files> {
    rt: R,
    alloc: Global,
    opened: Vec<SystemFile<R::File>>,
    faults: u64,
    missing: u64,
}

impl<R: Files + Send> FileInputs<R>
where
    R::File: Send,
{
    /// The files that the runtime reaches, none of them opened, and two counts of 0.
    pub fn new(rt: R, alloc: Global) -> FileInputs<R>
        ensures opened { ⟦<FileInputs<R> as Inputs>⟧.opened result ≡ [] }
        ensures faults { ⟦<FileInputs<R> as Inputs>⟧.faults result ≡ 0 }
        ensures missing { ⟦<FileInputs<R> as Inputs>⟧.missing result ≡ 0 }
    {
        FileInputs {
            rt,
            alloc,
            opened: Vec::new(alloc),
            faults: 0,
            missing: 0,
        }
    }
}

impl<R: Files + Send> Inputs for FileInputs<R>
where
    R::File: Send,
{
    ghost use Rattle.std.specs.Prelude.{None};
    ghost use Rattle.cloud_io.specs.SystemFiles.{opened_of, left_of};

    ghost files = { λ _. None };

    ghost opened = { λ s. opened_of s.opened.items };

    ghost left = { λ s. left_of R.File.remaining s.opened.items };

    ghost faults = { λ s. s.faults };

    ghost missing = { λ s. s.missing };

    fn open_input(&mut self, name: &str) -> Result<u64, OpenFault> {
        let file = match fs::open(&self.rt, name) {
            Ok(file) => file,
            Err(error) => {
                let fault = open_fault(error.kind());
                match fault {
                    OpenFault::NoFile => self.missing = self.missing.saturating_add(1),
                    OpenFault::Failed => self.faults = self.faults.saturating_add(1),
                    OpenFault::Memory => (),
                }
                return Err(fault);
            }
        };
        let Ok(name) = String::from_str(self.alloc, name) else {
            return Err(OpenFault::Memory);
        };
        let number = self.opened.len() as u64;
        match self.opened.push(SystemFile::new(name, file)) {
            Ok(()) => Ok(number),
            Err(_) => Err(OpenFault::Memory),
        }
    }

    fn read(&mut self, file: u64, buf: &mut [u8]) -> Result<usize, Failed> {
        let given = self.opened[file as usize].read(buf);
        if given.is_err() {
            self.faults = self.faults.saturating_add(1);
        }
        given
    }
}

/// What a failed opening tells of the file.
fn open_fault(kind: ErrorKind) -> OpenFault
    ensures { result ≡ open_fault kind }
{
    match kind {
        ErrorKind::NotFound => OpenFault::NoFile,
        _ => OpenFault::Failed,
    }
}
