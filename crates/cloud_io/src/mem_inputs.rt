use crate::failing_calls::FailingCalls;
use crate::faults::{Failed, OpenFault};
use crate::held_files::HeldFiles;
use crate::inputs::Inputs;
use crate::named_file::NamedFile;
use std::alloc::Global;

/// Files in memory, and the numbers of the calls that fail. The calls of `open_input` and `read` are
/// counted together, from 1. Where two files have one name, the first stands for it.
#[derive(Debug, Drop)]
pub struct MemInputs {
    held: HeldFiles,
    failing: FailingCalls,
    faults: u64,
    missing: u64,
}

impl MemInputs {
    ghost use Rattle.std.specs.Prelude.{◌≡◌, [], Some};
    ghost use Rattle.cloud_io.specs.HeldFiles.{folder_of};

    /// These files, none of them opened, and two counts of 0.
    pub fn new(alloc: Global, files: Vec<NamedFile>, failing: Vec<u64>) -> MemInputs
        ensures files { ⟦<MemInputs as Inputs>⟧.files result ≡ Some (folder_of files.items) }
        ensures opened { ⟦<MemInputs as Inputs>⟧.opened result ≡ [] }
        ensures faults { ⟦<MemInputs as Inputs>⟧.faults result ≡ 0 }
        ensures missing { ⟦<MemInputs as Inputs>⟧.missing result ≡ 0 }
    {
        MemInputs {
            held: HeldFiles::new(alloc, files),
            failing: FailingCalls::new(failing),
            faults: 0,
            missing: 0,
        }
    }
}

impl Inputs for MemInputs {
    ghost use Rattle.std.specs.Prelude.{Some, None};
    ghost use Rattle.cloud_io.specs.HeldViews.{folder, opened_files};

    ghost files = { λ s. Some (folder s.held) };

    ghost opened = { λ s. opened_files s.held };

    ghost left = { λ _ _. None };

    ghost faults = { λ s. s.faults };

    ghost missing = { λ s. s.missing };

    fn open_input(&mut self, name: &str) -> Result<u64, OpenFault> {
        if self.failing.next_fails() {
            self.faults = self.faults.saturating_add(1);
            return Err(OpenFault::Failed);
        }
        let answer = self.held.open(name);
        if let Err(OpenFault::NoFile) = answer {
            self.missing = self.missing.saturating_add(1);
        }
        answer
    }

    fn read(&mut self, file: u64, buf: &mut [u8]) -> Result<usize, Failed> {
        if self.failing.next_fails() {
            self.faults = self.faults.saturating_add(1);
            return Err(Failed);
        }
        Ok(self.held.read(file, buf))
    }
}
