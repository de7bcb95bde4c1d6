use crate::faults::{Failed, OpenFault};
use crate::held_files::HeldFiles;
use crate::inputs::Inputs;
use crate::named_file::NamedFile;
use std::alloc::Global;

/// Files in memory that never fail. Where two have one name, the first stands for it.
#[derive(Debug, Drop)]
pub struct SureInputs {
    held: HeldFiles,
    missing: u64,
}

impl SureInputs {
    ghost use Rattle.std.specs.Prelude.{◌≡◌, [], Some};
    ghost use Rattle.cloud_io.specs.HeldFiles.{folder_of};

    /// These files, none of them opened, and a count of 0.
    pub fn new(alloc: Global, files: Vec<NamedFile>) -> SureInputs
        ensures files { ⟦<SureInputs as Inputs>⟧.files result ≡ Some (folder_of files.items) }
        ensures opened { ⟦<SureInputs as Inputs>⟧.opened result ≡ [] }
        ensures missing { ⟦<SureInputs as Inputs>⟧.missing result ≡ 0 }
    {
        SureInputs {
            held: HeldFiles::new(alloc, files),
            missing: 0,
        }
    }
}

impl Inputs for SureInputs {
    ghost use Rattle.std.specs.Prelude.{Some, None};
    ghost use Rattle.cloud_io.specs.HeldViews.{folder, opened_files};

    ghost files = { λ s. Some (folder s.held) };

    ghost opened = { λ s. opened_files s.held };

    ghost left = { λ _ _. None };

    ghost faults = { λ _. 0 };

    ghost missing = { λ s. s.missing };

    fn open_input(&mut self, name: &str) -> Result<u64, OpenFault> {
        let answer = self.held.open(name);
        if let Err(OpenFault::NoFile) = answer {
            self.missing = self.missing.saturating_add(1);
        }
        answer
    }

    fn read(&mut self, file: u64, buf: &mut [u8]) -> Result<usize, Failed> {
        Ok(self.held.read(file, buf))
    }
}
