ghost use Rattle.std.specs.Prelude.{All};
ghost use Rattle.cloud_io.specs.HeldFiles.{IsOpenIn};

use crate::faults::OpenFault;
use crate::named_file::{NamedFile, OpenFile, index_of};
use std::alloc::Global;

/// Files in memory, and those of them that were opened. Where two have one name, the first stands for
/// it.
#[derive(Debug, Drop)]
pub struct HeldFiles {
    files: Vec<NamedFile>,
    opened: Vec<OpenFile>,
    ghost valid: { All (λ o. IsOpenIn files.items o) opened.items },
}

impl HeldFiles {
    ghost use Rattle.std.specs.Prelude.{◌≡◌, ◌≢◌, ◌≤◌, ◌<◌, [], Some, Err, length};
    ghost use Rattle.cloud_io.specs.Files.{Opens, AgreesWith, ReadsOn, GivesNext};
    ghost use Rattle.cloud_io.specs.HeldViews.{folder, opened_files};

    /// These files, none of them opened.
    pub fn new(alloc: Global, files: Vec<NamedFile>) -> HeldFiles
        ensures files { result.files ≡ files }
        ensures opened { result.opened.items ≡ [] }
    {
        HeldFiles {
            files,
            opened: Vec::new(alloc),
        }
    }

    /// Opens the file of the name. It is refused only where no file has the name, or memory
    /// runs out.
    pub fn open(&mut self, name: &str) -> Result<u64, OpenFault>
        ensures files { self.new.files ≡ self.old.files }
        ensures opens { Opens (opened_files self.old) (opened_files self.new) name.now result }
        ensures agrees { AgreesWith (Some (folder self.old)) name.now result }
        ensures sure { result ≢ Err OpenFault.Failed }
    {
        let Some(index) = index_of(self.files.as_slice(), name) else {
            return Err(OpenFault::NoFile);
        };
        let number = self.opened.len() as u64;
        match self.opened.push(OpenFile {
            index,
            place: 0,
            ended: false,
        }) {
            Ok(()) => Ok(number),
            Err(_) => Err(OpenFault::Memory),
        }
    }

    /// Copies the next bytes of an opened file to the front of `buf`, and answers how many.
    pub fn read(&mut self, file: u64, buf: &mut [u8]) -> usize
        requires { file < length (opened_files self.old) }
        ensures files { self.new.files ≡ self.old.files }
        ensures bound { result ≤ length buf.new }
        ensures reads { ReadsOn (opened_files self.old) (opened_files self.new) file result buf.new }
        ensures gives { GivesNext (Some (folder self.old)) (opened_files self.old) file result buf.new }
    {
        let opened = &mut self.opened[file as usize];
        let bytes = self.files[opened.index].bytes.as_slice();
        let (_, rest) = bytes.split_at(opened.place);
        let n = rest.len().min(buf.len());
        buf[..n].copy_from_slice(&rest[..n]);
        opened.read_on(n, buf);
        n
    }
}
