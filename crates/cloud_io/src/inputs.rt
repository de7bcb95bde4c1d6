ghost use Rattle.std.specs.Prelude.{◌≡◌, ◌<◌, ℕ, List, Option, length};
ghost use Rattle.std.specs.Io.{ReadsAtMost};
ghost use Rattle.std.specs.Io.KnownBytes.{ReadConsumes};
ghost use Rattle.cloud_io.specs.Counts.{HasCause, HasCauses};

use crate::faults::{Failed, OpenFault};

/// Files that can be read, by their names.
///
/// A count of faults and a count of missing names tell why a call failed: each rises by one at such an
/// answer, and stays at every other. A count that stands at 2^64 - 1, the end of its type, counts as
/// risen.
pub trait Inputs: Send {
    ghost use Rattle.cloud_io.specs.Files.{Folder, Opened, AgreesWith, Opens, Reads, Gives};

    /// The bytes of each name, or None where they are not told.
    ghost files: { Self → Option Folder };

    /// The files that were opened, in order, each with its name, the bytes that its reads have given so
    /// far, and whether one of them told its end. The number of a file is its index among them.
    ghost opened: { Self → Opened };

    /// The bytes that the reads of an opened file are still to give, or None where they are not told.
    ghost left: { Self → ℕ → Option (List ℕ) };

    /// How often a call failed.
    ghost faults: { Self → ℕ };

    /// How often a name was missing.
    ghost missing: { Self → ℕ };

    /// Opens the file of the name, and answers its number. Nothing of it was read yet.
    fn open_input(&mut self, name: &str) -> Result<u64, OpenFault>
        ensures files { files self.new ≡ files self.old }
        ensures opens { Opens (opened self.old) (opened self.new) name.now result }
        ensures agrees { AgreesWith (files self.old) name.now result }
        ensures causes { HasCauses (faults self.old) (faults self.new)
            (missing self.old) (missing self.new) OpenFault.Failed OpenFault.NoFile result };

    /// Reads the next bytes of an opened file to the front of `buf`, and answers how many. For a `buf`
    /// that is not empty 0 means the end. What a file has given grows by just these bytes.
    fn read(&mut self, file: u64, buf: &mut [u8]) -> Result<usize, Failed>
        requires { file < length (opened self.old) }
        ensures files { files self.new ≡ files self.old }
        ensures bound { ReadsAtMost result buf.new }
        ensures reads { Reads (opened self.old) (opened self.new) file result buf.new }
        ensures gives { Gives (files self.old) (opened self.old) file result buf.new }
        ensures consumes { ReadConsumes (left self.old file) (left self.new file) result buf.new }
        ensures missing { missing self.new ≡ missing self.old }
        ensures cause { HasCause (faults self.old) (faults self.new) result };
}
