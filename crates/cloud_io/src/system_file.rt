ghost use Rattle.std.specs.Prelude.{◌≡◌, Some, Ok, IfNone, [], string_bytes};
ghost use Rattle.std.specs.Io.{ReadsAtMost};
ghost use Rattle.std.specs.Io.KnownBytes.{ReadConsumes};
ghost use Rattle.cloud_io.specs.SystemFiles.{opened_file, left_in, behind};

use crate::ends::tells_end;
use crate::faults::Failed;
use crate::given_bytes::GivenBytes;
use std::io::Read;

/// A file of the system that was opened, and what its reads have given. It is closed where its end is
/// read, so that many files can be read one after the other.
#[derive(Drop)]
pub struct SystemFile<F> {
    name: String,
    file: Option<F>,
    given: GivenBytes,
}

impl<F: Read + Drop> SystemFile<F> {
    /// The file of this name, of which nothing was read.
    pub fn new(name: String, file: F) -> SystemFile<F>
        ensures name { result.name ≡ name }
        ensures file { result.file ≡ Some file }
        ensures given { result.given.bytes ≡ [] }
    {
        SystemFile {
            name,
            file: Some(file),
            given: GivenBytes::new(),
        }
    }

    /// Reads the next bytes to the front of `buf`, and answers how many; none of a closed file. Where it
    /// fails none were read.
    pub fn read(&mut self, buf: &mut [u8]) -> Result<usize, Failed>
        ensures bound { ReadsAtMost result buf.new }
        ensures reads { opened_file self.new ≡ behind (opened_file self.old) result buf.new }
        ensures closed { IfNone self.old.file (result ≡ Ok 0) }
        ensures bytes { ReadConsumes (left_in F.remaining self.old.file) (left_in F.remaining self.new.file) result buf.new }
    {
        let Some(file) = &mut self.file else {
            return Ok(0);
        };
        let Ok(n) = file.read(buf) else {
            return Err(Failed);
        };
        self.given.add(&buf[..n]);
        if tells_end(n, buf) {
            self.file = None;
        }
        Ok(n)
    }
}
