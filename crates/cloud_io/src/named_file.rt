ghost use Rattle.std.specs.Prelude.{◌≡◌};
ghost use Rattle.cloud_io.specs.HeldFiles.{first_named};

use crate::ends::tells_end;

/// A file in memory.
#[derive(Debug, Drop)]
pub struct NamedFile {
    pub name: String,
    pub bytes: Vec<u8>,
}

/// A file in memory that was opened: its index among the files, the place in it, and whether a read told
/// its end.
#[derive(Debug, Drop)]
pub struct OpenFile {
    pub index: usize,
    pub place: usize,
    pub ended: bool,
}

impl OpenFile {
    ghost use Rattle.std.specs.Prelude.{◌+◌, ◌<◌, ◌^◌, ◌||◌};
    ghost use Rattle.cloud_io.specs.Files.{tells_end};

    /// Goes on behind a read that put so many bytes into the buffer.
    pub fn read_on(&mut self, n: usize, buf: &[u8])
        requires { self.old.place + n < 2 ^ 64 }
        ensures { self.new ≡ record self.old { place = self.old.place + n; ended = self.old.ended || tells_end n buf.now } }
    {
        self.place += n;
        self.ended = self.ended || tells_end(n, buf);
    }
}

/// The index of the first file of the name.
pub fn index_of(files: &[NamedFile], name: &str) -> Option<usize>
    ensures { result ≡ first_named files.now name.now }
{
    files.iter().position(|f| f.name.as_str() == name)
}
