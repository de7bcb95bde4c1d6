ghost use Rattle.std.specs.Prelude.{◌≡◌};
ghost use Rattle.cloud_io.specs.Files.{tells_end};

/// Whether a read that gave so many bytes tells the end of its file: it gave none, and there was room.
pub fn tells_end(n: usize, buf: &[u8]) -> bool
    ensures { result ≡ tells_end n buf.now }
{
    n == 0 && !buf.is_empty()
}
