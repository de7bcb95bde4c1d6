ghost use Rattle.std.specs.Prelude.{ℕ, ◌<◌, ◌≤◌, List, Option, IfOk, length};
ghost use Rattle.std.specs.Io.{WritesAtMost};
ghost use Rattle.std.specs.Io.KnownBytes.{WriteAppends};
ghost use Rattle.cloud_io.specs.Counts.{HasCause};

use crate::faults::Failed;

/// What takes bytes, and appends them to those that it has.
///
/// A count of faults rises by one at each call that fails, and stays at every other. A count that stands
/// at 2^64 - 1, the end of its type, counts as risen.
pub trait Sink {
    /// The bytes that it holds, or None where they are not told.
    ghost contents: { Self → Option (List ℕ) };

    /// How often a call failed.
    ghost faults: { Self → ℕ };

    /// Appends a first piece of `bytes`, and answers its length, at least 1 where `bytes` is not empty.
    /// Where it fails nothing was appended.
    fn write(&mut self, bytes: &[u8]) -> Result<usize, Failed>
        ensures bound { WritesAtMost result bytes.now }
        ensures some { 0 < length bytes.now → IfOk result (λ n. 1 ≤ n) }
        ensures appends { WriteAppends (contents self.old) (contents self.new) result bytes.now }
        ensures cause { HasCause (faults self.old) (faults self.new) result };
}
