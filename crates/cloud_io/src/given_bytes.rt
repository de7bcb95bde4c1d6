ghost use Rattle.std.specs.Prelude.{◌≡◌, ℕ, List, [], ◌++◌};
ghost use Rattle.std.specs.Borrow.{ftrue};

use std::marker::Model;

/// The bytes that the reads of a file have given, in order. Only contracts see them: a value takes no
/// memory, and its calls do nothing when they run.
#[derive(Drop)]
pub struct GivenBytes {
    pub ghost bytes: { List ℕ },
}

impl Model for GivenBytes {
    ghost also_owns = { λ _. ftrue };
}

impl GivenBytes {
    /// No bytes.
    pub fn new() -> GivenBytes
        ensures { result.bytes ≡ [] }
    {
        GivenBytes {}
    }

    /// Notes the bytes of one more read.
    pub fn add(&mut self, _piece: &[u8])
        ensures { self.new.bytes ≡ self.old.bytes ++ _piece.now }
    {}
}

// It owns nothing.
unsafe impl Send for GivenBytes {}
