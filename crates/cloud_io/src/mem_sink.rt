ghost use Rattle.std.specs.Prelude.{◌≤◌};

use crate::failing_calls::FailingCalls;
use crate::faults::Failed;
use crate::sink::Sink;
use std::alloc::Global;

/// A sink in memory, the numbers of its calls that fail, from 1, and the most bytes that one call takes.
/// A call that finds no memory fails too.
#[derive(Debug, Drop)]
pub struct MemSink {
    bytes: Vec<u8>,
    failing: FailingCalls,
    most: usize,
    faults: u64,
    ghost takes: { 1 ≤ most },
}

impl MemSink {
    ghost use Rattle.std.specs.Prelude.{◌≡◌, [], Some};

    /// A sink that holds nothing, and a count of 0.
    pub fn new(alloc: Global, failing: Vec<u64>, most: usize) -> MemSink
        requires { 1 ≤ most }
        ensures contents { ⟦<MemSink as Sink>⟧.contents result ≡ Some [] }
        ensures faults { ⟦<MemSink as Sink>⟧.faults result ≡ 0 }
    {
        MemSink {
            bytes: Vec::new(alloc),
            failing: FailingCalls::new(failing),
            most,
            faults: 0,
        }
    }

    /// The bytes that it holds.
    pub fn bytes(&self) -> &[u8]
        ensures { ⟦<MemSink as Sink>⟧.contents self.now ≡ Some result.now }
    {
        self.bytes.as_slice()
    }
}

impl Sink for MemSink {
    ghost use Rattle.std.specs.Prelude.{Some};

    ghost contents = { λ s. Some s.bytes.items };

    ghost faults = { λ s. s.faults };

    fn write(&mut self, bytes: &[u8]) -> Result<usize, Failed> {
        let n = bytes.len().min(self.most);
        if self.failing.next_fails() || self.bytes.extend_from_slice(&bytes[..n]).is_err() {
            self.faults = self.faults.saturating_add(1);
            return Err(Failed);
        }
        Ok(n)
    }
}
