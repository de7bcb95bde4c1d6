use crate::faults::Failed;
use crate::sink::Sink;
use std::io::{Stderr, Stdout, Write};

/// A stream. It tells the bytes that the stream tells, which are none for the streams of the system. A
/// write that takes nothing of a piece fails.
#[derive(Debug, Drop)]
pub struct StreamSink<W: Write> {
    stream: W,
    faults: u64,
}

/// Standard output.
pub type StdoutSink = StreamSink<Stdout>;

/// Standard error.
pub type StderrSink = StreamSink<Stderr>;

impl<W: Write> StreamSink<W> {
    ghost use Rattle.std.specs.Prelude.{◌≡◌};

    /// A sink to the stream, which holds what the stream holds, and a count of 0.
    pub fn new(stream: W) -> StreamSink<W>
        ensures contents { ⟦<StreamSink<W> as Sink>⟧.contents result ≡ W.contents stream }
        ensures faults { ⟦<StreamSink<W> as Sink>⟧.faults result ≡ 0 }
    {
        StreamSink { stream, faults: 0 }
    }
}

impl<W: Write> Sink for StreamSink<W> {
    ghost contents = { λ s. W.contents s.stream };

    ghost faults = { λ s. s.faults };

    fn write(&mut self, bytes: &[u8]) -> Result<usize, Failed> {
        match self.stream.write(bytes) {
            Ok(n) if n > 0 || bytes.is_empty() => Ok(n),
            _ => {
                self.faults = self.faults.saturating_add(1);
                Err(Failed)
            }
        }
    }
}
