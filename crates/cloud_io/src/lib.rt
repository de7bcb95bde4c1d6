//! What a program reads and writes, as traits with a meaning: inputs in memory and from the system,
//! sinks in memory and to the standard streams, and the reading and writing of a whole file.
#![tactic(auto)]

mod ends;
mod failing_calls;
mod faults;
mod file_inputs;
mod given_bytes;
mod held_files;
mod inputs;
mod mem_inputs;
mod mem_sink;
mod named_file;
mod sink;
mod stream_sink;
mod sure_inputs;
mod sure_sink;
mod system_file;
mod whole;

pub use faults::{Failed, OpenFault, ReadFault};
pub use file_inputs::FileInputs;
pub use inputs::Inputs;
pub use mem_inputs::MemInputs;
pub use mem_sink::MemSink;
pub use named_file::NamedFile;
pub use sink::Sink;
pub use stream_sink::{StderrSink, StdoutSink, StreamSink};
pub use sure_inputs::SureInputs;
pub use sure_sink::SureSink;
pub use whole::{read_all, write_all};

#[cfg(test)]
mod tests;
