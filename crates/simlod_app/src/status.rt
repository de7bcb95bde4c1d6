ghost use Rattle.std.specs.Prelude.{◌≡◌};
ghost use Rattle.simlod_app.specs.Statuses.{status_code, status_of};

use run_report::Fault;

/// How a run ended.
#[derive(Clone, Copy, Debug, PartialEq, Eq)]
pub enum Status {
    /// The whole output was written.
    Ok,
    /// The output could not be written to its end.
    OutputFault,
    /// The words are no job, or not one that is run here.
    Usage,
    /// A file is not there.
    NoFile,
    /// A file could not be read to its end.
    ReadFault,
    /// A file's bytes are refused.
    BadInput,
    /// A limit is passed.
    Limit,
    /// There was no memory.
    Memory,
}

impl Status {
    /// The exit code of the program, 0 to 7.
    pub fn code(self) -> u8
        ensures { result ≡ status_code self }
    {
        match self {
            Status::Ok => 0,
            Status::OutputFault => 1,
            Status::Usage => 2,
            Status::NoFile => 3,
            Status::ReadFault => 4,
            Status::BadInput => 5,
            Status::Limit => 6,
            Status::Memory => 7,
        }
    }
}

/// The status that a fault leads to.
pub fn status_of(fault: &Fault) -> Status
    ensures { result ≡ status_of fault.now }
{
    match fault {
        Fault::Output => Status::OutputFault,
        Fault::Command
        | Fault::Word { .. }
        | Fault::Options
        | Fault::Value { .. }
        | Fault::Pixels { .. } => Status::Usage,
        Fault::NoFile { .. } => Status::NoFile,
        Fault::ReadFault { .. } => Status::ReadFault,
        Fault::Fields { .. }
        | Fault::Number { .. }
        | Fault::Range { .. }
        | Fault::NotLas { .. }
        | Fault::HeaderShort { .. }
        | Fault::Version { .. }
        | Fault::Compressed { .. }
        | Fault::Format { .. }
        | Fault::Length { .. }
        | Fault::Start { .. }
        | Fault::PointsShort { .. }
        | Fault::Frames { .. }
        | Fault::Schedule { .. } => Status::BadInput,
        Fault::TooLong { .. } | Fault::Axis { .. } | Fault::Batches | Fault::Batch { .. } =>
            Status::Limit,
        Fault::Memory => Status::Memory,
    }
}
