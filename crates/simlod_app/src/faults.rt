ghost use Rattle.run_report.specs.Faults.{HasAxis};
ghost use Rattle.std.specs.Prelude.{◌≡◌, ◌<◌};
ghost use Rattle.simlod_app.specs.RunFaults.{words_fault, read_fault, xyz_fault, las_fault, span_fault, refusal_fault, IsOrMemory};
ghost use Rattle.run_report.specs.declared.fault.Fault.TheVariants.{Frames};

use batch_bounds::Refusal;
use cloud_io::ReadFault;
use las_points::LasFault;
use octree_plain::Span;
use run_report::{Fault, Name};
use run_words::WordsFault;
use std::alloc::Global;
use xyz_points::XyzFault;

/// The fault of words that are no job, or want of memory.
pub fn words_fault(alloc: Global, fault: WordsFault) -> Fault
    ensures kind { IsOrMemory (words_fault fault) result }
    ensures axis { HasAxis result }
{
    match fault {
        WordsFault::Command => Fault::Command,
        WordsFault::Word { at } => Fault::Word { at },
        WordsFault::Options => Fault::Options,
        WordsFault::Value { name } => match Name::new(alloc, name.word()) {
            Ok(name) => Fault::Value { name },
            Err(_) => Fault::Memory,
        },
        WordsFault::Pixels { n } => Fault::Pixels { n },
        WordsFault::Memory => Fault::Memory,
    }
}

/// The fault of a file that was not read to its end, or want of memory.
pub fn read_fault(alloc: Global, name: &str, fault: ReadFault) -> Fault
    ensures kind { IsOrMemory (read_fault name.now fault) result }
    ensures axis { HasAxis result }
{
    let Ok(name) = Name::new(alloc, name) else {
        return Fault::Memory;
    };
    match fault {
        ReadFault::NoFile => Fault::NoFile { name },
        ReadFault::Failed => Fault::ReadFault { name },
        ReadFault::TooLong { most: _ } => Fault::TooLong { name },
        ReadFault::Memory => Fault::Memory,
    }
}

/// The fault of a text that has no points, or want of memory.
pub fn xyz_fault(alloc: Global, name: &str, fault: XyzFault) -> Fault
    ensures kind { IsOrMemory (xyz_fault name.now fault) result }
    ensures axis { HasAxis result }
{
    let Ok(name) = Name::new(alloc, name) else {
        return Fault::Memory;
    };
    match fault {
        XyzFault::Fields { line, n } => Fault::Fields { name, line, n },
        XyzFault::Number { line, field } => Fault::Number { name, line, field },
        XyzFault::Range { line, field } => Fault::Range { name, line, field },
        XyzFault::Memory => Fault::Memory,
    }
}

/// The fault of a LAS file that is not read, or want of memory.
pub fn las_fault(alloc: Global, name: &str, fault: LasFault) -> Fault
    ensures kind { IsOrMemory (las_fault name.now fault) result }
    ensures axis { HasAxis result }
{
    let Ok(name) = Name::new(alloc, name) else {
        return Fault::Memory;
    };
    match fault {
        LasFault::NotLas => Fault::NotLas { name },
        LasFault::HeaderShort { have } => Fault::HeaderShort { name, have },
        LasFault::Version { major, minor } => Fault::Version { name, major, minor },
        LasFault::Compressed { byte } => Fault::Compressed { name, byte },
        LasFault::Format { byte } => Fault::Format { name, byte },
        LasFault::Length { have, need } => Fault::Length { name, have, need },
        LasFault::Start { offset, header } => Fault::Start {
            name,
            offset,
            header,
        },
        LasFault::PointsShort { have, need } => Fault::PointsShort { name, have, need },
        LasFault::Memory => Fault::Memory,
    }
}

/// The fault of points that span too much on an axis.
pub fn span_fault(span: Span) -> Fault
    requires { span.axis < 3 }
    ensures kind { result ≡ span_fault span }
    ensures axis { HasAxis result }
{
    Fault::Axis {
        axis: span.axis,
        span: span.span,
    }
}

/// The fault of a batch that a bound refuses, or want of memory.
pub fn refusal_fault(refusal: Refusal) -> Fault
    ensures kind { result ≡ refusal_fault refusal }
    ensures axis { HasAxis result }
{
    match refusal {
        Refusal::Batch { row } => Fault::Batch { row },
        Refusal::Memory => Fault::Memory,
    }
}

/// The fault of a LAS file whose scales or offsets are not those of the first, or want of memory.
pub fn frames_fault(alloc: Global, name: &str, first: &str) -> Fault
    ensures kind { IsOrMemory (Frames name.now first.now) result }
    ensures axis { HasAxis result }
{
    let Ok(name) = Name::new(alloc, name) else {
        return Fault::Memory;
    };
    match Name::new(alloc, first) {
        Ok(first) => Fault::Frames { name, first },
        Err(_) => Fault::Memory,
    }
}
