ghost use Rattle.std.specs.Prelude.{◌≡◌};
ghost use Rattle.run_report.specs.declared.fault.Fault.TheVariants.{Memory};

use crate::name::Name;
use cube_math::RefusedRow;
use std::alloc::{AllocError, AllocFailed};

/// Why a run ended before its output was whole. A `name` is a file's name as the words gave it.
#[derive(Debug, Drop)]
pub enum Fault {
    /// The output could not be written.
    Output,
    /// No known command was named.
    Command,
    /// The word at this place, from 1, is neither a file nor an option.
    Word {
        at: u64,
    },
    /// The options and files do not suit the command.
    Options,
    /// The value of the option of this name is not of its form or out of its range.
    Value {
        name: Name,
    },
    /// All frames together would have this many pixels.
    Pixels {
        n: u64,
    },
    /// There is no file of this name.
    NoFile {
        name: Name,
    },
    /// The file could not be read to its end.
    ReadFault {
        name: Name,
    },
    /// A line of text, counted from 1, has `n` fields.
    Fields {
        name: Name,
        line: u64,
        n: u64,
    },
    /// A field, counted from 1, is not a number.
    Number {
        name: Name,
        line: u64,
        field: u32,
    },
    /// A field's number is out of range.
    Range {
        name: Name,
        line: u64,
        field: u32,
    },
    /// The file does not begin as LAS.
    NotLas {
        name: Name,
    },
    /// The LAS file ends in its header, after `have` bytes.
    HeaderShort {
        name: Name,
        have: u64,
    },
    /// The LAS version is not one that is read.
    Version {
        name: Name,
        major: u8,
        minor: u8,
    },
    /// The LAS points are compressed.
    Compressed {
        name: Name,
        byte: u8,
    },
    /// The LAS point format is not one that is read.
    Format {
        name: Name,
        byte: u8,
    },
    /// The LAS point records have `have` bytes, too few for their format.
    Length {
        name: Name,
        have: u16,
        need: u16,
    },
    /// The LAS points would start within the header.
    Start {
        name: Name,
        offset: u32,
        header: u32,
    },
    /// The LAS file has `have` bytes, too few for its points.
    PointsShort {
        name: Name,
        have: u64,
        need: u128,
    },
    /// The scales or offsets of a LAS file differ from those of the first.
    Frames {
        name: Name,
        first: Name,
    },
    /// The schedule's word that begins at this byte, from 0, is not of its form.
    Schedule {
        name: Name,
        at: u64,
    },
    /// The file has more than 1,000,000,000 bytes.
    TooLong {
        name: Name,
    },
    /// On this axis, 0 to 2 for x, y and z, the points span more than a cube can.
    Axis {
        axis: u8,
        span: u64,
    },
    /// There are too many batches.
    Batches,
    /// A bound refused a batch.
    Batch {
        row: RefusedRow,
    },
    /// There was no memory.
    Memory,
}

impl From<AllocError> for Fault {
    ghost from_gives = { λ _ fault. fault ≡ Memory };

    fn from(_error: AllocError) -> Fault {
        Fault::Memory
    }
}

impl<T: Drop> From<AllocFailed<T>> for Fault {
    ghost from_gives = { λ _ fault. fault ≡ Memory };

    fn from(_error: AllocFailed<T>) -> Fault {
        Fault::Memory
    }
}
