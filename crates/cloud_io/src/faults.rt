ghost use Rattle.std.specs.Prelude.{◌≡◌};

use std::alloc::AllocError;

/// A read or a write failed.
#[derive(Clone, Copy, Debug, PartialEq, Eq)]
pub struct Failed;

/// Why a file was not opened.
#[derive(Clone, Copy, Debug, PartialEq, Eq)]
pub enum OpenFault {
    /// There is no file of the name.
    NoFile,
    /// There may be one, but opening it failed.
    Failed,
    /// Memory ran out.
    Memory,
}

/// Why a file was not read whole.
#[derive(Clone, Copy, Debug, PartialEq, Eq)]
pub enum ReadFault {
    /// There is no file of the name.
    NoFile,
    /// Opening it or a read failed.
    Failed,
    /// It has more than `most` bytes.
    TooLong { most: u64 },
    /// Memory ran out.
    Memory,
}

impl From<OpenFault> for ReadFault {
    ghost use Rattle.cloud_io.specs.Whole.{read_fault};

    ghost from_gives = { λ fault made. made ≡ read_fault fault };

    fn from(fault: OpenFault) -> ReadFault {
        match fault {
            OpenFault::NoFile => ReadFault::NoFile,
            OpenFault::Failed => ReadFault::Failed,
            OpenFault::Memory => ReadFault::Memory,
        }
    }
}

impl From<Failed> for ReadFault {
    ghost use Rattle.cloud_io.specs.declared.faults.ReadFault.TheVariants.{Failed as ReadFailed};

    ghost from_gives = { λ _ made. made ≡ ReadFailed };

    fn from(_failed: Failed) -> ReadFault {
        ReadFault::Failed
    }
}

impl From<AllocError> for ReadFault {
    ghost use Rattle.cloud_io.specs.declared.faults.ReadFault.TheVariants.{Memory};

    ghost from_gives = { λ _ made. made ≡ Memory };

    fn from(_error: AllocError) -> ReadFault {
        ReadFault::Memory
    }
}
