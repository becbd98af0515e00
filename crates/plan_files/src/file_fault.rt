// Why a call on a file failed.
ghost use Rattle.std.specs.Prelude.{◌≡◌};
ghost use Rattle.std.specs.IoError.{error_kind};
ghost use Rattle.plan_files.specs.declared.file_fault.FileFault.TheVariants as faults;
ghost use Rattle.plan_files.specs.Kinds.{fault_of_kind};

use plan_num::NoMemory;
use std::alloc::AllocFailed;
use std::io;
use std::io::ErrorKind;
use thiserror::Error;

/// Why a call on a file failed.
#[derive(Clone, Copy, Debug, PartialEq, Eq, Error)]
pub enum FileFault {
    /// The file could not be read or written.
    #[error("file fault")]
    Failed,
    /// Memory was refused.
    #[error("out of memory")]
    NoMemory,
}

impl From<NoMemory> for FileFault {
    ghost from_gives = { λ _ fault. fault ≡ faults.NoMemory };

    fn from(_refused: NoMemory) -> FileFault {
        FileFault::NoMemory
    }
}

impl<T: Drop> From<AllocFailed<T>> for FileFault {
    ghost from_gives = { λ _ fault. fault ≡ faults.NoMemory };

    fn from(_refused: AllocFailed<T>) -> FileFault {
        FileFault::NoMemory
    }
}

impl From<io::Error> for FileFault {
    ghost from_gives = { λ error fault. fault ≡ fault_of_kind (error_kind error) };

    fn from(error: io::Error) -> FileFault {
        match error.kind() {
            ErrorKind::OutOfMemory => FileFault::NoMemory,
            _ => FileFault::Failed,
        }
    }
}
