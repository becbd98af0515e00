// Why a script cannot be played to its end.
use plan_files::{FileFault, SinkFault};
use plan_num::NoMemory;
use std::alloc::{AllocError, AllocFailed};
use std::io;

/// Why a script cannot be played to its end: memory was refused, a file of scripts could not be
/// read, a line could not be printed, or a script asks for what cannot be done.
#[derive(Debug, Drop)]
pub struct Trouble;

impl From<NoMemory> for Trouble {
    fn from(_cause: NoMemory) -> Trouble {
        Trouble
    }
}

impl From<AllocError> for Trouble {
    fn from(_cause: AllocError) -> Trouble {
        Trouble
    }
}

impl<T: Drop> From<AllocFailed<T>> for Trouble {
    fn from(_cause: AllocFailed<T>) -> Trouble {
        Trouble
    }
}

impl From<FileFault> for Trouble {
    fn from(_cause: FileFault) -> Trouble {
        Trouble
    }
}

impl From<SinkFault> for Trouble {
    fn from(_cause: SinkFault) -> Trouble {
        Trouble
    }
}

impl From<io::Error> for Trouble {
    fn from(_cause: io::Error) -> Trouble {
        Trouble
    }
}
