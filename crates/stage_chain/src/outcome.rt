// What a run of the chain answers.
ghost use Rattle.std.specs.Prelude.{◌≡◌};
ghost use Rattle.stage_chain.specs.declared.outcome.ChainFault.TheVariants as faults;
ghost use Rattle.stage_chain.specs.Ends.{chain_fault_of};

use command_line::RunEnd;
use plan_files::FileFault;
use plan_num::{NoMemory, Text};
use std::alloc::AllocFailed;
use thiserror::Error;

/// How a run ended, and its report.
#[derive(Debug, Drop)]
pub struct Outcome {
    pub end: RunEnd,
    pub report: Text,
}

/// Why a run has no outcome.
#[derive(Clone, Copy, Debug, PartialEq, Eq, Error)]
pub enum ChainFault {
    /// A file could not be read or written.
    #[error("file fault")]
    FileFault,
    /// Memory was refused.
    #[error("out of memory")]
    NoMemory,
}

impl From<FileFault> for ChainFault {
    ghost from_gives = { λ fault chain. chain ≡ chain_fault_of fault };

    fn from(fault: FileFault) -> ChainFault {
        match fault {
            FileFault::Failed => ChainFault::FileFault,
            FileFault::NoMemory => ChainFault::NoMemory,
        }
    }
}

impl From<NoMemory> for ChainFault {
    ghost from_gives = { λ _ chain. chain ≡ faults.NoMemory };

    fn from(_refused: NoMemory) -> ChainFault {
        ChainFault::NoMemory
    }
}

impl<T: Drop> From<AllocFailed<T>> for ChainFault {
    ghost from_gives = { λ _ chain. chain ≡ faults.NoMemory };

    fn from(_refused: AllocFailed<T>) -> ChainFault {
        ChainFault::NoMemory
    }
}
