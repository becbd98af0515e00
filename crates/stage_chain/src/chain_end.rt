// What ends a chain before its last stage.
ghost use Rattle.std.specs.Prelude.{◌≡◌};
ghost use Rattle.stage_chain.specs.declared.chain_end.ChainEnd.TheVariants as ends;
ghost use Rattle.stage_chain.specs.Ends.{end_of_config, end_of_file};

use crate::cause::Cause;
use config_keys::ConfigEnd;
use plan_files::FileFault;
use plan_num::NoMemory;
use std::alloc::AllocFailed;

/// What ends a chain before its last stage.
#[derive(Debug, Drop)]
pub enum ChainEnd {
    /// A stage is not made.
    Stopped(Cause),
    /// A call on a file failed.
    FileFault,
    /// Memory was refused.
    NoMemory,
}

impl From<FileFault> for ChainEnd {
    ghost from_gives = { λ fault end. end ≡ end_of_file fault };

    fn from(fault: FileFault) -> ChainEnd {
        match fault {
            FileFault::Failed => ChainEnd::FileFault,
            FileFault::NoMemory => ChainEnd::NoMemory,
        }
    }
}

impl From<ConfigEnd> for ChainEnd {
    ghost from_gives = { λ config end. end ≡ end_of_config config };

    fn from(config: ConfigEnd) -> ChainEnd {
        match config {
            ConfigEnd::Refused(fault) => ChainEnd::Stopped(Cause::BadConfig(fault)),
            ConfigEnd::FileFault => ChainEnd::FileFault,
            ConfigEnd::NoMemory => ChainEnd::NoMemory,
        }
    }
}

impl From<NoMemory> for ChainEnd {
    ghost from_gives = { λ _ end. end ≡ ends.NoMemory };

    fn from(_refused: NoMemory) -> ChainEnd {
        ChainEnd::NoMemory
    }
}

impl<T: Drop> From<AllocFailed<T>> for ChainEnd {
    ghost from_gives = { λ _ end. end ≡ ends.NoMemory };

    fn from(_refused: AllocFailed<T>) -> ChainEnd {
        ChainEnd::NoMemory
    }
}
