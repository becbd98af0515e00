// Why there are no settings.
ghost use Rattle.std.specs.Prelude.{◌≡◌};
ghost use Rattle.config_keys.specs.declared.config_end.ConfigEnd.TheVariants as ends;
ghost use Rattle.config_keys.specs.Ends.{end_of_fault};

use crate::config_fault::ConfigFault;
use plan_files::FileFault;
use plan_num::NoMemory;
use std::alloc::AllocFailed;

/// Why there are no settings.
#[derive(Debug, Drop)]
pub enum ConfigEnd {
    /// They are refused.
    Refused(ConfigFault),
    /// A call on a file failed.
    FileFault,
    /// Memory was refused.
    NoMemory,
}

impl From<NoMemory> for ConfigEnd {
    ghost from_gives = { λ _ end. end ≡ ends.NoMemory };

    fn from(_refused: NoMemory) -> ConfigEnd {
        ConfigEnd::NoMemory
    }
}

impl<T: Drop> From<AllocFailed<T>> for ConfigEnd {
    ghost from_gives = { λ _ end. end ≡ ends.NoMemory };

    fn from(_refused: AllocFailed<T>) -> ConfigEnd {
        ConfigEnd::NoMemory
    }
}

impl From<FileFault> for ConfigEnd {
    ghost from_gives = { λ fault end. end ≡ end_of_fault fault };

    fn from(fault: FileFault) -> ConfigEnd {
        match fault {
            FileFault::Failed => ConfigEnd::FileFault,
            FileFault::NoMemory => ConfigEnd::NoMemory,
        }
    }
}
