// Why a text is no table.
ghost use Rattle.std.specs.Prelude.{◌≡◌};
ghost use Rattle.tables.specs.declared.read_fault.ReadFault.TheVariants as read_faults;

use crate::row_why::RowWhy;
use plan_num::NoMemory;
use std::alloc::AllocFailed;

/// A row that is refused.
#[derive(Clone, Copy, Debug, PartialEq, Eq)]
pub struct RowFault {
    pub row: u64,
    pub why: RowWhy,
}

/// Why a text is not read as a table.
#[derive(Clone, Copy, Debug, PartialEq, Eq)]
pub enum ReadFault {
    Row(RowFault),
    NoMemory,
}

impl From<NoMemory> for ReadFault {
    ghost from_gives = { λ _ fault. fault ≡ read_faults.NoMemory };

    fn from(_refused: NoMemory) -> ReadFault {
        ReadFault::NoMemory
    }
}

impl From<RowFault> for ReadFault {
    ghost from_gives = { λ row fault. fault ≡ read_faults.Row row };

    fn from(fault: RowFault) -> ReadFault {
        ReadFault::Row(fault)
    }
}

impl<T: Drop> From<AllocFailed<T>> for ReadFault {
    ghost from_gives = { λ _ fault. fault ≡ read_faults.NoMemory };

    fn from(_refused: AllocFailed<T>) -> ReadFault {
        ReadFault::NoMemory
    }
}
