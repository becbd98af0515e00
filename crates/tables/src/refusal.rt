// What a stage refuses.
ghost use Rattle.std.specs.Prelude.{◌≡◌};
ghost use Rattle.tables.specs.declared.refusal.StageFault.TheVariants as stage_faults;

use crate::counted::Counted;
use crate::file_id::FileId;
use crate::row_why::RowWhy;
use plan_num::NoMemory;
use std::alloc::{AllocError, AllocFailed};

/// Why a stage has no result.
#[derive(Clone, Copy, Debug, PartialEq, Eq)]
pub enum Refusal {
    /// A row of an input breaks a rule; row 0 is the whole table.
    BadRow { file: FileId, row: u64, why: RowWhy },
    /// A list is longer than its limit.
    TooMany { what: Counted, count: u64 },
    NoSolution,
    /// The budget of a search ended first.
    Spent { entries: u64 },
}

/// Why a stage answers no result.
#[derive(Clone, Copy, Debug, PartialEq, Eq)]
pub enum StageFault {
    Refused(Refusal),
    NoMemory,
}

impl From<NoMemory> for StageFault {
    ghost from_gives = { λ _ fault. fault ≡ stage_faults.NoMemory };

    fn from(_refused: NoMemory) -> StageFault {
        StageFault::NoMemory
    }
}

impl From<Refusal> for StageFault {
    ghost from_gives = { λ refusal fault. fault ≡ stage_faults.Refused refusal };

    fn from(refusal: Refusal) -> StageFault {
        StageFault::Refused(refusal)
    }
}

impl From<AllocError> for StageFault {
    ghost from_gives = { λ _ fault. fault ≡ stage_faults.NoMemory };

    fn from(_refused: AllocError) -> StageFault {
        StageFault::NoMemory
    }
}

impl<T: Drop> From<AllocFailed<T>> for StageFault {
    ghost from_gives = { λ _ fault. fault ≡ stage_faults.NoMemory };

    fn from(_refused: AllocFailed<T>) -> StageFault {
        StageFault::NoMemory
    }
}
