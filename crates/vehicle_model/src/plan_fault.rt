// Why a text is no plan.
ghost use Rattle.std.specs.Prelude.{◌≡◌};
ghost use Rattle.vehicle_model.specs.declared.plan_fault.PlanFault.TheVariants as plan_faults;
ghost use Rattle.vehicle_model.specs.PlanFaults.{fault_of};

use plan_num::NoMemory;
use std::alloc::AllocFailed;
use tables::{ReadFault, RowFault};

/// Why a text is no plan over some trips.
#[derive(Clone, Copy, Debug, PartialEq, Eq)]
pub enum PlanFault {
    /// It is no table of a schedule.
    Row(RowFault),
    /// Its rows are not those of the trips, at the row of a number of the text; 0 where a trip has
    /// no row.
    Trips { row: u64 },
    /// A trip, by its number from 0, may not follow the trip before it.
    Follow { trip: usize },
    /// There is not enough memory.
    NoMemory,
}

impl From<ReadFault> for PlanFault {
    ghost from_gives = { λ read fault. fault ≡ fault_of read };

    fn from(fault: ReadFault) -> PlanFault {
        match fault {
            ReadFault::Row(first) => PlanFault::Row(first),
            ReadFault::NoMemory => PlanFault::NoMemory,
        }
    }
}

impl From<NoMemory> for PlanFault {
    ghost from_gives = { λ _ fault. fault ≡ plan_faults.NoMemory };

    fn from(_refused: NoMemory) -> PlanFault {
        PlanFault::NoMemory
    }
}

impl<T: Drop> From<AllocFailed<T>> for PlanFault {
    ghost from_gives = { λ _ fault. fault ≡ plan_faults.NoMemory };

    fn from(_refused: AllocFailed<T>) -> PlanFault {
        PlanFault::NoMemory
    }
}
