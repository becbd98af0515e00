// Why a vehicle schedule does not pass.
ghost use Rattle.std.specs.Prelude.{◌≡◌, Some, IfOk};
ghost use Rattle.vehicle_flow.specs.ScheduleChecks.{plan_rule, potential_rule};

use flow_potentials::PotentialFault;
use plan_num::NoMemory;
use vehicle_model::PlanFault;

/// The rule that a vehicle schedule breaks, or that the potentials beside it do.
#[derive(Clone, Copy, Debug, PartialEq, Eq)]
pub enum ScheduleFault {
    /// The text is no table of a schedule.
    Row,
    /// Its rows are not those of the trips.
    Trips,
    /// A trip may not follow the one before it.
    Follow,
    /// No potentials stand beside it.
    Certificate,
    /// Their text is no table of one row for each trip, in order.
    Potentials,
    /// The link from a trip to another gains more than their two potentials.
    Pair,
    /// All potentials together are not what the schedule gains.
    Sum,
}

impl ScheduleFault {
    /// The rule of a fault of a plan; want of memory is handed on.
    pub(crate) fn of_plan(fault: PlanFault) -> Result<ScheduleFault, NoMemory>
        ensures { IfOk result (λ rule. plan_rule fault ≡ Some rule) }
    {
        match fault {
            PlanFault::Row(_) => Ok(ScheduleFault::Row),
            PlanFault::Trips { .. } => Ok(ScheduleFault::Trips),
            PlanFault::Follow { .. } => Ok(ScheduleFault::Follow),
            PlanFault::NoMemory => Err(NoMemory),
        }
    }

    /// The rule of a fault of potentials.
    pub(crate) fn of_potentials(fault: PotentialFault) -> ScheduleFault
        ensures { result ≡ potential_rule fault }
    {
        match fault {
            PotentialFault::Pair { .. } => ScheduleFault::Pair,
            PotentialFault::Sum => ScheduleFault::Sum,
        }
    }
}
