// What a schedule breaks over some trips.
ghost use Rattle.std.specs.Prelude.{◌≡◌, Some, slice_get, IfOk, IfNone, option_copied};
ghost use Rattle.vehicle_flow.specs.RightSchedules.{passed_over, PassesOver};
ghost use Rattle.vehicle_flow.specs.ScheduleChecks.{certificate_rules, schedule_fault, IsMark};
ghost use Rattle.vehicle_flow.specs.ScheduleChecks.{IsMarked, Passes};
ghost use Rattle.link_plans.specs.Plans.{IsPlan};
ghost use Rattle.vehicle_model.specs.Trips.{links_of};

use crate::schedule_fault::ScheduleFault;
use flow_potentials::{check_potentials, read_potentials};
use plan_num::NoMemory;
use std::alloc::Global;
use tables::ReadFault;
use vehicle_model::{Plan, Trips, read_plan};

/// The first rule that the text of a schedule breaks, or that potentials beside it do.
pub(crate) fn first_fault(
    alloc: Global,
    trips: &Trips,
    schedule: &[u8],
    potentials: Option<&[u8]>,
) -> Result<Option<ScheduleFault>, NoMemory>
    ensures first { IfOk result (λ found.
        found ≡ schedule_fault trips.now schedule.now (option_copied potentials.entry)) }
    ensures passes { IfOk result (λ found.
        IfNone found (Passes trips.now schedule.now (option_copied potentials.entry))) }
    ensures over { IfOk result (λ found. IfNone (passed_over found)
        (PassesOver trips.now schedule.now (option_copied potentials.entry))) }
{
    match read_plan(alloc, schedule, trips) {
        Ok(plan) => certificate_fault(alloc, trips, &plan, potentials),
        Err(fault) => Ok(Some(ScheduleFault::of_plan(fault)?)),
    }
}

// The first rule that the potentials of a plan break.
fn certificate_fault(
    alloc: Global,
    trips: &Trips,
    plan: &Plan,
    potentials: Option<&[u8]>,
) -> Result<Option<ScheduleFault>, NoMemory>
    requires { IsPlan (links_of trips.now) plan.now }
    ensures first { IfOk result (λ found. found
        ≡ slice_get (certificate_rules trips.now plan.now (option_copied potentials.entry)) 0) }
    ensures passes { IfOk result (λ found.
        IfNone found (IsMarked trips.now plan.now (option_copied potentials.entry))) }
{
    match potentials {
        Some(text) => potentials_fault(alloc, trips, plan, text),
        None => Ok(Some(ScheduleFault::Certificate)),
    }
}

// The first rule that the text of potentials of a plan breaks.
fn potentials_fault(
    alloc: Global,
    trips: &Trips,
    plan: &Plan,
    text: &[u8],
) -> Result<Option<ScheduleFault>, NoMemory>
    requires { IsPlan (links_of trips.now) plan.now }
    ensures first { IfOk result (λ found. found
        ≡ slice_get (certificate_rules trips.now plan.now (Some text.now)) 0) }
    ensures passes { IfOk result (λ found. IfNone found (IsMark trips.now plan.now text.now)) }
{
    match read_potentials(alloc, text, trips.len()) {
        Ok(potentials) => match check_potentials(trips, plan, &potentials) {
            Some(fault) => Ok(Some(ScheduleFault::of_potentials(fault))),
            None => Ok(None),
        },
        Err(ReadFault::Row(_)) => Ok(Some(ScheduleFault::Potentials)),
        Err(ReadFault::NoMemory) => Err(NoMemory),
    }
}
