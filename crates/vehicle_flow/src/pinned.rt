// The stage of a vehicle schedule that a planner gives.
ghost use Rattle.std.specs.Prelude.{◌≡◌, ◌++◌, length, map, IfOk, IfSome, OnOk};
ghost use Rattle.link_plans.specs.Potentials.{AreOver};
ghost use Rattle.giv_files.specs.declared.stage.Stage.TheVariants as stages;
ghost use Rattle.tables.specs.Inputs.{UnlessFault};
ghost use Rattle.giv_files.specs.Settings.{Fits};
ghost use Rattle.giv_files.specs.StageCalls.{StageGives, TakesSteps};
ghost use Rattle.vehicle_flow.specs.PinnedSchedules.{marking_potentials, pinned_vehicles_stage};
ghost use Rattle.vehicle_flow.specs.PinnedSchedules.{plan_kept, plan_refusal, potential_files};
ghost use Rattle.vehicle_flow.specs.PinnedSchedules.{refused_as, refused_row};
ghost use Rattle.vehicle_flow.specs.RightSchedules.{PinnedScheduleIsRight};
ghost use Rattle.link_plans.specs.Plans.{IsPlan};
ghost use Rattle.vehicle_model.specs.ReadSchedules.{plan_faults, plan_of};
ghost use Rattle.vehicle_model.specs.Trips.{links_of};

use crate::given::given_trips;
use crate::made::potentials_text;
use crate::report::pinned_line;
use flow_potentials::{Potentials, check_potentials, read_potentials};
use giv_files::{Bundle, Made, MadeFile, MadeList};
use plan_num::{Ledger, NoMemory, Steps};
use std::alloc::Global;
use tables::{FileId, ReadFault, Refusal, RowWhy, StageFault};
use vehicle_model::{Plan, PlanFault, Trips, read_plan, write_plan};

/// Takes the vehicle schedule of a planner over the inputs of the stage: it is a plan of the trips,
/// and is written anew. Where the planner's potentials are valid for it, they are written beside it,
/// and prove that no plan costs less. It takes one step.
pub fn take_vehicles<L: Ledger>(
    alloc: Global,
    bundle: &Bundle,
    steps: &mut Steps<L>,
) -> Result<Made, StageFault>
    requires stage { bundle.now.stage ≡ stages.PinnedVehicles }
    requires fits { Fits bundle.now }
    ensures made { StageGives (pinned_vehicles_stage bundle.now) result }
    ensures right { IfOk result (λ made. PinnedScheduleIsRight bundle.now made.files) }
    ensures steps { TakesSteps 1 steps.old steps.new result }
{
    steps.tick();
    schedule_of_bundle(alloc, bundle)
}

// What the stage gives.
fn schedule_of_bundle(alloc: Global, bundle: &Bundle) -> Result<Made, StageFault>
    requires stage { bundle.now.stage ≡ stages.PinnedVehicles }
    requires fits { Fits bundle.now }
    ensures { StageGives (pinned_vehicles_stage bundle.now) result }
{
    let trips = given_trips(alloc, bundle)?;
    let plan = given_plan(alloc, &trips, bundle.input(3))?;
    let potentials = marking_potentials(alloc, &trips, &plan, bundle.input(4))?;
    Ok(plan_kept(alloc, &trips, &plan, &potentials)?)
}

// The plan of a planner's schedule, or the first fault of its text.
fn given_plan(alloc: Global, trips: &Trips, schedule: &[u8]) -> Result<Plan, StageFault>
    ensures read { UnlessFault (map plan_refusal (plan_faults trips.now schedule.now))
        (λ plan. plan ≡ plan_of trips.now schedule.now) result }
    ensures plan { IfOk result (IsPlan (links_of trips.now)) }
{
    match read_plan(alloc, schedule, trips) {
        Ok(plan) => Ok(plan),
        Err(fault) => Err(refused_as(fault)),
    }
}

// How the stage refuses a schedule with a fault.
fn refused_as(fault: PlanFault) -> StageFault
    ensures { result ≡ refused_as fault }
{
    match fault {
        PlanFault::Row(first) => refused_row(first.row, first.why),
        PlanFault::Trips { row } => refused_row(row, RowWhy::TripsDiffer),
        PlanFault::Follow { .. } => refused_row(0, RowWhy::CannotFollow),
        PlanFault::NoMemory => StageFault::NoMemory,
    }
}

// A row of the schedule is refused.
fn refused_row(row: u64, why: RowWhy) -> StageFault
    ensures { result ≡ refused_row row why }
{
    StageFault::Refused(Refusal::BadRow {
        file: FileId::PinnedSchedule,
        row,
        why,
    })
}

// The potentials of a text, where it can be read and they are valid for a plan.
fn marking_potentials(
    alloc: Global,
    trips: &Trips,
    plan: &Plan,
    text: &[u8],
) -> Result<Option<Potentials>, NoMemory>
    requires { IsPlan (links_of trips.now) plan.now }
    ensures marking { IfOk result
        (λ found. found ≡ marking_potentials trips.now plan.now text.now) }
    ensures over { IfOk result (λ found. IfSome found (AreOver (length trips.now.trips))) }
{
    match read_potentials(alloc, text, trips.len()) {
        Ok(potentials) => match check_potentials(trips, plan, &potentials) {
            Some(_fault) => Ok(None),
            None => Ok(Some(potentials)),
        },
        Err(ReadFault::Row(_)) => Ok(None),
        Err(ReadFault::NoMemory) => Err(NoMemory),
    }
}

// What is made of a plan, and of potentials that mark it: both are written anew.
fn plan_kept(
    alloc: Global,
    trips: &Trips,
    plan: &Plan,
    potentials: &Option<Potentials>,
) -> Result<Made, NoMemory>
    requires plan { IsPlan (links_of trips.now) plan.now }
    requires over { IfSome potentials.now (AreOver (length trips.now.trips)) }
    ensures { IfOk result (λ made. made ≡ plan_kept trips.now plan.now potentials.now) }
{
    let mut files = MadeList::new(alloc);
    files.push(MadeFile {
        file: FileId::Schedule,
        text: write_plan(alloc, trips, plan)?,
    })?;
    push_potentials(alloc, trips, potentials, &mut files)?;
    let report = pinned_line(alloc, trips, plan, potentials)?;
    Ok(Made { files, report })
}

// The file of the potentials that mark a plan, where there are some.
fn push_potentials(
    alloc: Global,
    trips: &Trips,
    potentials: &Option<Potentials>,
    files: &mut MadeList,
) -> Result<(), NoMemory>
    requires { IfSome potentials.now (AreOver (length trips.now.trips)) }
    ensures { OnOk result (files.new ≡ files.old ++ potential_files potentials.now) }
{
    if let Some(potentials) = potentials {
        files.push(MadeFile {
            file: FileId::Potential,
            text: potentials_text(alloc, trips, potentials)?,
        })?;
    }
    Ok(())
}
