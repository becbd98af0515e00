// The test of a vehicle schedule.
ghost use Rattle.std.specs.Prelude.{◌≡◌, None, IfOk, IfNone, option_copied};
ghost use Rattle.giv_files.specs.declared.stage.Stage.TheVariants as stages;
ghost use Rattle.tables.specs.Inputs.{UnlessFault};
ghost use Rattle.giv_files.specs.Settings.{Fits};
ghost use Rattle.vehicle_flow.specs.RightSchedules.{passed_over, ScheduleIsRight};
ghost use Rattle.vehicle_flow.specs.RightVehicles.{VehiclesAreRight, files_of};
ghost use Rattle.vehicle_flow.specs.ScheduleChecks.{schedule_fault};
ghost use Rattle.vehicle_flow.specs.VehicleStage.{trips_in, vehicles_faults};

use crate::given::given_trips;
use crate::judge::first_fault;
use crate::schedule_fault::ScheduleFault;
use giv_files::Bundle;
use std::alloc::Global;
use tables::StageFault;

/// The first rule that the text of a vehicle schedule breaks, or that the text of potentials beside
/// it does, over the inputs of the stage; none exactly where the schedule is a plan and the
/// potentials prove that no plan costs less. Where it is told that no potentials stand there, the
/// schedule is a plan. Refused is only what these inputs are refused for.
pub fn check_schedule(
    alloc: Global,
    bundle: &Bundle,
    schedule: &[u8],
    potentials: Option<&[u8]>,
) -> Result<Option<ScheduleFault>, StageFault>
    requires stage { bundle.now.stage ≡ stages.Vehicles }
    requires fits { Fits bundle.now }
    ensures first { UnlessFault (vehicles_faults bundle.now) (λ found. found
        ≡ schedule_fault (trips_in bundle.now) schedule.now (option_copied potentials.entry)) result }
    ensures right { IfOk result (λ found. IfNone found (VehiclesAreRight bundle.now
        (files_of schedule.now (option_copied potentials.entry)))) }
    ensures bare { IfOk result (λ found. IfNone (passed_over found) (ScheduleIsRight bundle.now
        (files_of schedule.now (option_copied potentials.entry)))) }
    ensures only { IfOk result (λ found. VehiclesAreRight bundle.now
        (files_of schedule.now (option_copied potentials.entry)) → found ≡ None) }
{
    let trips = given_trips(alloc, bundle)?;
    Ok(first_fault(alloc, &trips, schedule, potentials)?)
}
