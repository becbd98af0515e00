// The stage of vehicles.
ghost use Rattle.std.specs.Prelude.{◌≡◌, IfOk};
ghost use Rattle.giv_files.specs.declared.stage.Stage.TheVariants as stages;
ghost use Rattle.giv_files.specs.Settings.{Fits};
ghost use Rattle.giv_files.specs.StageCalls.{StageGives, TakesSteps};
ghost use Rattle.vehicle_flow.specs.RightVehicles.{VehiclesAreMadeRight};
ghost use Rattle.vehicle_flow.specs.VehicleStage.{vehicles_stage};

use crate::given::given_trips;
use crate::made::vehicles_made;
use giv_files::{Bundle, Made};
use plan_num::{Ledger, Steps};
use std::alloc::Global;
use tables::StageFault;

/// Makes the vehicle schedule of least cost over the inputs of the stage, among several the one
/// whose list of successors comes first, and its canonical potentials, which prove that none costs
/// less. It takes one step.
pub fn make_vehicles<L: Ledger>(
    alloc: Global,
    bundle: &Bundle,
    steps: &mut Steps<L>,
) -> Result<Made, StageFault>
    requires stage { bundle.now.stage ≡ stages.Vehicles }
    requires fits { Fits bundle.now }
    ensures made { StageGives (vehicles_stage bundle.now) result }
    ensures right { IfOk result (VehiclesAreMadeRight bundle.now) }
    ensures steps { TakesSteps 1 steps.old steps.new result }
{
    steps.tick();
    vehicles_of_bundle(alloc, bundle)
}

// What the stage gives.
fn vehicles_of_bundle(alloc: Global, bundle: &Bundle) -> Result<Made, StageFault>
    requires stage { bundle.now.stage ≡ stages.Vehicles }
    requires fits { Fits bundle.now }
    ensures { StageGives (vehicles_stage bundle.now) result }
{
    let trips = given_trips(alloc, bundle)?;
    Ok(vehicles_made(alloc, &trips)?)
}
