// The trips of the inputs of a stage.
ghost use Rattle.std.specs.Prelude.{◌≡◌, true};
ghost use Rattle.tables.specs.Inputs.{UnlessFault};
ghost use Rattle.giv_files.specs.Settings.{Fits};
ghost use Rattle.vehicle_flow.specs.VehicleStage.{takes_trips, trips_in, vehicles_faults};

use giv_files::{Bundle, Key};
use std::alloc::Global;
use tables::StageFault;
use vehicle_model::Trips;

/// The trips of a bundle of a stage that takes them, or the first fault of their texts.
pub(crate) fn given_trips(alloc: Global, bundle: &Bundle) -> Result<Trips, StageFault>
    requires stage { takes_trips bundle.now.stage ≡ true }
    requires fits { Fits bundle.now }
    ensures { UnlessFault (vehicles_faults bundle.now) (λ trips. trips ≡ trips_in bundle.now) result }
{
    Trips::from_texts(
        alloc,
        bundle.input(0),
        bundle.input(1),
        bundle.input(2),
        bundle.settings().amount(Key::VsTurnOverTime) as i64,
        bundle.settings().amount(Key::VsVehicleCosts) as i64,
        bundle.settings().amount(Key::VsEmptyCosts) as i64,
    )
}
