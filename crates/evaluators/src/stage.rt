// The stage of the statistic.
ghost use Rattle.std.specs.Prelude.{◌≡◌, ◌≤◌, length, IfOk};
ghost use Rattle.giv_files.specs.declared.key.Key.TheVariants as keys;
ghost use Rattle.giv_files.specs.declared.stage.Stage.TheVariants as stages;
ghost use Rattle.tables.specs.Inputs.{UnlessFault};
ghost use Rattle.giv_files.specs.Settings.{Fits, amount};
ghost use Rattle.giv_files.specs.StageCalls.{StageGives, TakesSteps};
ghost use Rattle.evaluators.specs.RightStatistic.{StatisticIsRight};
ghost use Rattle.evaluators.specs.StatisticStage.{period_in, statistic_faults, statistic_in, statistic_stage};

use crate::day::day_values;
use crate::lines::line_values;
use crate::periodic::periodic_values;
use crate::schedule::schedule_cost;
use crate::statistic::Statistic;
use crate::text::statistic_made;
use event_tables::{Trip, trips};
use giv_files::{Bundle, Key, Made};
use plan_num::{Ledger, Steps};
use std::alloc::Global;
use tables::StageFault;

/// Makes the statistic of the inputs of the stage: the cost of the line concept, of each line once;
/// the minutes of the periodic timetable by kind; trips, vehicles and what their schedule costs;
/// and how late the disposition is.
pub fn make_statistic<L: Ledger>(
    alloc: Global,
    bundle: &Bundle,
    steps: &mut Steps<L>,
) -> Result<Made, StageFault>
    requires stage { bundle.now.stage ≡ stages.Statistic }
    requires fits { Fits bundle.now }
    ensures made { StageGives (statistic_stage bundle.now) result }
    ensures right { IfOk result (StatisticIsRight bundle.now) }
    ensures steps { TakesSteps 1 steps.old steps.new result }
{
    steps.tick();
    made_of(alloc, bundle)
}

// What the stage gives.
fn made_of(alloc: Global, bundle: &Bundle) -> Result<Made, StageFault>
    requires stage { bundle.now.stage ≡ stages.Statistic }
    requires fits { Fits bundle.now }
    ensures { StageGives (statistic_stage bundle.now) result }
{
    let statistic = statistic_of(alloc, bundle)?;
    Ok(statistic_made(alloc, &statistic)?)
}

// The statistic of a bundle of the stage, or the first fault of its texts.
fn statistic_of(alloc: Global, bundle: &Bundle) -> Result<Statistic, StageFault>
    requires stage { bundle.now.stage ≡ stages.Statistic }
    requires fits { Fits bundle.now }
    ensures { UnlessFault (statistic_faults bundle.now)
        (λ statistic. statistic ≡ statistic_in bundle.now) result }
{
    let lines = line_values(alloc, bundle.input(0), bundle.input(1))?;
    let periodic = periodic_values(
        alloc,
        period_of(bundle),
        bundle.input(2),
        bundle.input(3),
        bundle.input(4),
    )?;
    let trips = trips(alloc, None, bundle.input(5))?;
    let day = day_values(
        alloc,
        bundle.input(6),
        bundle.input(7),
        bundle.input(8),
        bundle.input(9),
    )?;
    Ok(Statistic {
        lines,
        periodic,
        trips: trip_count(&trips),
        day,
        schedule_cost: schedule_cost(vehicle_costs(bundle), empty_costs(bundle), &day),
    })
}

// How many trips there are.
fn trip_count(trips: &[Trip]) -> u64
    ensures { result ≡ length trips.now }
{
    trips.len() as u64
}

// The period of a bundle of the stage, in minutes.
fn period_of(bundle: &Bundle) -> u32
    requires stage { bundle.now.stage ≡ stages.Statistic }
    requires fits { Fits bundle.now }
    ensures value { result ≡ period_in bundle.now }
    ensures few { result ≤ 720 }
{
    bundle.settings().amount(Key::PeriodLength) as u32
}

// The cost of a vehicle, and that of an empty minute, in millionths.
fn vehicle_costs(bundle: &Bundle) -> u64
    requires stage { bundle.now.stage ≡ stages.Statistic }
    requires fits { Fits bundle.now }
    ensures value { result ≡ amount bundle.now.settings keys.VsVehicleCosts }
    ensures few { result ≤ 1000000000000 }
{
    bundle.settings().amount(Key::VsVehicleCosts)
}

fn empty_costs(bundle: &Bundle) -> u64
    requires stage { bundle.now.stage ≡ stages.Statistic }
    requires fits { Fits bundle.now }
    ensures value { result ≡ amount bundle.now.settings keys.VsEmptyCosts }
    ensures few { result ≤ 1000000000000 }
{
    bundle.settings().amount(Key::VsEmptyCosts)
}
