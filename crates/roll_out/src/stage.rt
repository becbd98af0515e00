// The stage that rolls a timetable out over a day.
ghost use Rattle.std.specs.Prelude.{◌≡◌, ◌≤◌, [], length, IfOk};
ghost use Rattle.giv_files.specs.declared.stage.Stage.TheVariants as stages;
ghost use Rattle.tables.specs.Inputs.{UnlessFault};
ghost use Rattle.giv_files.specs.Settings.{Fits};
ghost use Rattle.giv_files.specs.StageCalls.{StageGives, TakesSteps};
ghost use Rattle.event_tables.specs.PeriodicRuns.{runs_of};
ghost use Rattle.roll_out.specs.DayActivities.{day_activities};
ghost use Rattle.roll_out.specs.Plans.{ArePlans, IsSmallDay, trips_by};
ghost use Rattle.roll_out.specs.RightRollout.{RolloutIsRight};
ghost use Rattle.roll_out.specs.RolloutStage.{file_faults, long_lists, made_of, network_in, rollout_stage, run_faults};

use crate::changes::{add_changes, change_count};
use crate::copies::{Copies, copies_by};
use crate::day::Day;
use crate::files::rollout_made;
use crate::network::TimedNetwork;
use crate::plan::{RunPlan, run_plans};
use crate::refused::{no_activity_at, no_event_at, too_many};
use crate::rules::{broken_events, stray_activities, unjoined_events};
use crate::run::{Run, runs_of};
use crate::trip::{DayTrip, day_events, day_trips, event_count, trip_count, trip_rows};
use crate::ways::{add_ways, way_count, with_numbers};
use event_tables::ExpandedActivity;
use giv_files::{Bundle, Made};
use plan_num::{Ledger, NoMemory, Steps};
use std::alloc::Global;
use tables::{Counted, RowWhy, StageFault};

const MOST_TRIPS: usize = 2_000;

const MOST_EVENTS: usize = 100_000;

const MOST_ACTIVITIES: usize = 500_000;

/// The trips of a day, their events and the activities between them, from the settings and the
/// texts of periodic events, activities and times. It takes one step.
pub fn make_rollout<L: Ledger>(
    alloc: Global,
    bundle: &Bundle,
    steps: &mut Steps<L>,
) -> Result<Made, StageFault>
    requires stage { bundle.now.stage ≡ stages.Rollout }
    requires fits { Fits bundle.now }
    ensures made { StageGives (rollout_stage bundle.now) result }
    ensures right { IfOk result (λ made. RolloutIsRight bundle.now made) }
    ensures steps { TakesSteps 1 steps.old steps.new result }
{
    steps.tick();
    rollout_of_bundle(alloc, bundle)
}

// What the stage gives.
fn rollout_of_bundle(alloc: Global, bundle: &Bundle) -> Result<Made, StageFault>
    requires stage { bundle.now.stage ≡ stages.Rollout }
    requires fits { Fits bundle.now }
    ensures { StageGives (rollout_stage bundle.now) result }
{
    let network = TimedNetwork::of_bundle(alloc, bundle)?;
    let runs = runs_of(alloc, network.events())?;
    check_runs(alloc, bundle, &network, &runs)?;
    let plans = run_plans(alloc, &network, &Day::of_bundle(bundle), &runs)?;
    rolled_out(alloc, &network, &plans)
}

// Refuses runs that are broken, events that are not joined to the next one of their run, and stray
// activities, in this order.
fn check_runs(
    alloc: Global,
    bundle: &Bundle,
    network: &TimedNetwork,
    runs: &[Run],
) -> Result<(), StageFault>
    requires stage { bundle.now.stage ≡ stages.Rollout }
    requires fits { Fits bundle.now }
    requires read { file_faults bundle.now ≡ [] }
    requires network { network.now ≡ network_in bundle.now }
    requires runs { runs.now ≡ runs_of network.now.events }
    ensures { UnlessFault (run_faults bundle.now) (λ _. run_faults bundle.now ≡ []) result }
{
    let (events, text) = (network.events(), bundle.input(0));
    let broken = broken_events(alloc, runs)?;
    no_event_at(alloc, text, RowWhy::BrokenRun, &broken)?;
    let unjoined = unjoined_events(alloc, network, runs)?;
    no_event_at(alloc, text, RowWhy::Unjoined, &unjoined)?;
    let stray = stray_activities(alloc, events, network.activities())?;
    let text = bundle.input(1);
    no_activity_at(alloc, text, RowWhy::StrayActivity, &stray, events)
}

// What is made of plans, or the first list that would be too long.
fn rolled_out(alloc: Global, network: &TimedNetwork, plans: &[RunPlan]) -> Result<Made, StageFault>
    requires { ArePlans network.now plans.now }
    ensures { UnlessFault (long_lists network.now (trips_by network.now.period 1 plans.now))
        (λ made. made ≡ made_of network.now (trips_by network.now.period 1 plans.now)) result }
{
    let trip_count = trip_count(plans);
    if trip_count > MOST_TRIPS {
        return Err(too_many(Counted::Trips, trip_count));
    }
    let event_count = event_count(plans);
    if event_count > MOST_EVENTS {
        return Err(too_many(Counted::ExpandedEvents, event_count));
    }
    let trips = day_trips(alloc, network.period(), plans)?;
    let copies = copies_by(alloc, plans)?;
    made_of_day(alloc, network, &trips, &copies)
}

// What is made of the trips of a day, or the refusal of too many activities.
fn made_of_day(
    alloc: Global,
    network: &TimedNetwork,
    trips: &[DayTrip],
    copies: &[Copies],
) -> Result<Made, StageFault>
    requires { IsSmallDay network.now trips.now copies.now }
    ensures { UnlessFault (long_lists network.now trips.now)
        (λ made. made ≡ made_of network.now trips.now) result }
{
    let activity_count = activity_count(network, trips, copies);
    if activity_count > MOST_ACTIVITIES {
        return Err(too_many(Counted::ExpandedActivities, activity_count));
    }
    let events = day_events(alloc, trips)?;
    let activities = day_activities(alloc, network, trips, copies)?;
    let rows = trip_rows(alloc, trips)?;
    Ok(rollout_made(alloc, &events, &activities, &rows)?)
}

// How many activities there are between the events of trips.
fn activity_count(network: &TimedNetwork, trips: &[DayTrip], copies: &[Copies]) -> usize
    requires { IsSmallDay network.now trips.now copies.now }
    ensures { result ≡ length (day_activities network.now trips.now) }
{
    way_count(trips) + change_count(network, copies)
}

// The activities between the events of trips, numbered.
fn day_activities(
    alloc: Global,
    network: &TimedNetwork,
    trips: &[DayTrip],
    copies: &[Copies],
) -> Result<Vec<ExpandedActivity>, NoMemory>
    requires day { IsSmallDay network.now trips.now copies.now }
    requires few { length (day_activities network.now trips.now) ≤ 500000 }
    ensures { IfOk result (λ activities. activities.items
        ≡ day_activities network.now trips.now) }
{
    let mut activities = Vec::new(alloc);
    add_ways(trips, &mut activities)?;
    add_changes(network, copies, &mut activities)?;
    with_numbers(alloc, &activities)
}
