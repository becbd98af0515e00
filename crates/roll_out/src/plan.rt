// Runs with their times, and how often they start in a day.
ghost use Rattle.std.specs.Prelude.{◌≡◌, ◌+◌, ◌≤◌, length, map, find, All, IfOk, IfSome};
ghost use Rattle.roll_out.specs.Plans.{IsBetween, IsDay, plan_of};
ghost use Rattle.roll_out.specs.TimedRuns.{timed_from, minutes_on, way_on};
ghost use Rattle.event_tables.specs.Places.{IsOneOf};
ghost use Rattle.event_tables.specs.RunRules.{leads};

use crate::day::Day;
use crate::network::TimedNetwork;
use crate::rules::leads;
use crate::run::Run;
use crate::timed_event::TimedEvent;
use event_tables::{PeriodicActivity, PeriodicEvent};
use plan_num::NoMemory;
use std::alloc::Global;
use std::marker::Model;

/// The events of a run with their minutes, the time of its first start in a day, and how many
/// starts there are. Contracts see it as these three.
#[derive(Drop)]
pub(crate) struct RunPlan {
    events: Vec<TimedEvent>,
    start: u32,
    trips: u32,
}

impl Model for RunPlan {
    ghost use Rattle.roll_out.specs.Plans.{PlanParts};

    ghost Value = { PlanParts };

    ghost view = { λ plan. record {
      run = plan.events.items;
      start = plan.start;
      trips = plan.trips;
    } };
}

impl RunPlan {
    pub(crate) fn events(&self) -> &[TimedEvent]
        ensures { result.now ≡ self.now.run }
    {
        &self.events
    }

    pub(crate) fn start(&self) -> u32
        ensures { result ≡ self.now.start }
    {
        self.start
    }

    pub(crate) fn trips(&self) -> u32
        ensures { result ≡ self.now.trips }
    {
        self.trips
    }
}

/// The plans of runs in a day.
pub(crate) fn run_plans(
    alloc: Global,
    network: &TimedNetwork,
    day: &Day,
    runs: &[Run],
) -> Result<Vec<RunPlan>, NoMemory>
    requires day { IsDay day.now }
    requires runs { All (λ run. (1 ≤ length run) × (length run ≤ 4000)) runs.now }
    requires there { All (All (λ event. IsOneOf (length network.now.events) event.id)) runs.now }
    ensures { IfOk result (λ plans. plans.items ≡ map (plan_of network.now day.now) runs.now) }
{
    let mut plans = Vec::new(alloc);
    for run in runs {
        plans.push(run_plan(alloc, network, day, run.events())?)?;
    }
    Ok(plans)
}

// The plan of a run in a day.
fn run_plan(
    alloc: Global,
    network: &TimedNetwork,
    day: &Day,
    run: &[PeriodicEvent],
) -> Result<RunPlan, NoMemory>
    requires day { IsDay day.now }
    requires some { 1 ≤ length run.now }
    requires few { length run.now ≤ 4000 }
    requires there { All (λ event. IsOneOf (length network.now.events) event.id) run.now }
    ensures { IfOk result (λ plan. plan ≡ plan_of network.now day.now run.now) }
{
    let events = timed_events(alloc, network, run)?;
    let start = day.first_start(network.period(), network.time_at(run[0].id));
    let trips = day.start_count(network.period(), start);
    Ok(RunPlan {
        events,
        start,
        trips,
    })
}

// The events of a run with the minutes from its start.
fn timed_events(
    alloc: Global,
    network: &TimedNetwork,
    run: &[PeriodicEvent],
) -> Result<Vec<TimedEvent>, NoMemory>
    requires few { length run.now ≤ 4000 }
    requires there { All (λ event. IsOneOf (length network.now.events) event.id) run.now }
    ensures { IfOk result (λ events. events.items ≡ timed_from network.now 0 run.now) }
{
    let mut events = Vec::new(alloc);
    let mut minutes = 0;
    for place in 0..run.len() {
        let event = run[place];
        let way = way_on(network, &event, &run[place + 1..]);
        events.push(TimedEvent {
            event,
            minutes,
            way,
        })?;
        minutes += minutes_on(network, way);
    }
    Ok(events)
}

// The drive or wait that leads from an event to the first one of those behind it, if any.
fn way_on(
    network: &TimedNetwork,
    event: &PeriodicEvent,
    behind: &[PeriodicEvent],
) -> Option<PeriodicActivity>
    requires { IsOneOf (length network.now.events) event.now.id }
    ensures way { result ≡ way_on network.now event.now behind.now }
    ensures sound { IfSome result (IsBetween network.now) }
{
    match behind.first() {
        None => None,
        Some(next) => first_leading(network.ways_from(event.id), event, next),
    }
}

// The first activity that leads from an event to the next one of its run.
fn first_leading(
    activities: &[PeriodicActivity],
    event: &PeriodicEvent,
    next: &PeriodicEvent,
) -> Option<PeriodicActivity>
    ensures { result ≡ find (leads (event.now, next.now)) activities.now }
{
    activities
        .iter()
        .copied()
        .find(|activity| leads(event, next, activity))
}

// The minutes that an activity takes, if it is there.
fn minutes_on(network: &TimedNetwork, way: Option<PeriodicActivity>) -> u32
    requires { IfSome way (IsBetween network.now) }
    ensures value { result ≡ minutes_on network.now way }
    ensures short { result ≤ 100720 }
{
    match way {
        None => 0,
        Some(activity) => network.minutes_of(&activity),
    }
}
