// The problem of the inputs of the stage of dispositions.
ghost use Rattle.std.specs.Prelude.{◌≡◌, ◌≤◌, length, map, IfOk};
ghost use Rattle.giv_files.specs.declared.stage.Stage.TheVariants as stages;
ghost use Rattle.tables.specs.Inputs.{UnlessFault};
ghost use Rattle.giv_files.specs.Settings.{Fits};
ghost use Rattle.event_tables.specs.Delays.{AreDelays};
ghost use Rattle.event_tables.specs.ExpandedFiles.{AreExpandedActivities, AreExpandedEvents};
ghost use Rattle.event_tables.specs.Schedules.{AreScheduleRows};
ghost use Rattle.std.specs.List.Sorted.{IsStrictlyIncreasing};
ghost use Rattle.propagation.specs.Problems.{IsForward};
ghost use Rattle.delay_management.specs.DispositionStage.{disposition_faults, problem_in};
ghost use Rattle.delay_management.specs.InputProblems.{day_event, problem_over};

use crate::delays::{RidesAndChanges, delayed_activities, earliest_times};
use crate::inputs::{
    activities_of, activity_delays_of, event_delays_of, events_of, schedule_of, turnover_of,
};
use crate::turns::turns_of;
use event_tables::{DelayRow, ExpandedActivity, ExpandedEvent, ScheduleRow};
use giv_files::Bundle;
use plan_num::NoMemory;
use propagation::{DayEvent, Propagation};
use std::alloc::Global;
use tables::StageFault;

// The delays of events and those of activities.
#[derive(Drop)]
struct Delays<'a> {
    events: &'a [DelayRow],
    activities: &'a [DelayRow],
}

/// The problem of the inputs of the stage of dispositions, or their first fault. Its steps go forward,
/// and its changes stand by their ids.
pub fn problem_of_bundle(alloc: Global, bundle: &Bundle) -> Result<Propagation, StageFault>
    requires stage { bundle.now.stage ≡ stages.Disposition }
    requires fits { Fits bundle.now }
    ensures read { UnlessFault (disposition_faults bundle.now)
        (λ problem. problem ≡ problem_in bundle.now) result }
    ensures forward { IfOk result IsForward }
    ensures rise { IfOk result
        (λ problem. IsStrictlyIncreasing (map (λ change. change.id) problem.changes)) }
{
    let events = events_of(alloc, bundle)?;
    let activities = activities_of(alloc, bundle, &events)?;
    let schedule = schedule_of(alloc, bundle, &events)?;
    let event_rows = event_delays_of(alloc, bundle, &events)?;
    let activity_rows = activity_delays_of(alloc, bundle, &activities)?;
    let turnover = turnover_of(bundle);
    let problem = problem_of_rows(
        alloc,
        events,
        activities,
        &schedule,
        &Delays {
            events: &event_rows,
            activities: &activity_rows,
        },
        turnover,
    )?;
    Ok(problem)
}

// The problem of what the five input files hold.
fn problem_of_rows(
    alloc: Global,
    events: Vec<ExpandedEvent>,
    activities: Vec<ExpandedActivity>,
    schedule: &[ScheduleRow],
    delays: &Delays,
    turnover: u32,
) -> Result<Propagation, NoMemory>
    requires events { AreExpandedEvents events.items }
    requires activities { AreExpandedActivities events.items activities.items }
    requires schedule { AreScheduleRows events.items schedule.now }
    requires event_delays { AreDelays (length events.items) delays.now.events.now }
    requires activity_delays { AreDelays (length activities.items) delays.now.activities.now }
    requires turnover { turnover ≤ 10000 }
    ensures value { IfOk result (λ problem. problem ≡ problem_over turnover events.items
        activities.items schedule.now delays.now.events.now delays.now.activities.now) }
    ensures forward { IfOk result IsForward }
    ensures rise { IfOk result
        (λ problem. IsStrictlyIncreasing (map (λ change. change.id) problem.changes)) }
{
    let earliest = earliest_times(alloc, &events, delays.events)?;
    let parted = delayed_activities(alloc, &activities, delays.activities)?;
    drop(activities);
    let RidesAndChanges { rides, changes } = parted;
    let turns = turns_of(alloc, schedule, turnover)?;
    let days = day_events(alloc, &events)?;
    drop(events);
    let problem = Propagation::of_parts(alloc, days, earliest, rides, changes, turns)?;
    Ok(problem)
}

// Events of a day, of expanded events.
fn day_events(alloc: Global, events: &[ExpandedEvent]) -> Result<Vec<DayEvent>, NoMemory>
    ensures { IfOk result (λ days. days.items ≡ map day_event events.now) }
{
    Ok(events.iter().map(day_event).collect(alloc)?)
}

/// An event of a day, of an expanded event.
pub(crate) fn day_event(event: &ExpandedEvent) -> DayEvent
    ensures { result ≡ day_event event.now }
{
    DayEvent {
        id: event.id,
        arrives: event.kind.is_arrival(),
        time: event.time,
    }
}
