// The values of a day.
ghost use Rattle.std.specs.Prelude.{◌≡◌, ◌≤◌, ◌&&◌, true, [], length, All, IfOk};
ghost use Rattle.tables.specs.Inputs.{UnlessFault};
ghost use Rattle.event_tables.specs.DisposedTimes.{AreDisposedTimes};
ghost use Rattle.event_tables.specs.ExpandedFiles.{AreExpandedActivities, AreExpandedEvents};
ghost use Rattle.event_tables.specs.Places.{IsOneOf};
ghost use Rattle.event_tables.specs.Schedules.{AreScheduleRows};
ghost use Rattle.propagation.specs.Lateness.{is_missed, missed_at};
ghost use Rattle.delay_management.specs.InputProblems.{activities_of, delayed, is_change_kind, is_of};
ghost use Rattle.evaluators.specs.Statistic.{day_values, greatest_delay, minutes_late, times_of};
ghost use Rattle.evaluators.specs.StatisticStage.{day_faults, day_in, faults_over, values_over};
ghost use Rattle.propagation.specs.declared.times.TheConstants.{LATEST};

use crate::day_values::DayValues;
use crate::first_rows::vehicle_count;
use crate::schedule::empty_minutes;
use delay_management::delay_at;
use event_tables::{
    ActivityKind, DisposedTime, ExpandedActivity, ExpandedEvent, ScheduleRow, disposed_times,
    expanded_activities, expanded_events, schedule_rows,
};
use plan_num::NoMemory;
use std::alloc::Global;
use tables::StageFault;

/// The values of the texts of expanded events and activities, of a vehicle schedule and of disposed
/// times, or their first fault.
pub(crate) fn day_values(
    alloc: Global,
    events_text: &[u8],
    activities_text: &[u8],
    schedule_text: &[u8],
    disposed_text: &[u8],
) -> Result<DayValues, StageFault>
    ensures { UnlessFault (day_faults events_text.now activities_text.now schedule_text.now
        disposed_text.now) (λ values. values ≡ day_in events_text.now activities_text.now
        schedule_text.now disposed_text.now) result }
{
    let events = expanded_events(alloc, events_text)?;
    values_over(
        alloc,
        &events,
        activities_text,
        schedule_text,
        disposed_text,
    )
}

// The values of the other three texts over some events, or their first fault.
fn values_over(
    alloc: Global,
    events: &[ExpandedEvent],
    activities_text: &[u8],
    schedule_text: &[u8],
    disposed_text: &[u8],
) -> Result<DayValues, StageFault>
    requires { AreExpandedEvents events.now }
    ensures { UnlessFault (faults_over events.now activities_text.now schedule_text.now
        disposed_text.now) (λ values. values ≡ values_over events.now activities_text.now
        schedule_text.now disposed_text.now) result }
{
    let activities = expanded_activities(alloc, events, activities_text)?;
    let schedule = schedule_rows(alloc, events, schedule_text)?;
    let disposed = disposed_times(alloc, events, disposed_text)?;
    let values = values_of(alloc, events, &activities, &schedule, &disposed)?;
    Ok(values)
}

// The values of events, activities, rows of a schedule and disposed times.
fn values_of(
    alloc: Global,
    events: &[ExpandedEvent],
    activities: &[ExpandedActivity],
    schedule: &[ScheduleRow],
    disposed: &[DisposedTime],
) -> Result<DayValues, NoMemory>
    requires events { AreExpandedEvents events.now }
    requires activities { AreExpandedActivities events.now activities.now }
    requires schedule { AreScheduleRows events.now schedule.now }
    requires disposed { AreDisposedTimes (length events.now) disposed.now }
    ensures { IfOk result (λ values. values
        ≡ day_values events.now activities.now schedule.now disposed.now) }
{
    let times = times_of(alloc, disposed)?;
    Ok(DayValues {
        vehicles: vehicle_count(alloc, schedule)?,
        empty_minutes: empty_minutes(schedule),
        delay: delay_at(events, &times),
        greatest: greatest_delay(events, &times),
        missed: missed_changes(activities, &times),
    })
}

// The times of rows.
fn times_of(alloc: Global, rows: &[DisposedTime]) -> Result<Vec<u64>, NoMemory>
    ensures { IfOk result (λ times. times.items ≡ times_of rows.now) }
{
    let mut times = Vec::with_capacity(alloc, rows.len())?;
    for row in rows {
        times.push(row.time)?;
    }
    Ok(times)
}

// How many changes are missed by their least minutes as planned.
fn missed_changes(activities: &[ExpandedActivity], times: &[u64]) -> u64
    requires from { All (λ activity. IsOneOf (length times.now) activity.from) activities.now }
    requires to { All (λ activity. IsOneOf (length times.now) activity.to) activities.now }
    requires small { All (λ time. time ≤ LATEST) times.now }
    ensures { result ≡ missed_at (activities_of true [] activities.now) times.now }
{
    let mut missed = 0;
    for activity in activities {
        if is_missed(activity, times) {
            missed += 1;
        }
    }
    missed
}

// Whether an activity is a change that is missed.
fn is_missed(activity: &ExpandedActivity, times: &[u64]) -> bool
    requires from { IsOneOf (length times.now) activity.now.from }
    requires to { IsOneOf (length times.now) activity.now.to }
    requires small { All (λ time. time ≤ LATEST) times.now }
    ensures { result
        ≡ (is_of true activity.now && is_missed times.now (delayed [] activity.now)) }
{
    is_change(activity.kind)
        && times[activity.to as usize - 1]
            < times[activity.from as usize - 1] + u64::from(activity.lower)
}

// Whether activities of a kind are changes.
fn is_change(kind: ActivityKind) -> bool
    ensures { result ≡ is_change_kind kind }
{
    matches!(kind, ActivityKind::Change)
}

// The greatest delay of an event, 0 where none is late.
fn greatest_delay(events: &[ExpandedEvent], times: &[u64]) -> u64
    requires { length times.now ≡ length events.now }
    ensures { result ≡ greatest_delay events.now times.now }
{
    let mut greatest = 0;
    for (index, event) in events.iter().enumerate() {
        let late = minutes_late(event, times[index]);
        if greatest < late {
            greatest = late;
        }
    }
    greatest
}

// How many minutes an event is later than planned, 0 where it is not late.
fn minutes_late(event: &ExpandedEvent, time: u64) -> u64
    ensures { result ≡ minutes_late (event.now, time) }
{
    time.saturating_sub(u64::from(event.time))
}
