// The values of the periodic timetable.
ghost use Rattle.std.specs.Prelude.{◌≡◌, ◌<◌, ◌≤◌, length, All};
ghost use Rattle.tables.specs.Inputs.{UnlessFault};
ghost use Rattle.event_tables.specs.PeriodicFiles.{ArePeriodicActivities, ArePeriodicEvents, ArePeriodicTimes};
ghost use Rattle.event_tables.specs.Places.{IsOneOf};
ghost use Rattle.event_tables.specs.RunRules.{same_kind};
ghost use Rattle.evaluators.specs.Statistic.{minutes_of, minutes_with, periodic_values};
ghost use Rattle.evaluators.specs.StatisticStage.{faults_between, periodic_faults, periodic_in, values_between};

use crate::periodic_values::PeriodicValues;
use event_tables::{
    PeriodicActivity, PeriodicEvent, PeriodicKind, PeriodicTime, periodic_activities,
    periodic_events, periodic_times,
};
use pesp_model::tension;
use std::alloc::Global;
use tables::{FileId, StageFault};

/// The values of the texts of periodic events, activities and times, or their first fault.
pub(crate) fn periodic_values(
    alloc: Global,
    period: u32,
    events_text: &[u8],
    activities_text: &[u8],
    times_text: &[u8],
) -> Result<PeriodicValues, StageFault>
    requires few { period ≤ 720 }
    ensures { UnlessFault
        (periodic_faults period events_text.now activities_text.now times_text.now)
        (λ values. values
        ≡ periodic_in period events_text.now activities_text.now times_text.now) result }
{
    let events = periodic_events(alloc, events_text)?;
    values_between(alloc, period, &events, activities_text, times_text)
}

// The values of the texts of activities and times over some events, or their first fault.
fn values_between(
    alloc: Global,
    period: u32,
    events: &[PeriodicEvent],
    activities_text: &[u8],
    times_text: &[u8],
) -> Result<PeriodicValues, StageFault>
    requires few { period ≤ 720 }
    requires events { ArePeriodicEvents events.now }
    ensures { UnlessFault
        (faults_between period events.now activities_text.now times_text.now)
        (λ values. values
        ≡ values_between period events.now activities_text.now times_text.now) result }
{
    let activities = periodic_activities(alloc, events, activities_text)?;
    let times = periodic_times(alloc, FileId::TimesP, period, events, times_text)?;
    Ok(values_of(period, events, &activities, &times))
}

// The values of events, activities and times.
fn values_of(
    period: u32,
    events: &[PeriodicEvent],
    activities: &[PeriodicActivity],
    times: &[PeriodicTime],
) -> PeriodicValues
    requires few { period ≤ 720 }
    requires activities { ArePeriodicActivities (length events.now) activities.now }
    requires times { ArePeriodicTimes period (length events.now) times.now }
    ensures { result ≡ periodic_values period events.now activities.now times.now }
{
    PeriodicValues {
        events: events.len() as u64,
        activities: activities.len() as u64,
        drive: minutes_with(period, times, activities, PeriodicKind::Drive),
        wait: minutes_with(period, times, activities, PeriodicKind::Wait),
        change: minutes_with(period, times, activities, PeriodicKind::Change),
    }
}

// The minutes that all activities of a kind take.
fn minutes_with(
    period: u32,
    times: &[PeriodicTime],
    activities: &[PeriodicActivity],
    kind: PeriodicKind,
) -> u64
    requires few { period ≤ 720 }
    requires activities { ArePeriodicActivities (length times.now) activities.now }
    requires times { All (λ row. row.time < period) times.now }
    ensures { result ≡ minutes_with period times.now activities.now kind }
{
    let mut sum = 0;
    for activity in activities {
        if is_of_kind(activity, kind) {
            sum += minutes_of(period, times, activity);
        }
    }
    sum
}

// Whether an activity is of a kind.
fn is_of_kind(activity: &PeriodicActivity, kind: PeriodicKind) -> bool
    ensures { result ≡ same_kind activity.now.kind kind }
{
    activity.kind.place() == kind.place()
}

// The minutes that an activity takes.
fn minutes_of(period: u32, times: &[PeriodicTime], activity: &PeriodicActivity) -> u64
    requires few { period ≤ 720 }
    requires from { IsOneOf (length times.now) activity.now.from }
    requires to { IsOneOf (length times.now) activity.now.to }
    requires lower { activity.now.lower ≤ 100000 }
    requires times { All (λ row. row.time < period) times.now }
    ensures value { result ≡ minutes_of period times.now activity.now }
    ensures short { result ≤ 100720 }
{
    let from = times[activity.from as usize - 1].time;
    let to = times[activity.to as usize - 1].time;
    tension(i64::from(activity.lower), from, to, period).unsigned_abs()
}
