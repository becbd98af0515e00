// The activities between the events of a line concept.
ghost use Rattle.std.specs.Prelude.{◌≡◌, ◌≤◌, ◌+◌, ◌++◌, All, length, filter, IfOk, OnOk};
ghost use Rattle.event_activity.specs.Activities.{concept_activities, from_event, joined, joined_events, with_numbers};
ghost use Rattle.event_activity.specs.Fitting.{AreTimely, IsDriven};
ghost use Rattle.event_activity.specs.NextEvents.{AreJoined};

use crate::bounds::bounds_from;
use crate::joining::{Joining, joinings};
use crate::next_events::NextEvents;
use crate::run_event::RunEvent;
use event_tables::PeriodicActivity;
use giv_files::Settings;
use plan_num::NoMemory;
use std::alloc::Global;

/// How many activities there are between events.
pub(crate) fn activity_count(
    alloc: Global,
    settings: &Settings,
    events: &[RunEvent],
) -> Result<usize, NoMemory>
    requires { length events.now ≤ 4000 }
    ensures { IfOk result (λ count. count ≡ length (concept_activities settings.now events.now)) }
{
    let mut count = 0;
    for joining in joinings(settings) {
        count += count_joined(alloc, *joining, events)?;
    }
    Ok(count)
}

// How many pairs of events are joined.
fn count_joined(alloc: Global, joining: Joining, events: &[RunEvent]) -> Result<usize, NoMemory>
    requires { length events.now ≤ 4000 }
    ensures { IfOk result (AreJoined joining events.now) }
{
    let nexts = NextEvents::new(alloc, joining, events)?;
    let mut count = 0;
    for event in events {
        count += count_from(joining, event, nexts.after(joining, event));
    }
    Ok(count)
}

// How many of some events an event is joined to.
fn count_from(joining: Joining, event: &RunEvent, nexts: &[RunEvent]) -> usize
    requires { length nexts.now ≤ 4000 }
    ensures count { result ≡ length (filter (joined joining event.now) nexts.now) }
    ensures few { result ≤ 4000 }
{
    let mut count = 0;
    for other in nexts {
        if joining.joins(event, other) {
            count += 1;
        }
    }
    count
}

/// The activities between events.
pub(crate) fn concept_activities(
    alloc: Global,
    settings: &Settings,
    events: &[RunEvent],
) -> Result<Vec<PeriodicActivity>, NoMemory>
    requires settings { AreTimely settings.now }
    requires events { All IsDriven events.now }
    requires events_few { length events.now ≤ 4000 }
    requires few { length (concept_activities settings.now events.now) ≤ 200000 }
    ensures { IfOk result (λ activities. activities.items
        ≡ concept_activities settings.now events.now) }
{
    let mut activities = Vec::new(alloc);
    for joining in joinings(settings) {
        add_joined(alloc, settings, *joining, events, &mut activities)?;
    }
    with_numbers(alloc, &activities)
}

// The activities of a joining are added to activities.
fn add_joined(
    alloc: Global,
    settings: &Settings,
    joining: Joining,
    events: &[RunEvent],
    activities: &mut Vec<PeriodicActivity>,
) -> Result<(), NoMemory>
    requires settings { AreTimely settings.now }
    requires events { All IsDriven events.now }
    requires few { length events.now ≤ 4000 }
    ensures { OnOk result (activities.new.items ≡ activities.old.items
        ++ joined_events settings.now events.now joining) }
{
    let nexts = NextEvents::new(alloc, joining, events)?;
    for event in events {
        add_from(
            settings,
            joining,
            event,
            nexts.after(joining, event),
            activities,
        )?;
    }
    Ok(())
}

// The activities of a joining from an event to some events are added to activities.
fn add_from(
    settings: &Settings,
    joining: Joining,
    event: &RunEvent,
    nexts: &[RunEvent],
    activities: &mut Vec<PeriodicActivity>,
) -> Result<(), NoMemory>
    requires settings { AreTimely settings.now }
    requires event { IsDriven event.now }
    ensures { OnOk result (activities.new.items ≡ activities.old.items
        ++ from_event settings.now joining nexts.now event.now) }
{
    let kind = joining.kind(event);
    let bounds = bounds_from(settings, kind, event);
    for next in nexts {
        if joining.joins(event, next) {
            activities.push(PeriodicActivity {
                id: 0,
                kind,
                from: event.row.id,
                to: next.row.id,
                lower: bounds.lower,
                upper: bounds.upper,
            })?;
        }
    }
    Ok(())
}

// Activities with their places as ids, from 1.
fn with_numbers(
    alloc: Global,
    activities: &[PeriodicActivity],
) -> Result<Vec<PeriodicActivity>, NoMemory>
    requires { length activities.now ≤ 200000 }
    ensures { IfOk result (λ numbered. numbered.items ≡ with_numbers activities.now) }
{
    let mut numbered = Vec::new(alloc);
    for place in 0..activities.len() {
        numbered.push(PeriodicActivity {
            id: place as u32 + 1,
            ..activities[place]
        })?;
    }
    Ok(numbered)
}
