// The day of texts, and of the rows that they hold.
ghost use Rattle.std.specs.Prelude.{◌≡◌, ◌≤◌, length, map, option_copied, All, IfOk};
ghost use Rattle.std.specs.List.{range_with_len};
ghost use Rattle.tables.specs.Inputs.{UnlessFault};
ghost use Rattle.event_tables.specs.ExpandedFiles.{AreExpandedActivities, AreExpandedEvents};
ghost use Rattle.event_tables.specs.ForwardRanks.{forward_rank};
ghost use Rattle.connections.specs.Nets.{IsNet};
ghost use Rattle.journeys.specs.JourneyNets.{journey_faults, net_of, net_over};
ghost use Rattle.connections.specs.declared.checked_net.TheConstants.{LATEST};

use crate::read::{timed_events, times_of, usable_connections};
use connections::JourneyNet;
use event_tables::{
    ExpandedActivity, ExpandedEvent, expanded_activities, expanded_events, forward_rank,
};
use plan_num::NoMemory;
use std::alloc::Global;
use tables::StageFault;

/// The events and activities of a day by their texts, at the times of a disposition where these
/// are given; or the first fault of the texts.
pub(crate) fn net_of_texts(
    alloc: Global,
    events: &[u8],
    activities: &[u8],
    times: Option<&[u8]>,
) -> Result<JourneyNet, StageFault>
    ensures read { UnlessFault
        (journey_faults events.now activities.now (option_copied times.entry)) (λ net.
        net ≡ net_of events.now activities.now (option_copied times.entry)) result }
    ensures net { IfOk result IsNet }
{
    let events = expanded_events(alloc, events)?;
    let activities = expanded_activities(alloc, &events, activities)?;
    let times = times_of(alloc, &events, times)?;
    let net = net_of_rows(alloc, &events, &activities, &times)?;
    Ok(net)
}

// The net of the rows of a day.
fn net_of_rows(
    alloc: Global,
    events: &[ExpandedEvent],
    activities: &[ExpandedActivity],
    times: &[u64],
) -> Result<JourneyNet, NoMemory>
    requires events { AreExpandedEvents events.now }
    requires activities { AreExpandedActivities events.now activities.now }
    requires each { length times.now ≡ length events.now }
    requires soon { All (λ time. time ≤ LATEST) times.now }
    ensures value { IfOk result (λ net. net ≡ net_over events.now times.now activities.now) }
    ensures net { IfOk result IsNet }
{
    let connections = usable_connections(alloc, activities, times)?;
    let ranks = ranks_of(alloc, events)?;
    let timed = timed_events(alloc, events, times)?;
    let net = JourneyNet::of_parts(alloc, timed, connections, &ranks)?;
    Ok(net)
}

// The ranks of events in their forward order.
fn ranks_of(alloc: Global, events: &[ExpandedEvent]) -> Result<Vec<u64>, NoMemory>
    requires { length events.now ≤ 100000 }
    ensures { IfOk result (λ ranks.
        ranks.items ≡ map (forward_rank events.now) (range_with_len 0 (length events.now))) }
{
    let mut ranks = Vec::with_capacity(alloc, events.len())?;
    for event in 0..events.len() as u32 {
        ranks.push(forward_rank(events, event))?;
    }
    Ok(ranks)
}
