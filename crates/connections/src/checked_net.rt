// Events and connections from any hand.
ghost use Rattle.std.specs.Prelude.{◌≡◌, ◌&&◌, [], is_some, IfOk, IfSome};
ghost use Rattle.std.specs.List.{list_all};
ghost use Rattle.connections.specs.Nets.{time_at};
ghost use Rattle.connections.specs.RankedNets.{are_few, is_later, is_onward, is_ranked, is_soon, joins, parts_of};
ghost use Rattle.connections.specs.RankedNets.{rank_at};

use crate::connection::Connection;
use crate::net::JourneyNet;
use crate::timed_event::TimedEvent;
use plan_num::{NUMBER_LIMIT, NoMemory};
use std::alloc::Global;

/// The latest time that an event may have, in minutes: what a file of times holds at most. With the
/// minutes of a connection on top it still fits a `u64`.
pub const LATEST: u64 = NUMBER_LIMIT;

// The most events and connections.
const MOST_EVENTS: usize = 100_000;

const MOST_CONNECTIONS: usize = 500_000;

impl JourneyNet {
    /// The day of events and connections, where these are such: there are at most 100,000 events,
    /// each with a rank, and 500,000 connections, and no time is after `LATEST`; each connection leads
    /// from one event to another that is no earlier and of greater rank. None else.
    pub fn checked(
        alloc: Global,
        events: Vec<TimedEvent>,
        connections: Vec<Connection>,
        ranks: &[u64],
    ) -> Result<Option<JourneyNet>, NoMemory>
        ensures value { IfOk result (λ some. IfSome some
            (λ net. net ≡ parts_of events.items connections.items)) }
        ensures exactly { IfOk result (λ some. is_some some
            ≡ is_ranked (parts_of events.items connections.items) ranks.now) }
    {
        if is_ranked(&events, &connections, ranks) {
            Ok(Some(JourneyNet::of_parts(alloc, events, connections, ranks)?))
        } else {
            Ok(None)
        }
    }
}

// Whether events and connections are a day by these ranks.
fn is_ranked(events: &[TimedEvent], connections: &[Connection], ranks: &[u64]) -> bool
    ensures { result ≡ is_ranked (parts_of events.now connections.now) ranks.now }
{
    are_few(events, connections, ranks) && are_sound(events, connections, ranks)
}

// Whether there are not too many, and each event has a rank.
fn are_few(events: &[TimedEvent], connections: &[Connection], ranks: &[u64]) -> bool
    ensures { result ≡ are_few (parts_of events.now connections.now) ranks.now }
{
    events.len() <= MOST_EVENTS
        && (connections.len() <= MOST_CONNECTIONS && ranks.len() == events.len())
}

// Whether no time is too late, and each connection goes forward.
fn are_sound(events: &[TimedEvent], connections: &[Connection], ranks: &[u64]) -> bool
    ensures { result ≡ (list_all is_soon events.now
        && list_all (is_onward (parts_of events.now connections.now) ranks.now) connections.now) }
{
    are_soon(events) && are_onward(events, connections, ranks)
}

// Whether no time is too late.
fn are_soon(events: &[TimedEvent]) -> bool
    ensures { result ≡ list_all is_soon events.now }
{
    events.iter().all(|event| event.time <= LATEST)
}

// Whether each connection goes forward.
fn are_onward(events: &[TimedEvent], connections: &[Connection], ranks: &[u64]) -> bool
    ensures { result
        ≡ list_all (is_onward (parts_of events.now connections.now) ranks.now) connections.now }
{
    connections
        .iter()
        .all(|connection| is_onward(events, ranks, connection))
}

// Whether a connection joins two events, does not go back in time, and goes forward.
fn is_onward(events: &[TimedEvent], ranks: &[u64], connection: &Connection) -> bool
    ensures { result ≡ is_onward (parts_of events.now []) ranks.now connection.now }
{
    joins(events.len(), connection) && is_later(events, ranks, connection)
}

// Whether a connection joins two of so many events.
fn joins(count: usize, connection: &Connection) -> bool
    ensures { result ≡ joins count connection.now }
{
    (connection.from as usize) < count && (connection.to as usize) < count
}

// Whether a connection does not go back in time, and goes forward.
fn is_later(events: &[TimedEvent], ranks: &[u64], connection: &Connection) -> bool
    ensures { result ≡ is_later (parts_of events.now []) ranks.now connection.now }
{
    time_at(events, connection.from) <= time_at(events, connection.to)
        && rank_at(ranks, connection.from) < rank_at(ranks, connection.to)
}

// The time of an event, where it is there.
fn time_at(events: &[TimedEvent], event: u32) -> u64
    ensures { result ≡ time_at (parts_of events.now []) event }
{
    match events.get(event as usize) {
        None => 0,
        Some(at) => at.time,
    }
}

// The rank of an event, where it is there.
fn rank_at(ranks: &[u64], event: u32) -> u64
    ensures { result ≡ rank_at ranks.now event }
{
    ranks.get(event as usize).copied().unwrap_or(0)
}
