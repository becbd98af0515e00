// Events of a day with the connections between them.
ghost use Rattle.std.specs.Prelude.{◌≡◌, ◌<◌, ◌≤◌, length, slice_get, option_map, option_copied, All, true, Some, None};
ghost use Rattle.std.specs.Prelude.{IfOk, IfNone, IfSome};
ghost use Rattle.connections.specs.Earliest.{IsAnswer};
ghost use Rattle.connections.specs.Nets.{IsConnection, IsNet, event_at, event_told};
ghost use Rattle.connections.specs.Judged.{NoneEarlier, first_broken_rule};
ghost use Rattle.connections.specs.Ends.{AreLed, IsJourneyTo, IsWayBack};
ghost use Rattle.connections.specs.Links.{AreLinks};
ghost use Rattle.connections.specs.RankedNets.{IsRanked, parts_of};
ghost use Rattle.connections.specs.Ways.{is_reached, way_at};

use crate::check::first_broken;
use crate::connection::Connection;
use crate::earliest::{first_end, reached_before};
use crate::event::JourneyEvent;
use crate::event_kind::EventKind;
use crate::event_list::EventList;
use crate::found::Found;
use crate::links::{Link, links_in_order};
use crate::query::Query;
use crate::rule::JourneyRule;
use crate::timed_event::TimedEvent;
use crate::way::Way;
use crate::ways::ways_from;
use plan_num::NoMemory;
use std::alloc::Global;
use std::marker::Model;

/// The events of a day at their planned or disposed times, and the connections between them.
/// Contracts see it as these two lists.
#[derive(Debug)]
pub struct JourneyNet {
    events: Vec<TimedEvent>,
    connections: Vec<Connection>,
    links: Vec<Link>,
}

impl Drop for JourneyNet {
    fn drop(self) {
        let JourneyNet {
            events: _,
            connections: _,
            links: _,
        } = self;
    }
}

impl Model for JourneyNet {
    ghost use Rattle.connections.specs.Nets.{JourneyParts};
    ghost use Rattle.connections.specs.Links.{IsLinked};

    ghost Value = { JourneyParts };

    ghost view = { λ net. record {
      events = net.events.items;
      connections = net.connections.items;
    } };

    ghost invariant = { λ net. IsLinked (record {
      events = net.events.items;
      connections = net.connections.items;
    }) net.links.items };
}

impl JourneyNet {
    /// The day of events and connections. The ranks say in which order the events come: each
    /// connection leads to an event of greater rank.
    pub fn of_parts(
        alloc: Global,
        events: Vec<TimedEvent>,
        connections: Vec<Connection>,
        ranks: &[u64],
    ) -> Result<JourneyNet, NoMemory>
        requires { IsRanked (parts_of events.items connections.items) ranks.now }
        ensures value { IfOk result (λ net. net ≡ parts_of events.items connections.items) }
        ensures net { IfOk result IsNet }
    {
        let links = links_in_order(alloc, &connections, ranks)?;
        Ok(JourneyNet {
            events,
            connections,
            links,
        })
    }

    /// How many events there are.
    pub fn event_count(&self) -> usize
        ensures { result ≡ length self.now.events }
    {
        self.events.len()
    }

    /// The event at an index.
    pub fn event(&self, event: usize) -> JourneyEvent
        requires { event < length self.now.events }
        ensures { option_map (event_told event) (slice_get self.now.events event) ≡ Some result }
    {
        let at = self.events[event];
        JourneyEvent {
            id: event as i64 + 1,
            stop: i64::from(at.stop),
            time: at.time as i64,
        }
    }

    /// A journey from one stop to another that starts at a time or later and arrives as early as
    /// any, with the events that can be reached before it arrives; without a journey an empty one,
    /// with all events that can be reached. It is found by a connection scan (Dibbelt, Pajor,
    /// Strasser, Wagner, 2018).
    ///
    /// Stops are ids, and the time is in minutes. Of several last events of one time the one of
    /// least id is taken, and the step into an event is the activity of least id.
    pub fn earliest(&self, alloc: Global, from: i64, to: i64, start: i64) -> Result<Found, NoMemory>
        ensures found { IfOk result (IsAnswer self.now from to start) }
        ensures none_earlier { IfOk result
            (λ found. NoneEarlier self.now from to start found.journey) }
        ensures passes { IfOk result
            (λ found. first_broken_rule self.now from to start found ≡ None) }
    {
        let query = Query { from, to, start };
        let ways = ways_from(alloc, self, &query)?;
        let end = first_end(self, &ways, &query);
        Ok(Found {
            journey: self.journey_to(alloc, &ways, end)?,
            reached: reached_before(alloc, self, &ways, end)?,
        })
    }

    // The journey that ends with an event, or an empty one where there is no end.
    fn journey_to(
        &self,
        alloc: Global,
        ways: &[Way],
        end: Option<usize>,
    ) -> Result<EventList, NoMemory>
        requires each { length ways.now ≡ length self.now.events }
        requires led { AreLed self.now.connections ways.now }
        requires end { IfSome end (λ end. end < length self.now.events) }
        requires reached { IfSome end (λ end. is_reached (way_at ways.now end) ≡ true) }
        ensures { IfOk result (IsJourneyTo self.now.connections ways.now end) }
    {
        match end {
            None => Ok(EventList::new(alloc)),
            Some(end) => self.way_back(alloc, ways, end),
        }
    }

    // The journey that ends with an event, built backward along the ways.
    fn way_back(&self, alloc: Global, ways: &[Way], end: usize) -> Result<EventList, NoMemory>
        requires each { length ways.now ≡ length self.now.events }
        requires led { AreLed self.now.connections ways.now }
        requires end { end < length self.now.events }
        requires reached { is_reached (way_at ways.now end) ≡ true }
        ensures { IfOk result (IsWayBack self.now.connections ways.now end) }
    {
        let mut journey = Vec::new(alloc);
        let mut event = end;
        journey.push(event)?;
        while let Way::By { connection } = ways[event] {
            event = self.connections[connection as usize].from as usize;
            journey.push(event)?;
        }
        journey.reverse();
        Ok(EventList::from_vec(journey))
    }

    /// The first rule that a journey breaks, or the events that are to prove that none arrives
    /// earlier; none exactly where they pass, and then none does. It takes no memory.
    pub fn check_reached(
        &self,
        from: i64,
        to: i64,
        start: i64,
        found: &Found,
    ) -> Option<JourneyRule>
        ensures first { result ≡ first_broken_rule self.now from to start found.now }
        ensures none_earlier { IfNone result
            (NoneEarlier self.now from to start found.now.journey) }
    {
        first_broken(self, &Query { from, to, start }, found)
    }

    /// The events at their times.
    pub(crate) fn events(&self) -> &[TimedEvent]
        ensures value { result.now ≡ self.now.events }
        ensures net { IsNet self.now }
    {
        &self.events
    }

    /// The event at an index, where it is there.
    pub(crate) fn at(&self, event: usize) -> Option<TimedEvent>
        ensures { result ≡ slice_get self.now.events event }
    {
        self.events.get(event).copied()
    }

    /// The event at an index, or a departure at no stop and time 0 where there is none.
    pub fn event_or_none(&self, event: usize) -> TimedEvent
        ensures { result ≡ event_at self.now event }
    {
        self.at(event).unwrap_or(TimedEvent {
            kind: EventKind::Departure,
            stop: 0,
            time: 0,
        })
    }

    /// The connections by id.
    pub(crate) fn connections(&self) -> &[Connection]
        ensures value { result.now ≡ self.now.connections }
        ensures sound { All (IsConnection self.now) self.now.connections }
    {
        &self.connections
    }

    /// The connections in the forward order of their tails.
    pub(crate) fn links(&self) -> &[Link]
        ensures { AreLinks self.now.connections result.now }
    {
        &self.links
    }
}
