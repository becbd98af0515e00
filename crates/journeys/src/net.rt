// Journeys over the day of texts.
ghost use Rattle.std.specs.Prelude.{◌≡◌, ◌<◌, length, slice_get, option_copied, option_map, None};
ghost use Rattle.std.specs.Prelude.{Some, IfNone, IfOk};
ghost use Rattle.tables.specs.Inputs.{UnlessFault};
ghost use Rattle.connections.specs.Earliest.{IsAnswer};
ghost use Rattle.connections.specs.Judged.{NoneEarlier, first_broken_rule};
ghost use Rattle.connections.specs.Nets.{IsNet, event_at, event_told};
ghost use Rattle.journeys.specs.JourneyNets.{journey_faults, net_of};

use crate::day::net_of_texts;
use connections::{Found, JourneyEvent, JourneyRule, TimedEvent};
use plan_num::NoMemory;
use std::alloc::Global;
use std::marker::Model;
use tables::StageFault;

/// The events of a day at their planned or disposed times, and the connections between them, as
/// texts tell them. Contracts see it as these two lists.
#[derive(Debug, Drop)]
pub struct JourneyNet {
    net: connections::JourneyNet,
}

impl Model for JourneyNet {
    ghost use Rattle.connections.specs.Nets.{JourneyParts};

    ghost Value = { JourneyParts };

    ghost view = { λ day. day.net };
}

impl JourneyNet {
    /// The events and activities of a day by their texts, at the times of a disposition where these
    /// are given; or the first fault of the texts.
    pub fn from_texts(
        alloc: Global,
        events: &[u8],
        activities: &[u8],
        times: Option<&[u8]>,
    ) -> Result<JourneyNet, StageFault>
        ensures read { UnlessFault
            (journey_faults events.now activities.now (option_copied times.entry)) (λ net.
            net ≡ net_of events.now activities.now (option_copied times.entry)) result }
        ensures net { IfOk result IsNet }
    {
        let net = net_of_texts(alloc, events, activities, times)?;
        Ok(JourneyNet { net })
    }

    /// How many events there are.
    pub fn event_count(&self) -> usize
        ensures { result ≡ length self.now.events }
    {
        self.net.event_count()
    }

    /// The event at an index.
    pub fn event(&self, event: usize) -> JourneyEvent
        requires { event < length self.now.events }
        ensures { option_map (event_told event) (slice_get self.now.events event) ≡ Some result }
    {
        self.net.event(event)
    }

    /// The event at an index, or a departure at no stop and time 0 where there is none.
    pub(crate) fn event_or_none(&self, event: usize) -> TimedEvent
        ensures { result ≡ event_at self.now event }
    {
        self.net.event_or_none(event)
    }

    /// A journey from one stop to another that starts at a time or later and arrives as early as
    /// any, with the events that can be reached before it arrives; without a journey an empty one,
    /// with all events that can be reached (`connections`).
    ///
    /// Stops are ids, and the time is in minutes. Of several last events of one time the one of
    /// least id is taken, and the step into an event is the activity of least id.
    pub fn earliest(&self, alloc: Global, from: i64, to: i64, start: i64) -> Result<Found, NoMemory>
        ensures found { IfOk result (IsAnswer self.now from to start) }
        ensures none_earlier { IfOk result
            (λ found. NoneEarlier self.now from to start found.journey) }
        ensures passes { IfOk result
            (λ found. first_broken_rule self.now from to start found ≡ None) }
    {
        self.net.earliest(alloc, from, to, start)
    }

    /// The first rule that a journey breaks, or the events that are to prove that none arrives
    /// earlier; none exactly where they pass, and then none does. It takes no memory.
    pub fn check_reached(
        &self,
        from: i64,
        to: i64,
        start: i64,
        found: &Found,
    ) -> Option<JourneyRule>
        ensures first { result ≡ first_broken_rule self.now from to start found.now }
        ensures none_earlier { IfNone result
            (NoneEarlier self.now from to start found.now.journey) }
    {
        self.net.check_reached(from, to, start, found)
    }
}
