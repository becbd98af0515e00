// Timetables over periodic events and activities.
ghost use Rattle.std.specs.Prelude.{◌≡◌, ◌<◌, ◌≤◌, filter, length, All, IfOk};
ghost use Rattle.giv_files.specs.declared.stage.Stage.TheVariants as stages;
ghost use Rattle.tables.specs.Inputs.{UnlessFault};
ghost use Rattle.giv_files.specs.Settings.{Fits};
ghost use Rattle.event_tables.specs.Places.{IsOneOf};
ghost use Rattle.event_tables.specs.RunRules.{leads};
ghost use Rattle.roll_out.specs.Plans.{IsBetween, IsTimed, leaves};
ghost use Rattle.roll_out.specs.RolloutStage.{file_faults, network_in};
ghost use Rattle.roll_out.specs.TimedRuns.{minutes_of, time_at};

use crate::event_ways::EventWays;
use event_tables::{
    PeriodicActivity, PeriodicEvent, PeriodicTime, periodic_activities, periodic_events,
    periodic_times,
};
use giv_files::{Bundle, Key};
use pesp_model::tension;
use std::alloc::Global;
use std::marker::Model;
use tables::{FileId, StageFault};

/// A period, the events and activities of a periodic network, and a time in the period for each
/// event. Contracts see it as these four.
pub(crate) struct TimedNetwork {
    period: u32,
    events: Vec<PeriodicEvent>,
    activities: Vec<PeriodicActivity>,
    times: Vec<PeriodicTime>,
    ways: EventWays,
}

impl Drop for TimedNetwork {
    fn drop(self) {
        let TimedNetwork {
            period: _,
            events: _,
            activities: _,
            times: _,
            ways: _,
        } = self;
    }
}

impl Model for TimedNetwork {
    ghost use Rattle.std.specs.Prelude.{length};
    ghost use Rattle.roll_out.specs.Plans.{AreWays, IsTimed};
    ghost use Rattle.roll_out.specs.TimedRuns.{TimedParts};

    ghost Value = { TimedParts };

    ghost view = { λ network. record {
      period = network.period;
      events = network.events.items;
      activities = network.activities.items;
      times = network.times.items;
    } };

    ghost invariant = { λ network. IsTimed (record {
      period = network.period;
      events = network.events.items;
      activities = network.activities.items;
      times = network.times.items;
    }) × AreWays (length network.events.items) network.activities.items network.ways };
}

impl TimedNetwork {
    /// The timetable of a bundle of the stage, or the first fault of its texts.
    pub(crate) fn of_bundle(alloc: Global, bundle: &Bundle) -> Result<TimedNetwork, StageFault>
        requires stage { bundle.now.stage ≡ stages.Rollout }
        requires fits { Fits bundle.now }
        ensures read { UnlessFault (file_faults bundle.now)
            (λ network. network ≡ network_in bundle.now) result }
        ensures sound { IfOk result IsTimed }
    {
        let period = period_of(bundle);
        let events = periodic_events(alloc, bundle.input(0))?;
        let activities = periodic_activities(alloc, &events, bundle.input(1))?;
        let times = periodic_times(alloc, FileId::TimesP, period, &events, bundle.input(2))?;
        let ways = EventWays::new(alloc, events.len(), &activities)?;
        Ok(TimedNetwork {
            period,
            events,
            activities,
            times,
            ways,
        })
    }

    /// The period in minutes.
    pub(crate) fn period(&self) -> u32
        ensures period { result ≡ self.now.period }
        ensures sound { IsTimed self.now }
    {
        self.period
    }

    /// The events; their ids are their places, from 1.
    pub(crate) fn events(&self) -> &[PeriodicEvent]
        ensures events { result.now ≡ self.now.events }
        ensures sound { IsTimed self.now }
    {
        &self.events
    }

    /// The activities between the events.
    pub(crate) fn activities(&self) -> &[PeriodicActivity]
        ensures activities { result.now ≡ self.now.activities }
        ensures sound { All (IsBetween self.now) self.now.activities }
        ensures few { length self.now.activities ≤ 200000 }
    {
        &self.activities
    }

    /// The drives and waits that leave the event of an id.
    pub(crate) fn ways_from(&self, id: u32) -> &[PeriodicActivity]
        requires { IsOneOf (length self.now.events) id }
        ensures ways { result.now ≡ filter (leaves id) self.now.activities }
        ensures sound { All (IsBetween self.now) self.now.activities }
    {
        self.ways.leaving(id)
    }

    /// The time of the event of an id, in the period.
    pub(crate) fn time_at(&self, id: u32) -> u32
        requires some { 1 ≤ id }
        requires there { id ≤ length self.now.events }
        ensures value { result ≡ time_at self.now id }
        ensures within { result < self.now.period }
    {
        self.times[id as usize - 1].time
    }

    /// The minutes that an activity takes: the least number that is not below its lower bound and
    /// leads from the time of its one event to that of the other.
    pub(crate) fn minutes_of(&self, activity: &PeriodicActivity) -> u32
        requires { IsBetween self.now activity.now }
        ensures value { result ≡ minutes_of self.now activity.now }
        ensures short { result ≤ 100720 }
    {
        let lower = i64::from(activity.lower);
        let from = self.time_at(activity.from);
        let to = self.time_at(activity.to);
        tension(lower, from, to, self.period()).unsigned_abs() as u32
    }
}

// The period of a bundle of the stage, in minutes.
fn period_of(bundle: &Bundle) -> u32
    requires stage { bundle.now.stage ≡ stages.Rollout }
    requires fits { Fits bundle.now }
    ensures value { result ≡ (network_in bundle.now).period }
    ensures some { 1 ≤ result }
    ensures few { result ≤ 720 }
{
    bundle.settings().amount(Key::PeriodLength) as u32
}
