// How delays go on through a day.
ghost use Rattle.std.specs.Prelude.{ℕ, ◌≡◌, ◌<◌, ◌≤◌, length, map, All, IfOk};
ghost use Rattle.std.specs.List.Sorted.{IsStrictlyIncreasing};
ghost use Rattle.propagation.specs.LeastTimes.{IsLeast, least_times};
ghost use Rattle.propagation.specs.Links.{IsDay, IsLinked, parts_of};
ghost use Rattle.propagation.specs.Problems.{IsForward, Joins, earliest_at, planned_at};
ghost use Rattle.propagation.specs.Waiting.{chosen_changes};

use crate::day_event::DayEvent;
use crate::links::{Link, links_in_order};
use crate::pass::{push_again, pushed_along};
use crate::step::{Activity, Step};
use plan_num::NoMemory;
use std::alloc::Global;
use std::marker::Model;

/// The events of a day with their earliest times, and the steps by which delays go on. Contracts
/// see it as these.
#[derive(Debug)]
pub struct Propagation {
    events: Vec<DayEvent>,
    earliest: Vec<u64>,
    rides: Vec<Activity>,
    changes: Vec<Activity>,
    turns: Vec<Step>,
    links: Vec<Link>,
}

impl Drop for Propagation {
    fn drop(self) {
        let Propagation {
            events: _,
            earliest: _,
            rides: _,
            changes: _,
            turns: _,
            links: _,
        } = self;
    }
}

impl Model for Propagation {
    ghost use Rattle.propagation.specs.Links.{IsLinked};
    ghost use Rattle.propagation.specs.Problems.{DelayProblem};

    ghost Value = { DelayProblem };

    ghost view = { λ p. record {
      events = p.events.items;
      earliest = p.earliest.items;
      rides = p.rides.items;
      changes = p.changes.items;
      turns = p.turns.items;
    } };

    ghost invariant = { λ p. IsLinked (record {
      events = p.events.items;
      earliest = p.earliest.items;
      rides = p.rides.items;
      changes = p.changes.items;
      turns = p.turns.items;
    }) p.links.items };
}

impl Propagation {
    /// The problem of its parts: events with their earliest times, drives and waits, changes, and
    /// turns of vehicles.
    pub fn of_parts(
        alloc: Global,
        events: Vec<DayEvent>,
        earliest: Vec<u64>,
        rides: Vec<Activity>,
        changes: Vec<Activity>,
        turns: Vec<Step>,
    ) -> Result<Propagation, NoMemory>
        requires { IsDay
            (parts_of events.items earliest.items rides.items changes.items turns.items) }
        ensures value { IfOk result (λ problem. problem
            ≡ parts_of events.items earliest.items rides.items changes.items turns.items) }
        ensures forward { IfOk result IsForward }
        ensures rise { IfOk result
            (λ problem. IsStrictlyIncreasing (map (λ change. change.id) problem.changes)) }
    {
        let links = links_in_order(alloc, &events, &rides, &turns, &changes)?;
        Ok(Propagation {
            events,
            earliest,
            rides,
            changes,
            turns,
            links,
        })
    }

    /// The least times where some changes are kept, told by one value for each change: no event is
    /// before its earliest time, and each step has its minutes.
    pub fn least_times(&self, alloc: Global, kept: &[bool]) -> Result<Vec<u64>, NoMemory>
        ensures times { IfOk result
            (λ times. times.items ≡ least_times self.now (chosen_changes self.now kept.now)) }
        ensures least { IfOk result
            (λ times. IsLeast self.now (chosen_changes self.now kept.now) times.items) }
        ensures small { IfOk result (λ times. All (λ time. time ≤ 600000000000) times.items) }
        ensures few { length self.now.events ≤ 100000 }
        ensures late { (event : ℕ) → event < length self.now.events
            → planned_at self.now.events event ≤ earliest_at self.now event }
    {
        pushed_along(alloc, &self.earliest, &self.links, kept)
    }

    /// Puts these least times in the place of others.
    pub fn put_least_times(&self, times: &mut Vec<u64>, kept: &[bool])
        requires { length times.old.items ≡ length self.now.events }
        ensures times { times.new.items ≡ least_times self.now (chosen_changes self.now kept.now) }
        ensures least { IsLeast self.now (chosen_changes self.now kept.now) times.new.items }
        ensures small { All (λ time. time ≤ 600000000000) times.new.items }
    {
        push_again(times, &self.earliest, &self.links, kept);
    }

    /// The links, in their forward order.
    pub fn links(&self) -> &[Link]
        ensures { IsLinked self.now result.now }
    {
        &self.links
    }

    /// The events.
    pub fn events(&self) -> &[DayEvent]
        ensures value { result.now ≡ self.now.events }
        ensures few { length self.now.events ≤ 100000 }
        ensures forward { IsForward self.now }
        ensures late { (event : ℕ) → event < length self.now.events
            → planned_at self.now.events event ≤ earliest_at self.now event }
    {
        &self.events
    }

    /// The earliest time of each event.
    pub fn earliest(&self) -> &[u64]
        ensures value { result.now ≡ self.now.earliest }
        ensures each { length self.now.earliest ≡ length self.now.events }
        ensures few { length self.now.events ≤ 100000 }
    {
        &self.earliest
    }

    /// The drives and waits.
    pub fn rides(&self) -> &[Activity]
        ensures value { result.now ≡ self.now.rides }
        ensures ends { All (λ ride. Joins (length self.now.events) ride.step) self.now.rides }
        ensures ids { All (λ ride. ride.id ≤ 500000) self.now.rides }
    {
        &self.rides
    }

    /// The changes.
    pub fn changes(&self) -> &[Activity]
        ensures value { result.now ≡ self.now.changes }
        ensures ends { All (λ change. Joins (length self.now.events) change.step) self.now.changes }
        ensures ids { All (λ change. change.id ≤ 500000) self.now.changes }
        ensures rise { IsStrictlyIncreasing (map (λ change. change.id) self.now.changes) }
        ensures few { length self.now.changes ≤ 502000 }
        ensures forward { IsForward self.now }
        ensures late { (event : ℕ) → event < length self.now.events
            → planned_at self.now.events event ≤ earliest_at self.now event }
    {
        &self.changes
    }

    /// The turns of vehicles.
    pub fn turns(&self) -> &[Step]
        ensures value { result.now ≡ self.now.turns }
        ensures ends { All (Joins (length self.now.events)) self.now.turns }
    {
        &self.turns
    }
}
