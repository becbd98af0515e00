// Classes of events that exact activities join, and the minutes by which their cycles go round.
ghost use Rattle.std.specs.Prelude.{◌≡◌, ◌<◌, ◌≤◌, ◌≤ℤ◌, pos, ℕ, Bool, All, IfOk, OnOk, length};
ghost use Rattle.pesp.specs.Cycles.{AreClasses, AreShifts, IsTie, Repeats, TiesBy};
ghost use Rattle.pesp.specs.Revising.{AreLinks, width_of};

use crate::activity::PespActivity;
use crate::links::Links;
use crate::problem::Pesp;
use crate::revise::{ahead, behind, width_of};
use plan_num::NoMemory;
use std::alloc::Global;

/// Where an event stands in its class: the first event of the class, the minutes from that one to
/// it, and the minutes back, both less than a period.
#[derive(Clone, Copy)]
pub(crate) struct Place {
    first: usize,
    there: usize,
    back: usize,
}

/// Two events that an exact activity ties together: the minutes from one to the other, and back, at
/// most a period.
#[derive(Clone, Copy)]
pub(crate) struct Tie {
    from: usize,
    to: usize,
    forth: usize,
    back: usize,
}

/// Events in classes, each with the minutes by which cycles bring it back to itself, and those
/// whose activities are still to be looked at.
#[derive(Drop)]
pub(crate) struct Classes<'a> {
    pesp: &'a Pesp,
    period: usize,
    places: Vec<Place>,
    shifts: Vec<usize>,
    waiting: Vec<usize>,
}

/// Of each event by how many minutes its set of times goes over into itself, since exact
/// activities lead from it back to it; 0 where none do.
pub(crate) fn cycle_shifts(
    alloc: Global,
    pesp: &Pesp,
    links: &Links,
    period: usize,
) -> Result<Vec<usize>, NoMemory>
    requires period { pesp.now.period ≡ period }
    requires links { AreLinks pesp.now (length pesp.now.activities) links.now }
    ensures { IfOk result (λ shifts. AreShifts pesp.now shifts.items) }
{
    let mut classes = Classes::alone(alloc, pesp, period)?;
    for event in 0..pesp.event_count() {
        classes.join_from(links, event)?;
    }
    classes.shifts_of_events(alloc)
}

impl<'a> Classes<'a> {
    // Each event is a class by itself.
    fn alone(alloc: Global, pesp: &'a Pesp, period: usize) -> Result<Classes<'a>, NoMemory>
        requires period { pesp.now.period ≡ period }
        ensures { IfOk result (AreClasses pesp.now) }
    {
        let mut places = Vec::new(alloc);
        let mut shifts = Vec::new(alloc);
        for event in 0..pesp.event_count() {
            places.push(Place {
                first: event,
                there: 0,
                back: 0,
            })?;
            shifts.push(0)?;
        }
        Ok(Classes {
            pesp,
            period,
            places,
            shifts,
            waiting: Vec::new(alloc),
        })
    }

    // Joins to an event all that exact activities lead to, where it is the first of its class.
    fn join_from(&mut self, links: &Links, event: usize) -> Result<(), NoMemory>
        requires classes { AreClasses self.old.pesp.now self.old }
        requires links { AreLinks self.old.pesp.now (length self.old.pesp.now.activities)
            links.now }
        requires event { event < self.old.pesp.now.events }
        ensures { OnOk result (AreClasses self.old.pesp.now self.new) }
    {
        if self.places[event].first != event {
            return Ok(());
        }
        self.waiting.push(event)?;
        for _turn in 0..self.places.len() {
            match self.waiting.pop() {
                None => return Ok(()),
                Some(next) => self.join_at(links.at(next), next)?,
            }
        }
        Ok(())
    }

    // Joins to an event those that its exact activities lead to.
    fn join_at(&mut self, indexes: &[usize], event: usize) -> Result<(), NoMemory>
        requires classes { AreClasses self.old.pesp.now self.old }
        requires within { All (λ index. index < length self.old.pesp.now.activities) indexes.now }
        ensures { OnOk result (AreClasses self.old.pesp.now self.new) }
    {
        for index in indexes {
            let activity = self.pesp.activity(*index);
            if width_of(activity, self.period) == 0 {
                self.join(tie_at(activity, event, self.period))?;
            }
        }
        Ok(())
    }

    // Joins an event to the class of one that it is tied to, or notes the cycle that leads back.
    fn join(&mut self, tie: Tie) -> Result<(), NoMemory>
        requires classes { AreClasses self.old.pesp.now self.old }
        requires tie { IsTie self.old.pesp.now tie }
        ensures { OnOk result (AreClasses self.old.pesp.now self.new) }
    {
        let near = self.places[tie.from];
        let far = self.places[tie.to];
        let there = (near.there + tie.forth) % self.period;
        if far.first == near.first {
            let around = (there + far.back) % self.period;
            self.shifts[near.first] = common(self.shifts[near.first], around);
        } else if far.first == tie.to {
            self.places[tie.to] = Place {
                first: near.first,
                there,
                back: (tie.back + near.back) % self.period,
            };
            self.waiting.push(tie.to)?;
        }
        Ok(())
    }

    // The minutes by which cycles bring each event back to itself: those of its class.
    fn shifts_of_events(&self, alloc: Global) -> Result<Vec<usize>, NoMemory>
        requires { AreClasses self.now.pesp.now self.now }
        ensures { IfOk result (λ shifts. AreShifts self.now.pesp.now shifts.items) }
    {
        let mut shifts = Vec::new(alloc);
        for place in &self.places {
            let back = (place.back + self.shifts[place.first]) % self.period;
            shifts.push((back + place.there) % self.period)?;
        }
        Ok(shifts)
    }
}

// What ties an event to the other one of an exact activity.
fn tie_at(activity: PespActivity, event: usize, period: usize) -> Tie
    requires some { 1 ≤ period }
    requires few { period ≤ 720 }
    requires low { pos 0 ≤ℤ activity.lower }
    requires in_order { activity.lower ≤ℤ activity.upper }
    requires high { activity.upper ≤ℤ pos 100000 }
    requires exact { width_of period activity ≡ 0 }
    ensures ties { TiesBy period activity result }
    ensures few_forth { result.forth ≤ period }
    ensures few_back { result.back ≤ period }
{
    let forth = ahead(activity, period);
    let back = behind(activity, period, 0);
    if activity.from == event {
        Tie {
            from: activity.from,
            to: activity.to,
            forth,
            back,
        }
    } else {
        Tie {
            from: activity.to,
            to: activity.from,
            forth: back,
            back: forth,
        }
    }
}

// The greatest common divisor of two numbers, by Euclid's algorithm. A set of times that goes over
// into itself after both does so after that.
fn common(first: usize, second: usize) -> usize
    ensures few { (bound : ℕ) → first < bound → second < bound → result < bound }
    ensures repeats { (period : ℕ) (left : ℕ → Bool) → 1 ≤ period → Repeats period left first
        → Repeats period left second → Repeats period left result }
{
    let mut one = first;
    let mut other = second;
    'divisions: while other != 0 {
        let rest = one % other;
        one = other;
        other = rest;
    }
    one
}
