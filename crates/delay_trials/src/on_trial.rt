// Times on trial, and what they tell.
ghost use Rattle.std.specs.Prelude.{◌≡◌, ◌+◌, ◌∷◌, ◌<◌, ◌≤◌, false, get_or, length, slice_set, IfOk, IfSome, OnErr};
ghost use Rattle.std.specs.Prelude.{OnOk};
ghost use Rattle.propagation.specs.DayEvents.{forward_rank};
ghost use Rattle.propagation.specs.Lateness.{delay_at};
ghost use Rattle.propagation.specs.LeastTimes.{asked, least_times};
ghost use Rattle.propagation.specs.Links.{IsLinked};
ghost use Rattle.bit_rows.specs.Markings.{IsNext};
ghost use Rattle.delay_trials.specs.OnTrial.{Follows, IsLastMoved, IsSettling, NoneWaits, Pushes, StartsTrial};
ghost use Rattle.delay_trials.specs.OnTrial.{TellsBroken, WaitBy};
ghost use Rattle.propagation.specs.Problems.{IsForward, Joins};
ghost use Rattle.propagation.specs.Waiting.{chosen_changes};
ghost use Rattle.propagation.specs.declared.times.TheConstants.{LATEST};

use crate::ends::{ChangeEnd, ends_in_order, first_ends, forget_limits, no_limits};
use crate::link_places::{first_links, wait_behind};
use crate::moved_event::Moved;
use crate::open_changes::OpenChanges;
use bit_rows::Marking;
use plan_num::NoMemory;
use propagation::{Link, Propagation, Step, asked, counts, delay_at, forward_rank, more_delay};
use std::alloc::Global;
use std::marker::Model;

/// The times of a day while they are changed on trial: how late they are together, which open
/// changes they break, and for how long they do, which events were made later and when these were
/// before, and which links wait to be looked at. Contracts see it as the day with its links, the
/// times, which changes are open, what was made later, the last first, and the links that wait.
pub(crate) struct TimesOnTrial<'a> {
    problem: &'a Propagation,
    links: &'a [Link],
    first_links: Vec<usize>,
    ends: Vec<ChangeEnd>,
    first_ends: Vec<usize>,
    times: Vec<u64>,
    delay: i128,
    undecided: Vec<bool>,
    broken: Marking,
    shifted: u64,
    until: Vec<u64>,
    trail: Vec<Moved>,
    waiting: Marking,
}

impl Drop for TimesOnTrial<'_> {
    fn drop(self) {
        let TimesOnTrial {
            problem: _,
            links: _,
            first_links: _,
            ends: _,
            first_ends: _,
            times: _,
            delay: _,
            undecided: _,
            broken: _,
            shifted: _,
            until: _,
            trail: _,
            waiting: _,
        } = self;
    }
}

impl<'a> Model for TimesOnTrial<'a> {
    ghost use Rattle.delay_trials.specs.OnTrial.{IsOnTrial, TrialTimes, seen_trial};

    ghost Value = { TrialTimes };

    ghost view = { λ t. seen_trial t.problem.now t.links.now t.times.items t.undecided.items
        t.trail.items t.waiting };

    ghost invariant = { λ t. IsOnTrial (seen_trial t.problem.now t.links.now t.times.items
        t.undecided.items t.trail.items t.waiting) t.ends.items t.delay t.broken
        t.first_links.items t.first_ends.items t.shifted t.until.items };
}

impl<'a> TimesOnTrial<'a> {
    /// The least times where no change is kept; all changes are open.
    pub(crate) fn new(alloc: Global, problem: &'a Propagation) -> Result<TimesOnTrial<'a>, NoMemory>
        ensures starts { IfOk result (λ all. StartsTrial problem.now all) }
        ensures forward { IsForward problem.now }
    {
        let count = problem.change_count();
        let events = problem.events();
        let links = problem.links();
        let times = problem.least_times(alloc, &[])?;
        let undecided = vec![in alloc; true; count]?;
        let ends = ends_in_order(alloc, problem.changes())?;
        let mut broken = Marking::none(alloc, count)?;
        OpenChanges::new(problem.changes(), &times, &undecided, &ends).test_all(&mut broken);
        let until = no_limits(alloc, &ends)?;
        Ok(TimesOnTrial {
            problem,
            links,
            first_links: first_links(alloc, events, links)?,
            first_ends: first_ends(alloc, &ends, events.len())?,
            ends,
            delay: delay_at(events, &times),
            times,
            undecided,
            broken,
            shifted: 0,
            until,
            trail: Vec::new(alloc),
            waiting: Marking::none(alloc, links.len())?,
        })
    }

    /// The day.
    pub(crate) fn problem(&self) -> &'a Propagation
        ensures value { result.now ≡ self.now.problem }
        ensures linked { IsLinked self.now.problem self.now.links }
    {
        self.problem
    }

    /// A change is open from now on, or it is no more.
    pub(crate) fn set_open(&mut self, change: usize, is: bool)
        requires { change < length self.old.problem.changes }
        ensures { self.new ≡ record self.old {
          open_yet = slice_set self.old.open_yet change is;
        } }
    {
        self.undecided[change] = is;
        OpenChanges::new(
            self.problem.changes(),
            &self.times,
            &self.undecided,
            &self.ends,
        )
        .test(&mut self.broken, change);
    }

    /// Whether a change is open.
    pub(crate) fn is_open(&self, change: usize) -> bool
        requires { change < length self.now.problem.changes }
        ensures { result ≡ get_or self.now.open_yet change false }
    {
        self.undecided[change]
    }

    /// How late all arrivals are together.
    pub(crate) fn delay(&self) -> i128
        ensures { result ≡ delay_at self.now.problem.events self.now.times }
    {
        self.delay
    }

    /// The first change that is open and broken.
    pub(crate) fn first_broken(&self) -> Option<usize>
        ensures { TellsBroken self.now result }
    {
        self.broken.next(0)
    }

    /// The time of an event is another one.
    pub(crate) fn set_time(&mut self, event: u32, time: u64)
        requires there { event < length self.old.problem.events }
        requires small { time ≤ LATEST }
        ensures { self.new ≡ record self.old { times = slice_set self.old.times event time } }
    {
        let at = event as usize;
        let before = self.times[at];
        let more = more_delay(&self.problem.events()[at], before, time);
        self.delay += more;
        self.times[at] = time;
        OpenChanges::new(
            self.problem.changes(),
            &self.times,
            &self.undecided,
            &self.ends,
        )
        .test_moved(
            &mut self.broken,
            &mut self.until,
            &mut self.shifted,
            self.first_ends[at],
            Moved { event, before },
        );
    }

    // The links out of an event wait.
    fn wait_at(&mut self, event: u32)
        requires { event < length self.old.problem.events }
        ensures same { self.new ≡ record self.old { waiting = self.new.waiting } }
        ensures waits { WaitBy (λ link. link.rank ≡ forward_rank self.old.problem.events event)
            self.old.links self.old.waiting self.new.waiting }
    {
        let rank = forward_rank(self.problem.events(), event);
        let first = self.first_links[event as usize];
        wait_behind(&mut self.waiting, self.links, first, rank);
    }

    /// No link waits any more.
    pub(crate) fn forget(&mut self)
        ensures same { self.new ≡ record self.old { waiting = self.new.waiting } }
        ensures none { NoneWaits self.new }
    {
        self.waiting.clear();
    }

    /// The first link from a place on that waits.
    pub(crate) fn next_waiting(&self, from: usize) -> Option<usize>
        ensures next { IsNext self.now.waiting from result }
        ensures there { IfSome result (λ at. at < length self.now.links) }
        ensures linked { IsLinked self.now.problem self.now.links }
        ensures each { length self.now.times ≡ length self.now.problem.events }
    {
        self.waiting.next(from)
    }

    /// The link at a place waits no more: its head is no earlier than it asks, where it counts.
    pub(crate) fn take_link(&mut self, at: usize, kept: &[bool]) -> Result<(), NoMemory>
        requires there { at < length self.old.links }
        requires settling { IsSettling kept.now self.old at }
        ensures follows { Follows self.old self.new }
        ensures on { OnOk result (IsSettling kept.now self.new (at + 1)) }
    {
        self.waiting.set(at, false);
        let link = self.links[at];
        if counts(kept, link.change) {
            self.push(link.step)?;
        }
        Ok(())
    }

    /// The head of a step, no earlier than the step asks.
    pub(crate) fn push(&mut self, step: Step) -> Result<(), NoMemory>
        requires joins { Joins (length self.old.problem.events) step }
        requires small { asked self.old.times step ≤ LATEST }
        ensures ok { OnOk result (Pushes step self.old self.new) }
        ensures err { OnErr result (self.new ≡ self.old) }
    {
        let asked = asked(&self.times, &step);
        let before = self.times[step.to as usize];
        if before < asked {
            self.note(step.to, before)?;
            self.set_time(step.to, asked);
            self.wait_at(step.to);
        }
        Ok(())
    }

    // The time of an event is noted.
    fn note(&mut self, event: u32, before: u64) -> Result<(), NoMemory>
        requires there { event < length self.old.problem.events }
        requires small { before ≤ LATEST }
        ensures ok { OnOk result (self.new ≡ record self.old {
          noted = record { event = event; before = before } ∷ self.old.noted;
        }) }
        ensures err { OnErr result (self.new ≡ self.old) }
    {
        self.trail.push(Moved { event, before })?;
        Ok(())
    }

    /// How many events were made later.
    pub(crate) fn moved(&self) -> usize
        ensures { result ≡ length self.now.noted }
    {
        self.trail.len()
    }

    /// The least times where some changes are kept, in the place of others.
    pub(crate) fn renew(&mut self, kept: &[bool])
        ensures { self.new ≡ record self.old {
          times = least_times self.old.problem (chosen_changes self.old.problem kept.now);
        } }
    {
        self.problem.put_least_times(&mut self.times, kept);
        self.delay = delay_at(self.problem.events(), &self.times);
        forget_limits(&mut self.until);
        OpenChanges::new(
            self.problem.changes(),
            &self.times,
            &self.undecided,
            &self.ends,
        )
        .test_all(&mut self.broken);
    }

    /// The last event that was made later, where more than so many are left; it is no more noted.
    pub(crate) fn last_moved(&mut self, left: usize) -> Option<Moved>
        ensures { IsLastMoved left self.old self.new result }
    {
        if self.trail.len() <= left {
            return None;
        }
        self.trail.pop()
    }
}
