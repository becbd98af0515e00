// Periodic event scheduling problems.
ghost use Rattle.std.specs.Prelude.{◌≡◌, ◌<◌, length, position, slice_get, not, is_none, is_some};
ghost use Rattle.std.specs.Prelude.{Some, All, Decides, IfSome};
ghost use Rattle.pesp.specs.Timetables.{first_broken, keeps_in, IsActivity, IsFirstBroken};
ghost use Rattle.pesp.specs.Timetables.{IsProblem, IsTimetable};

use crate::activity::PespActivity;
use std::marker::Model;

// The most minutes of a period, the most events, and the most activities.
const MOST_MINUTES: u32 = 720;

const MOST_EVENTS: usize = 4000;

const MOST_ACTIVITIES: usize = 200_000;

/// A period, events, and activities between them. Contracts see it as these three; an event is
/// its index.
#[derive(Debug, Drop)]
pub struct Pesp {
    period: u32,
    events: usize,
    activities: Vec<PespActivity>,
}

impl Model for Pesp {
    ghost use Rattle.pesp.specs.Timetables.{Problem, IsProblem};

    ghost Value = { Problem };

    ghost view = { λ pesp. record {
      period = pesp.period;
      events = pesp.events;
      activities = pesp.activities.items;
    } };

    ghost invariant = { λ pesp. IsProblem (record {
      period = pesp.period;
      events = pesp.events;
      activities = pesp.activities.items;
    }) };
}

impl Pesp {
    /// The problem of a period, of so many events, and of activities between them.
    pub fn new(period: u32, events: usize, activities: Vec<PespActivity>) -> Pesp
        requires { IsProblem (record {
          period = period;
          events = events;
          activities = activities.items;
        }) }
        ensures { result ≡ record {
          period = period;
          events = events;
          activities = activities.items;
        } }
    {
        Pesp {
            period,
            events,
            activities,
        }
    }

    /// The same, where they are a problem: the period has 1 to 720 minutes, there are at most 4,000
    /// events and 200,000 activities, and each of these goes from event to event, by bounds in
    /// order from 0 to 100,000 minutes. None else.
    pub fn checked(period: u32, events: usize, activities: Vec<PespActivity>) -> Option<Pesp>
        ensures problem { IfSome result (λ pesp. pesp ≡ record {
          period = period;
          events = events;
          activities = activities.items;
        }) }
        ensures exactly { Decides (is_some result) (IsProblem (record {
          period = period;
          events = events;
          activities = activities.items;
        })) }
    {
        if !is_problem(period, events, &activities) {
            return None;
        }
        Some(Pesp::new(period, events, activities))
    }

    /// The period, in minutes.
    pub fn period(&self) -> u32
        ensures { result ≡ self.now.period }
    {
        self.period
    }

    /// How many events there are.
    pub fn event_count(&self) -> usize
        ensures count { result ≡ self.now.events }
        ensures problem { IsProblem self.now }
    {
        self.events
    }

    /// How many activities there are.
    pub fn activity_count(&self) -> usize
        ensures count { result ≡ length self.now.activities }
        ensures problem { IsProblem self.now }
    {
        self.activities.len()
    }

    /// The activity at an index.
    pub fn activity(&self, index: usize) -> PespActivity
        requires { index < length self.now.activities }
        ensures place { slice_get self.now.activities index ≡ Some result }
        ensures sound { IsActivity self.now.events result }
    {
        self.activities[index]
    }

    /// The index of the first activity that breaks its bounds where each event has a time; none
    /// exactly where the times are a timetable of the problem.
    pub fn first_violated(&self, times: &[u32]) -> Option<usize>
        requires each { length times.now ≡ self.now.events }
        requires within { All (λ time. time < self.now.period) times.now }
        ensures value { result ≡ first_broken self.now times.now }
        ensures first { IsFirstBroken self.now times.now result }
        ensures feasible { Decides (is_none result) (IsTimetable self.now times.now) }
    {
        first_broken(&self.activities, self.period, times)
    }
}

// Whether a period, so many events and activities are a problem.
fn is_problem(period: u32, events: usize, activities: &[PespActivity]) -> bool
    ensures { Decides result (IsProblem (record {
      period = period;
      events = events;
      activities = activities.now;
    })) }
{
    let sizes = 1 <= period && period <= MOST_MINUTES && events <= MOST_EVENTS;
    sizes && activities.len() <= MOST_ACTIVITIES && are_sound(events, activities)
}

// Whether each activity goes from one of so many events to another, by bounds in order.
fn are_sound(events: usize, activities: &[PespActivity]) -> bool
    ensures { Decides result (All (IsActivity events) activities.now) }
{
    for activity in activities {
        if !activity.is_sound(events) {
            return false;
        }
    }
    true
}

// The index of the first of some activities that breaks its bounds.
fn first_broken(activities: &[PespActivity], period: u32, times: &[u32]) -> Option<usize>
    requires activities { All (IsActivity (length times.now)) activities.now }
    requires within { All (λ time. time < period) times.now }
    ensures { result
        ≡ position (λ activity. not (keeps_in period times.now activity)) activities.now }
{
    for (index, activity) in activities.iter().enumerate() {
        if !activity.keeps_in(period, times) {
            return Some(index);
        }
    }
    None
}
