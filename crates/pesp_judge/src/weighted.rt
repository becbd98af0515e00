// Periodic event scheduling problems with weights.
ghost use Rattle.std.specs.Prelude.{◌≡◌, ◌≤◌, ◌≤ℤ◌, ◌^◌, pos, is_some};
ghost use Rattle.std.specs.Prelude.{All, Decides, IfSome};
ghost use Rattle.pesp.specs.Timetables.{IsActivity};
ghost use Rattle.pesp_judge.specs.Weighted.{IsWeighted, span_of};

use pesp::PespActivity;
use std::marker::Model;

// The most minutes of a period, the most events, the most activities, and the greatest weight.
const MOST_MINUTES: u32 = 720;

const MOST_EVENTS: usize = 20_000;

const MOST_ACTIVITIES: usize = 100_000;

const MOST_WEIGHT: u32 = 1_000_000_000;

/// An activity, and what each minute weighs that it takes above its lower bound.
#[derive(Clone, Copy, Debug)]
pub struct WeightedActivity {
    pub activity: PespActivity,
    pub weight: u32,
}

impl WeightedActivity {
    // Whether it goes from one of so many events to another, by bounds in order, and has a weight
    // up to 10^9.
    fn is_sound(&self, events: usize) -> bool
        ensures { Decides result
            (IsActivity events self.now.activity × (self.now.weight ≤ 10 ^ 9)) }
    {
        let it = &self.activity;
        let ends = it.from < events && it.to < events;
        let bounds = 0 <= it.lower && it.lower <= it.upper && it.upper <= 100_000;
        ends && bounds && self.weight <= MOST_WEIGHT
    }
}

/// A period, events, and activities with weights between them. Contracts see it as these three; an
/// event is its index.
#[derive(Debug, Drop)]
pub struct WeightedPesp {
    period: u32,
    events: usize,
    activities: Vec<WeightedActivity>,
}

impl Model for WeightedPesp {
    ghost use Rattle.pesp_judge.specs.Weighted.{WeightedProblem, IsWeighted};

    ghost Value = { WeightedProblem };

    ghost view = { λ weighted. record {
      period = weighted.period;
      events = weighted.events;
      activities = weighted.activities.items;
    } };

    ghost invariant = { λ weighted. IsWeighted (record {
      period = weighted.period;
      events = weighted.events;
      activities = weighted.activities.items;
    }) };
}

impl WeightedPesp {
    /// The problem of a period, of so many events and of activities between them, where they are
    /// one: the period has 1 to 720 minutes, there are at most 20,000 events and 100,000 activities,
    /// and each of these goes from event to event, by bounds in order from 0 to 100,000 minutes,
    /// with a weight up to 10^9. None else.
    pub fn checked(
        period: u32,
        events: usize,
        activities: Vec<WeightedActivity>,
    ) -> Option<WeightedPesp>
        ensures problem { IfSome result (λ weighted. weighted ≡ record {
          period = period;
          events = events;
          activities = activities.items;
        }) }
        ensures exactly { Decides (is_some result) (IsWeighted (record {
          period = period;
          events = events;
          activities = activities.items;
        })) }
    {
        if !is_weighted(period, events, &activities) {
            return None;
        }
        Some(WeightedPesp {
            period,
            events,
            activities,
        })
    }

    /// The period, in minutes.
    pub fn period(&self) -> u32
        ensures value { result ≡ self.now.period }
        ensures some { 1 ≤ result }
        ensures few { result ≤ 720 }
        ensures problem { IsWeighted self.now }
    {
        self.period
    }

    /// How many events there are.
    pub fn event_count(&self) -> usize
        ensures { result ≡ self.now.events }
    {
        self.events
    }

    /// The activities with their weights, in order.
    pub fn activities(&self) -> &[WeightedActivity]
        ensures all { result.now ≡ self.now.activities }
        ensures problem { IsWeighted self.now }
    {
        &self.activities
    }
}

// Whether a period, so many events and activities are a problem.
fn is_weighted(period: u32, events: usize, activities: &[WeightedActivity]) -> bool
    ensures { Decides result (IsWeighted (record {
      period = period;
      events = events;
      activities = activities.now;
    })) }
{
    let sizes = 1 <= period && period <= MOST_MINUTES && events <= MOST_EVENTS;
    sizes && activities.len() <= MOST_ACTIVITIES && are_sound(events, activities)
}

// Whether each activity goes from one of so many events to another, by bounds in order, and has a
// weight up to 10^9.
fn are_sound(events: usize, activities: &[WeightedActivity]) -> bool
    ensures { Decides result (All (λ it. IsActivity events it.activity × (it.weight ≤ 10 ^ 9))
        activities.now) }
{
    activities.iter().all(|it| it.is_sound(events))
}

/// The most minutes that an activity can have above its lower bound: those to its upper bound, and
/// less than the period.
pub(crate) fn span(activity: &PespActivity, period: u32) -> i64
    requires some { 1 ≤ period }
    requires low { pos 0 ≤ℤ activity.now.lower }
    requires in_order { activity.now.lower ≤ℤ activity.now.upper }
    ensures { result ≡ span_of period activity.now }
{
    (activity.upper - activity.lower).min(i64::from(period) - 1)
}
