// Where the copies of periodic events are among the events of a day.
ghost use Rattle.std.specs.Prelude.{◌≡◌, ◌+◌, ◌≤◌, ◌<◌, ◌++◌, All, IfOk, OnOk};
ghost use Rattle.std.specs.Option.{option_to_list};
ghost use Rattle.roll_out.specs.Plans.{AreFew, IsPlan, copies_by, copy_id, copy_time, event_total, ids_at, plan_copies, trip_total};

use crate::plan::RunPlan;
use crate::trip::plan_events;
use plan_num::NoMemory;
use std::alloc::Global;

/// The copies of a periodic event, which is at one place in each trip of its run: the id and the
/// time of the first one, how many ids lie between two of them, and how many there are. A period
/// lies between their times.
#[derive(Clone, Copy)]
pub(crate) struct Copies {
    pub(crate) first: u32,
    pub(crate) step: u32,
    pub(crate) start: u32,
    pub(crate) count: u32,
}

impl Copies {
    /// The id of a copy, after so many earlier ones.
    pub(crate) fn id(&self, earlier: u32) -> u32
        requires few { AreFew self.now }
        requires there { earlier < self.now.count }
        ensures { result ≡ copy_id self.now earlier }
    {
        self.first + earlier * self.step
    }

    /// Its time.
    pub(crate) fn time(&self, period: u32, earlier: u32) -> u32
        requires few { AreFew self.now }
        requires period { period ≤ 720 }
        requires there { earlier < self.now.count }
        ensures value { result ≡ copy_time period self.now earlier }
        ensures soon { result ≤ 404330800 }
    {
        self.start + earlier * period
    }

    /// The id of the copy at a time, if there is one.
    pub(crate) fn id_at(&self, period: u32, time: u32) -> Option<u32>
        requires few { AreFew self.now }
        requires period { 1 ≤ period }
        ensures { option_to_list result ≡ ids_at period self.now time }
    {
        if time < self.start {
            return None;
        }
        let after = time - self.start;
        if after % period != 0 {
            return None;
        }
        if after / period >= self.count {
            return None;
        }
        Some(self.id(after / period))
    }
}

/// The copies of the events of plans.
pub(crate) fn copies_by(alloc: Global, plans: &[RunPlan]) -> Result<Vec<Copies>, NoMemory>
    requires plans { All IsPlan plans.now }
    requires trips { trip_total plans.now ≤ 2000 }
    requires events { event_total plans.now ≤ 100000 }
    ensures { IfOk result (λ copies. copies.items ≡ copies_by 1 plans.now) }
{
    let mut copies = Vec::new(alloc);
    let mut first = 1;
    for plan in plans {
        add_copies(first, plan, &mut copies)?;
        first += plan_events(plan) as u32;
    }
    Ok(copies)
}

// The copies of the events of a plan are added, whose first trip begins at an id.
fn add_copies(first: u32, plan: &RunPlan, copies: &mut Vec<Copies>) -> Result<(), NoMemory>
    requires first { first ≤ 100001 }
    requires plan { IsPlan plan.now }
    ensures { OnOk result (copies.new.items ≡ copies.old.items ++ plan_copies first plan.now) }
{
    let (run, start, count) = (plan.events(), plan.start(), plan.trips());
    for place in 0..run.len() {
        copies.push(Copies {
            first: first + place as u32,
            step: run.len() as u32,
            start: start + run[place].minutes,
            count,
        })?;
    }
    Ok(())
}
