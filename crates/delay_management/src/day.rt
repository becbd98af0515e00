// How delays go on through the day of a bundle.
ghost use Rattle.std.specs.Prelude.{ℕ, List, ◌≡◌, ◌<◌, ◌≤◌, ◌≤ℤ◌, pos, length, map, slice_get};
ghost use Rattle.std.specs.Prelude.{Some, option_map, All, IfOk};
ghost use Rattle.std.specs.List.Sorted.{IsStrictlyIncreasing};
ghost use Rattle.giv_files.specs.declared.stage.Stage.TheVariants as stages;
ghost use Rattle.giv_files.specs.Settings.{Fits};
ghost use Rattle.tables.specs.Inputs.{UnlessFault};
ghost use Rattle.propagation.specs.Lateness.{delay_at, is_broken};
ghost use Rattle.propagation.specs.LeastTimes.{IsLeast, least_times};
ghost use Rattle.propagation.specs.Problems.{IsForward, earliest_at, planned_at};
ghost use Rattle.propagation.specs.Waiting.{GrowWithKept, chosen_changes};
ghost use Rattle.delay_management.specs.DispositionStage.{disposition_faults, problem_in};

use crate::bundle_problem::problem_of_bundle;
use giv_files::Bundle;
use plan_num::NoMemory;
use propagation::Times;
use std::alloc::Global;
use std::marker::Model;
use tables::StageFault;

/// The events of a day with their earliest times, and the steps by which delays go on, as the
/// inputs of the stage of dispositions tell them. Contracts see it as these.
#[derive(Debug, Drop)]
pub struct Propagation {
    day: propagation::Propagation,
}

impl Model for Propagation {
    ghost use Rattle.propagation.specs.Problems.{DelayProblem};

    ghost Value = { DelayProblem };

    ghost view = { λ problem. problem.day };
}

impl Propagation {
    /// The problem of the inputs of the stage of dispositions, or their first fault.
    pub fn from_bundle(alloc: Global, bundle: &Bundle) -> Result<Propagation, StageFault>
        requires stage { bundle.now.stage ≡ stages.Disposition }
        requires fits { Fits bundle.now }
        ensures read { UnlessFault (disposition_faults bundle.now)
            (λ problem. problem ≡ problem_in bundle.now) result }
    {
        let day = problem_of_bundle(alloc, bundle)?;
        Ok(Propagation { day })
    }

    /// The least times where some changes are kept, told by one value for each change: no event is
    /// before its earliest time, and each step of a ride, of a turn and of a kept change has its
    /// minutes. There are no other least times, and no event is earlier than where fewer changes
    /// are kept.
    pub fn least(&self, alloc: Global, kept: &[bool]) -> Result<Times, NoMemory>
        ensures times { IfOk result
            (λ times. times ≡ least_times self.now (chosen_changes self.now kept.now)) }
        ensures least { IfOk result
            (λ times. IsLeast self.now (chosen_changes self.now kept.now) times) }
        ensures one { IfOk result (λ times. (others : List ℕ)
            → IsLeast self.now (chosen_changes self.now kept.now) others → others ≡ times) }
        ensures grow { IfOk result (GrowWithKept self.now kept.now) }
        ensures each { IfOk result (λ times. length times ≡ length self.now.events) }
        ensures small { IfOk result (λ times. All (λ time. time ≤ 600000000000) times) }
    {
        self.day.least(alloc, kept)
    }

    /// How many events there are.
    pub fn event_count(&self) -> usize
        ensures count { result ≡ length self.now.events }
        ensures few { length self.now.events ≤ 100000 }
        ensures late { (event : ℕ) → event < length self.now.events
            → planned_at self.now.events event ≤ earliest_at self.now event }
    {
        self.day.event_count()
    }

    /// How many changes there are. They stand by their ids, steps go forward, and no event is at its
    /// earliest before its planned time.
    pub fn change_count(&self) -> usize
        ensures count { result ≡ length self.now.changes }
        ensures few { length self.now.changes ≤ 502000 }
        ensures forward { IsForward self.now }
        ensures rise { IsStrictlyIncreasing (map (λ change. change.id) self.now.changes) }
        ensures late { (event : ℕ) → event < length self.now.events
            → planned_at self.now.events event ≤ earliest_at self.now event }
    {
        self.day.change_count()
    }

    /// The id of a change, by its index.
    pub fn change_id(&self, change: usize) -> i64
        requires { change < length self.now.changes }
        ensures id { option_map (λ change. pos change.id) (slice_get self.now.changes change)
            ≡ Some result }
        ensures least { pos 0 ≤ℤ result }
        ensures most { result ≤ℤ pos 500000 }
    {
        self.day.change_id(change)
    }

    /// Whether times break a change: its departure is earlier than the arrival, its least minutes
    /// and its delay allow.
    pub fn broken(&self, times: &Times, change: usize) -> bool
        requires each { length times.now ≡ length self.now.events }
        requires there { change < length self.now.changes }
        ensures { option_map (is_broken times.now) (slice_get self.now.changes change)
            ≡ Some result }
    {
        self.day.broken(times, change)
    }

    /// How late all arrivals are together, in minutes.
    pub fn delay(&self, times: &Times) -> i128
        requires { length times.now ≡ length self.now.events }
        ensures { result ≡ delay_at self.now.events times.now }
    {
        self.day.delay(times)
    }
}
