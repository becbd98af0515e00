// Periodic event scheduling problems of texts.
ghost use Rattle.std.specs.Prelude.{◌≡◌, ◌<◌, ◌≤◌, length, map, slice_get, is_none, Some, All};
ghost use Rattle.std.specs.Prelude.{Decides, IfOk};
ghost use Rattle.tables.specs.Inputs.{UnlessFault};
ghost use Rattle.pesp.specs.Timetables.{first_broken, IsActivity, IsFirstBroken, IsProblem};
ghost use Rattle.pesp.specs.Timetables.{IsTimetable};
ghost use Rattle.pesp_model.specs.PespTexts.{activity_of, problem_of, problem_faults};

use event_tables::{PeriodicActivity, periodic_activities, periodic_events};
use pesp::PespActivity;
use plan_num::NoMemory;
use std::alloc::Global;
use std::marker::Model;
use tables::StageFault;

/// A period, events, and activities between them, as texts tell them. Contracts see it as these
/// three; an event is its index.
#[derive(Debug, Drop)]
pub struct Pesp {
    problem: pesp::Pesp,
}

impl Model for Pesp {
    ghost use Rattle.pesp.specs.Timetables.{Problem};

    ghost Value = { Problem };

    ghost view = { λ pesp. pesp.problem };
}

impl Pesp {
    /// The problem of a period and of the texts of periodic events and activities, or the first
    /// fault of the texts.
    pub fn from_texts(
        alloc: Global,
        period: u32,
        events: &[u8],
        activities: &[u8],
    ) -> Result<Pesp, StageFault>
        requires some { 1 ≤ period }
        requires few { period ≤ 720 }
        ensures read { UnlessFault (problem_faults events.now activities.now)
            (λ pesp. pesp ≡ problem_of period events.now activities.now) result }
        ensures period { IfOk result (λ pesp. pesp.period ≡ period) }
    {
        let problem = problem_of_texts(alloc, period, events, activities)?;
        Ok(Pesp { problem })
    }

    /// The problem itself, as the crate `pesp` takes it.
    pub fn problem(&self) -> &pesp::Pesp
        ensures { result.now ≡ self.now }
    {
        &self.problem
    }

    /// How many events there are.
    pub fn event_count(&self) -> usize
        ensures count { result ≡ self.now.events }
        ensures problem { IsProblem self.now }
    {
        self.problem.event_count()
    }

    /// How many activities there are.
    pub fn activity_count(&self) -> usize
        ensures count { result ≡ length self.now.activities }
        ensures problem { IsProblem self.now }
    {
        self.problem.activity_count()
    }

    /// The activity at an index.
    pub fn activity(&self, index: usize) -> PespActivity
        requires { index < length self.now.activities }
        ensures place { slice_get self.now.activities index ≡ Some result }
        ensures sound { IsActivity self.now.events result }
    {
        self.problem.activity(index)
    }

    /// The index of the first activity that breaks its bounds where each event has a time; none
    /// exactly where the times are a timetable of the problem.
    pub fn first_violated(&self, times: &[u32]) -> Option<usize>
        requires each { length times.now ≡ self.now.events }
        requires within { All (λ time. time < self.now.period) times.now }
        ensures value { result ≡ first_broken self.now times.now }
        ensures first { IsFirstBroken self.now times.now result }
        ensures feasible { Decides (is_none result) (IsTimetable self.now times.now) }
    {
        self.problem.first_violated(times)
    }
}

/// The problem of a period and of the texts of periodic events and activities, or the first fault
/// of the texts.
pub fn problem_of_texts(
    alloc: Global,
    period: u32,
    events: &[u8],
    activities: &[u8],
) -> Result<pesp::Pesp, StageFault>
    requires some { 1 ≤ period }
    requires few { period ≤ 720 }
    ensures read { UnlessFault (problem_faults events.now activities.now)
        (λ pesp. pesp ≡ problem_of period events.now activities.now) result }
    ensures period { IfOk result (λ pesp. pesp.period ≡ period) }
{
    let events = periodic_events(alloc, events)?;
    let rows = periodic_activities(alloc, &events, activities)?;
    let activities = activities_of_rows(alloc, &rows)?;
    Ok(pesp::Pesp::new(period, events.len(), activities))
}

// The activities of rows.
fn activities_of_rows(
    alloc: Global,
    rows: &[PeriodicActivity],
) -> Result<Vec<PespActivity>, NoMemory>
    requires { All (λ row. (1 ≤ row.from) × (1 ≤ row.to)) rows.now }
    ensures { IfOk result (λ activities. activities.items ≡ map activity_of rows.now) }
{
    let mut activities = Vec::new(alloc);
    for row in rows {
        activities.push(activity_of(row))?;
    }
    Ok(activities)
}

// The activity of a row of a file.
fn activity_of(row: &PeriodicActivity) -> PespActivity
    requires from { 1 ≤ row.now.from }
    requires to { 1 ≤ row.now.to }
    ensures { result ≡ activity_of row.now }
{
    PespActivity {
        from: row.from as usize - 1,
        to: row.to as usize - 1,
        lower: i64::from(row.lower),
        upper: i64::from(row.upper),
    }
}
