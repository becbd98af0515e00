// Cycles of activities.
ghost use Rattle.std.specs.Prelude.{◌≡◌, ◌<◌, ℕ, [], true, if◌then◌else◌, IfOk, IfSome, length};
ghost use Rattle.pesp_judge.specs.Cycles.{IsCycle, IsStep, Walks};

use crate::certificate::{BoundRule, CertificateRow, RowWord, Stop};
use crate::step::Step;
use crate::weighted::{WeightedPesp, span};
use pesp::PespActivity;
use std::alloc::Global;

/// A cycle by its steps.
#[derive(Debug, Drop)]
pub(crate) struct Cycle {
    pub(crate) steps: Vec<Step>,
}

/// The cycle of some rows, each of which has a step.
pub(crate) fn cycle_of(
    alloc: Global,
    weighted: &WeightedPesp,
    rows: &[CertificateRow],
) -> Result<Cycle, Stop>
    ensures { IfOk result (λ cycle. IsCycle weighted.now cycle.steps.items) }
{
    let mut steps = Vec::new(alloc);
    take_steps(weighted, rows, &mut steps)?;
    Ok(Cycle { steps })
}

// Takes the steps of rows, where they lead back to the first event.
fn take_steps(
    weighted: &WeightedPesp,
    rows: &[CertificateRow],
    steps: &mut Vec<Step>,
) -> Result<(), Stop>
    requires { steps.old.items ≡ [] }
    ensures { IfOk result (λ _. IsCycle weighted.now steps.new.items) }
{
    for row in rows {
        match step_of(weighted, row) {
            Ok(step) => steps.push(step)?,
            Err(rule) => return Err(Stop::at(row, rule)),
        }
    }
    if is_closed(steps) {
        Ok(())
    } else {
        Err(Stop::after(rows, BoundRule::NotClosed))
    }
}

// The step of a row.
fn step_of(weighted: &WeightedPesp, row: &CertificateRow) -> Result<Step, BoundRule>
    ensures { IfOk result (IsStep weighted.now) }
{
    let count = weighted.activities().len();
    let place = place_of(row.first, count).ok_or(BoundRule::NoActivity)?;
    let forward = is_along(row.second)?;
    Ok(step_at(weighted, place, forward, row.word == RowWord::Flip))
}

// The step along the activity at a place, or against it.
fn step_at(weighted: &WeightedPesp, place: usize, forward: bool, flipped: bool) -> Step
    requires { place < length weighted.now.activities }
    ensures { IsStep weighted.now result }
{
    let it = &weighted.activities()[place].activity;
    let (start, end) = ends(it, forward);
    Step {
        place,
        forward,
        flipped,
        start,
        end,
        lower: it.lower,
        span: span(it, weighted.period()),
    }
}

// The events from which and to which a step leads.
fn ends(activity: &PespActivity, forward: bool) -> (usize, usize)
    ensures { result ≡ (if forward then (activity.now.from, activity.now.to) else
        (activity.now.to, activity.now.from)) }
{
    if forward {
        (activity.from, activity.to)
    } else {
        (activity.to, activity.from)
    }
}

// The place that a number from 1 names among so many.
pub(crate) fn place_of(number: i64, count: usize) -> Option<usize>
    ensures { IfSome result (λ place. place < count) }
{
    let place = usize::try_from(number).ok()?.checked_sub(1)?;
    if place < count { Some(place) } else { None }
}

// Whether a step goes along its activity.
fn is_along(sign: i64) -> Result<bool, BoundRule> {
    match sign {
        1 => Ok(true),
        -1 => Ok(false),
        _ => Err(BoundRule::NoSign),
    }
}

// Whether there is a step, and steps lead back to where the first one starts.
fn is_closed(steps: &[Step]) -> bool
    ensures { result ≡ true → (begin : ℕ) × Walks begin steps.now begin }
{
    let Some(first) = steps.first() else {
        return false;
    };
    let mut at = first.start;
    for step in steps {
        if step.start != at {
            return false;
        }
        at = step.end;
    }
    at == first.start
}
