// A plan with the trip before each trip.
ghost use Rattle.std.specs.Prelude.{◌≡◌, ◌<◌, length, replicate, None, IfOk, IfSome};
ghost use Rattle.canonical_potentials.specs.LinkedPlans.{linked};
ghost use Rattle.link_plans.specs.Plans.{next, is_next, AreSuccessors};

use link_plans::Plan;
use plan_num::NoMemory;
use std::alloc::Global;
use std::marker::Model;

/// A plan, and for each trip the one before it. Contracts see it as the plan.
pub(crate) struct LinkedPlan<'a> {
    plan: &'a Plan,
    before: Vec<Option<usize>>,
}

impl Drop for LinkedPlan<'_> {
    fn drop(self) {
        let LinkedPlan { plan: _, before: _ } = self;
    }
}

impl<'a> Model for LinkedPlan<'a> {
    ghost use Rattle.std.specs.Prelude.{List, ℕ, Option};
    ghost use Rattle.canonical_potentials.specs.LinkedPlans.{AreBefore};

    ghost Value = { List (Option ℕ) };

    ghost view = { λ linked. linked.plan.now };

    ghost invariant = { λ linked. AreBefore linked.plan.now linked.before.items };
}

impl<'a> LinkedPlan<'a> {
    /// A plan, of which each trip is told the one before it.
    pub(crate) fn new(alloc: Global, plan: &'a Plan) -> Result<LinkedPlan<'a>, NoMemory>
        ensures { IfOk result (λ linked. linked ≡ plan.now) }
    {
        let mut before = nobody(alloc, plan.len())?;
        for trip in 0..plan.len() {
            put(&mut before, plan.next(trip), trip);
        }
        Ok(LinkedPlan { plan, before })
    }

    /// How many trips there are.
    pub(crate) fn len(&self) -> usize
        ensures count { result ≡ length self.now }
        ensures successors { AreSuccessors self.now }
    {
        self.plan.len()
    }

    /// The trip that comes next after one, if there is one.
    pub(crate) fn next(&self, i: usize) -> Option<usize>
        requires { i < length self.now }
        ensures { result ≡ next self.now i }
    {
        self.plan.next(i)
    }

    /// The trip before one, if there is one. It only says where a walk goes on first, so it promises
    /// nothing.
    pub(crate) fn before(&self, j: usize) -> Option<usize> {
        self.before.get(j).copied().flatten()
    }

    /// Whether a trip follows another one.
    pub(crate) fn is_next(&self, j: usize) -> bool
        requires { j < length self.now }
        ensures { result ≡ is_next self.now j }
    {
        self.before[j].is_some()
    }
}

// A trip comes before another one, if there is one.
fn put(before: &mut Vec<Option<usize>>, next: Option<usize>, trip: usize)
    requires { IfSome next (λ j. j < length before.old.items) }
    ensures { before.new.items ≡ linked before.old.items next trip }
{
    if let Some(next) = next {
        before[next] = Some(trip);
    }
}

// So many times none.
fn nobody(alloc: Global, count: usize) -> Result<Vec<Option<usize>>, NoMemory>
    ensures { IfOk result (λ made. made.items ≡ replicate count None) }
{
    let mut made = Vec::new(alloc);
    for _trip in 0..count {
        made.push(None)?;
    }
    Ok(made)
}
