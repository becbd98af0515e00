// Which trip comes after which, looked up from both.
ghost use Rattle.std.specs.Prelude.{ℕ, not, ◌≡◌, ◌<◌, ◌≤◌, false, length, slice_set, replicate};
ghost use Rattle.std.specs.Prelude.{None, Some, IfOk, IfSome, MatchOption};
ghost use Rattle.link_plans.specs.Plans.{next, is_next, AreSuccessors};
ghost use Rattle.link_plans.specs.Places.{successor_at, place_of, forgotten};

use crate::plan::Plan;
use plan_num::NoMemory;
use std::alloc::Global;
use std::marker::Model;

/// For each trip the one that comes next, or none, and the one before it. Contracts see it as the list
/// of the next ones. No trip comes after two. A place is the number of a trip; the one behind them all
/// stands for no trip.
pub struct Assignment {
    next: Vec<Option<usize>>,
    before: Vec<Option<usize>>,
}

impl Drop for Assignment {
    fn drop(self) {
        let Assignment { next: _, before: _ } = self;
    }
}

impl Model for Assignment {
    ghost use Rattle.std.specs.Prelude.{List, ℕ, Option};
    ghost use Rattle.link_plans.specs.Places.{AreLinked};

    ghost Value = { List (Option ℕ) };

    ghost view = { λ assignment. assignment.next.items };

    ghost invariant = { λ assignment. AreLinked assignment.next.items assignment.before.items };
}

impl Assignment {
    /// So many trips, of which none comes after another.
    #[tactic(auto, using(crate::proofs::Moves::none_before))]
    pub fn empty(alloc: Global, trips: usize) -> Result<Assignment, NoMemory>
        ensures { IfOk result (λ made. made ≡ replicate trips None) }
    {
        Ok(Assignment {
            next: nobody(alloc, trips)?,
            before: nobody(alloc, trips)?,
        })
    }

    /// The same as a plan.
    #[tactic(auto, using(crate::proofs::Copies::none_copied, crate::proofs::Copies::copied_more, crate::proofs::Copies::copied_fits, crate::proofs::Copies::copied_waits, crate::proofs::Copies::copied_within, crate::proofs::Copies::copied_all))]
    pub fn of_plan(alloc: Global, plan: &Plan) -> Result<Assignment, NoMemory>
        ensures { IfOk result (λ made. made ≡ plan.now) }
    {
        let mut made = Assignment::empty(alloc, plan.len())?;
        for trip in 0..plan.len() {
            made.begin(trip, plan.next(trip));
        }
        Ok(made)
    }

    /// How many trips there are.
    #[tactic(auto, using(crate::proofs::Moves::linked_are))]
    pub fn len(&self) -> usize
        ensures count { result ≡ length self.now }
        ensures successors { AreSuccessors self.now }
    {
        self.next.len()
    }

    /// The trip that comes after one.
    pub fn next(&self, trip: usize) -> Option<usize>
        requires { trip < length self.now }
        ensures value { result ≡ next self.now trip }
        ensures within { IfSome result (λ place. place < length self.now) }
    {
        at(&self.next, trip)
    }

    /// The trip that comes before one.
    #[tactic(auto, using(crate::proofs::Moves::before_is, crate::proofs::Moves::before_inside))]
    pub fn before(&self, trip: usize) -> Option<usize>
        requires { trip < length self.now }
        ensures value { MatchOption result (is_next self.now trip ≡ false)
            (λ other. next self.now other ≡ Some trip) }
        ensures within { IfSome result (λ other. other < length self.now) }
    {
        at(&self.before, trip)
    }

    /// The trip at a place.
    pub fn trip_at(&self, place: usize) -> Option<usize>
        ensures value { MatchOption result (is_next self.now place ≡ false)
            (λ other. next self.now other ≡ Some place) }
        ensures within { IfSome result (λ other. other < length self.now) }
    {
        if place < self.len() {
            self.before(place)
        } else {
            None
        }
    }

    /// Whether a place has no trip.
    pub fn is_free(&self, place: usize) -> bool
        ensures { result ≡ not (is_next self.now place) }
    {
        self.trip_at(place).is_none()
    }

    /// The place of what comes after a trip.
    pub fn place(&self, trip: usize) -> usize
        requires { trip < length self.now }
        ensures value { result ≡ place_of (length self.now) (next self.now trip) }
        ensures within { result ≤ length self.now }
    {
        match self.next(trip) {
            Some(place) => place,
            None => self.next.len(),
        }
    }

    /// Gives a trip a place that no trip has, in the place of its own.
    #[tactic(auto, using(crate::proofs::Moves::given_past))]
    pub fn give(&mut self, trip: usize, place: usize)
        requires trip { trip < length self.old }
        requires place { place ≤ length self.old }
        requires free { is_next self.old place ≡ false }
        ensures { self.new ≡ slice_set self.old trip (successor_at (length self.old) place) }
    {
        let count = self.len();
        self.take_away(trip);
        if place < count {
            self.put(trip, place);
        }
    }

    // Gives a trip without a place one that no trip has, or none.
    #[tactic(auto, using(crate::proofs::Copies::set_none))]
    fn begin(&mut self, trip: usize, place: Option<usize>)
        requires trip { trip < length self.old }
        requires waits { next self.old trip ≡ None }
        requires free { IfSome place (λ j. (j < length self.old) × (is_next self.old j ≡ false)) }
        ensures { self.new ≡ slice_set self.old trip place }
    {
        if let Some(place) = place {
            self.put(trip, place);
        }
    }

    /// Takes the place of a trip away.
    #[tactic(auto, using(crate::proofs::Moves::own_inside, crate::proofs::Moves::taken_away))]
    pub fn take_away(&mut self, trip: usize)
        requires { trip < length self.old }
        ensures { self.new ≡ slice_set self.old trip None }
    {
        let own = at(&self.next, trip);
        forget(&mut self.before, own);
        self.next[trip] = None;
    }

    // Gives a trip without a place one that no trip has.
    #[tactic(auto, using(crate::proofs::Moves::given))]
    fn put(&mut self, trip: usize, place: usize)
        requires trip { trip < length self.old }
        requires place { place < length self.old }
        requires waits { next self.old trip ≡ None }
        requires free { is_next self.old place ≡ false }
        ensures { self.new ≡ slice_set self.old trip (Some place) }
    {
        self.next[trip] = Some(place);
        self.before[place] = Some(trip);
    }

    /// The same as a plan.
    #[tactic(auto, using(crate::proofs::Copies::none_copied, crate::proofs::Copies::copied_more, crate::proofs::Copies::copied_fits, crate::proofs::Copies::copied_waits, crate::proofs::Copies::copied_within, crate::proofs::Copies::copied_all))]
    pub fn to_plan(&self, alloc: Global) -> Result<Plan, NoMemory>
        ensures { IfOk result (λ plan. plan ≡ self.now) }
    {
        let mut plan = Plan::empty(alloc, self.len())?;
        for trip in 0..self.len() {
            link(&mut plan, trip, self.next(trip));
        }
        Ok(plan)
    }
}

// Gives a trip of a plan a successor, or none.
#[tactic(auto, using(crate::proofs::Copies::set_none))]
fn link(plan: &mut Plan, trip: usize, to: Option<usize>)
    requires trip { trip < length plan.old }
    requires waits { next plan.old trip ≡ None }
    requires free { IfSome to (λ j. (j < length plan.old) × (is_next plan.old j ≡ false)) }
    ensures { plan.new ≡ slice_set plan.old trip to }
{
    if let Some(to) = to {
        plan.link(trip, to);
    }
}

// What a list has for a trip.
fn at(list: &[Option<usize>], trip: usize) -> Option<usize>
    requires { trip < length list.now }
    ensures { result ≡ next list.now trip }
{
    list[trip]
}

// Takes away what comes before a trip.
fn forget(before: &mut Vec<Option<usize>>, trip: Option<usize>)
    requires { IfSome trip (λ own. own < length before.old.items) }
    ensures { before.new.items ≡ forgotten before.old.items trip }
{
    if let Some(own) = trip {
        before[own] = None;
    }
}

// So many times none.
fn nobody(alloc: Global, count: usize) -> Result<Vec<Option<usize>>, NoMemory>
    ensures { IfOk result (λ made. made.items ≡ replicate count None) }
{
    let mut made = Vec::new(alloc);
    for _trip in 0..count {
        made.push(None)?;
    }
    Ok(made)
}
