// The search for a plan that gains the most.
ghost use Rattle.std.specs.Prelude.{ℕ, ◌≡◌, ◌<◌, ◌≤◌, ◌+◌, ◌-◌, IfOk, length};
ghost use Rattle.link_plans.specs.Potentials.{AreValid};
ghost use Rattle.plan_search.specs.Growing.{IsTaken};
ghost use Rattle.link_plans.specs.Plans.{IsPlan, IsBest};
ghost use Rattle.link_plans.specs.Links.{links_in};
ghost use Rattle.link_plans.specs.Slacks.{Covers};

use crate::bid::bid;
use crate::parting::part;
use crate::tight_plan::TightPlan;
use link_plans::{Assignment, LinkTable, Potentials, Solved};
use plan_num::NoMemory;
use std::alloc::Global;

/// A plan that gains the most, and potentials that are valid for it. Which one of these plans it
/// is is left open. First each trip bids for a place. Then trip after trip is given a successor or
/// none along a least walk of the residual graph, as in the Hungarian method for assignments (H.
/// W. Kuhn, 1955). The trips come by an order, from its last one on; any list of numbers will do,
/// since each trip comes once more at the end, but trips that can have few places should come
/// first.
pub fn best_plan(alloc: Global, trips: &LinkTable, order: &[usize]) -> Result<Solved, NoMemory>
    ensures plan { IfOk result (λ solved. IsPlan (links_in trips.now) solved.plan) }
    ensures valid { IfOk result (λ solved.
        AreValid (links_in trips.now) solved.plan solved.potentials) }
    ensures best { IfOk result (λ solved. IsBest (links_in trips.now) solved.plan) }
{
    let count = trips.len();
    let mut assignment = Assignment::empty(alloc, count)?;
    let mut potentials = Potentials::zeros(alloc, count)?;
    bid_all(trips, order, &mut assignment, &mut potentials);
    let tight = TightPlan::new(alloc, trips, assignment, potentials)?;
    let (assignment, potentials) = take_all(order, tight)?.into_parts();
    let potentials = part(alloc, trips, &assignment, potentials)?;
    let plan = assignment.to_plan(alloc)?;
    Ok(Solved { plan, potentials })
}

// Takes all trips into a tight plan.
fn take_all<'a>(order: &[usize], tight: TightPlan<'a>) -> Result<TightPlan<'a>, NoMemory>
    ensures links { IfOk result (λ after. after.links ≡ tight.entry.links) }
    ensures covered { IfOk result (λ after. (i : ℕ) → i < length tight.entry.links
        → Covers (links_in tight.entry.links) after.potentials i) }
{
    let count = tight.links.len();
    let mut tight = tight;
    for step in 0..count + count {
        tight = tight.take_in(trip_of(order, count, step))?;
    }
    Ok(tight)
}

// How many bids may come one upon the other before the next trip bids.
const MOST_BIDS: usize = 16;

// Lets each trip bid for a place, and those that lose theirs as well. Which trips have places then
// is left open.
fn bid_all(
    trips: &LinkTable,
    order: &[usize],
    assignment: &mut Assignment,
    potentials: &mut Potentials,
)
    requires { IsTaken (links_in trips.now) potentials.old assignment.old }
    ensures { IsTaken (links_in trips.now) potentials.new assignment.new }
{
    let count = trips.len();
    for step in 0..count {
        bid_on(trips, trip_of(order, count, step), assignment, potentials);
    }
}

// Lets a trip bid for a place, then the one that loses it, and so on.
fn bid_on(trips: &LinkTable, trip: usize, assignment: &mut Assignment, potentials: &mut Potentials)
    requires taken { IsTaken (links_in trips.now) potentials.old assignment.old }
    requires within { trip < length trips.now }
    ensures { IsTaken (links_in trips.now) potentials.new assignment.new }
{
    let mut bidder = trip;
    for _turn in 0..MOST_BIDS {
        match bid(trips, bidder, assignment, potentials) {
            Some(other) => bidder = other,
            None => return,
        }
    }
}

// The trip of a step: first some trip for each, from the end of the order on, and then each of all
// trips, so that none is left out whatever the order is.
fn trip_of(order: &[usize], count: usize, step: usize) -> usize
    requires { step < count + count }
    ensures within { result < count }
    ensures again { count ≤ step → result ≡ step - count }
{
    if count <= step {
        return step - count;
    }
    match order.get(count - 1 - step) {
        Some(trip) => if *trip < count { *trip } else { step },
        None => step,
    }
}
