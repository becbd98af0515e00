// Checking potentials.
ghost use Rattle.std.specs.Prelude.{◌≡◌, ◌↔◌, ◌<◌, ◌≤◌, ◌+◌, ◌*◌, ◌==◌, length, sum, filter};
ghost use Rattle.std.specs.Prelude.{slice_get, None, All};
ghost use Rattle.std.specs.List.{range_with_len};
ghost use Rattle.flow_potentials.specs.PotentialFaults.{is_short_pair, potential_faults};
ghost use Rattle.flow_potentials.specs.PotentialFaults.{TightAreCheapest};
ghost use Rattle.link_plans.specs.Potentials.{at, total, IsSmall, AreOver, AreValid};
ghost use Rattle.vehicle_model.specs.Plans.{plan_cost, IsCheapest};
ghost use Rattle.link_plans.specs.Plans.{IsPlan};
ghost use Rattle.vehicle_model.specs.Trips.{links_of};

use crate::potential_fault::PotentialFault;
use assignment::{Plan, Potentials};
use vehicle_model::{Trips, plan_cost};

/// Why potentials are not valid for a plan: the first pair of trips, by the one and then by the other,
/// of which the second may follow the first and whose link gains more than their two potentials, else
/// that all potentials together are not the gain of the plan. Where they are valid the plan is
/// cheapest.
pub fn check_potentials(
    trips: &Trips,
    plan: &Plan,
    potentials: &Potentials,
) -> Option<PotentialFault>
    requires plan { IsPlan (links_of trips.now) plan.now }
    requires each { AreOver (length trips.now.trips) potentials.now }
    ensures first { result
        ≡ slice_get (potential_faults (links_of trips.now) plan.now potentials.now) 0 }
    ensures valid { (result ≡ None) ↔ AreValid (links_of trips.now) plan.now potentials.now }
    ensures cheapest { result ≡ None → IsCheapest trips.now plan.now }
    ensures tight { result ≡ None → TightAreCheapest trips.now potentials.now }
{
    for i in 0..trips.len() {
        if let Some(j) = short_pair(trips, potentials, i) {
            return Some(PotentialFault::Pair { i, j });
        }
    }
    if is_exact(trips, plan, potentials) {
        None
    } else {
        Some(PotentialFault::Sum)
    }
}

// The first trip whose link from another one gains more than their potentials.
fn short_pair(trips: &Trips, potentials: &Potentials, i: usize) -> Option<usize>
    requires each { AreOver (length trips.now.trips) potentials.now }
    requires within { i < length trips.now.trips }
    ensures { result ≡ slice_get (filter (is_short_pair (links_of trips.now) potentials.now i)
        (range_with_len 0 (length trips.now.trips))) 0 }
{
    for j in 0..trips.len() {
        if is_short(trips, potentials, i, j) {
            return Some(j);
        }
    }
    None
}

// Whether the link from a trip to another gains more than their potentials.
fn is_short(trips: &Trips, potentials: &Potentials, i: usize, j: usize) -> bool
    requires each { AreOver (length trips.now.trips) potentials.now }
    requires from { i < length trips.now.trips }
    requires to { j < length trips.now.trips }
    ensures { result ≡ is_short_pair (links_of trips.now) potentials.now i j }
{
    let both = i128::from(potentials.both(i, j));
    match trips.link_gain(i, j) {
        Some(gain) => !(gain <= both),
        None => false,
    }
}

// Whether all potentials together are the gain of a plan, which is what it costs less than all trips
// alone.
fn is_exact(trips: &Trips, plan: &Plan, potentials: &Potentials) -> bool
    requires plan { IsPlan (links_of trips.now) plan.now }
    requires each { AreOver (length trips.now.trips) potentials.now }
    ensures { result ≡ (total potentials.now + plan_cost trips.now plan.now
        == trips.now.vehicle * length trips.now.trips) }
{
    trips.are_trips();
    potentials.total() + cost_of(trips, plan) == cost_alone(trips)
}

// What a plan costs.
fn cost_of(trips: &Trips, plan: &Plan) -> u128
    requires { IsPlan (links_of trips.now) plan.now }
    ensures cost { result ≡ plan_cost trips.now plan.now }
    ensures small { result ≤ 170141183460469231731687303715884105728 }
{
    plan_cost(trips, plan).unsigned_abs()
}

// What all trips cost alone.
fn cost_alone(trips: &Trips) -> u128
    ensures cost { result ≡ trips.now.vehicle * length trips.now.trips }
{
    trips.cost_of(trips.len(), 0).unsigned_abs()
}
