// Other potentials of a plan, under which fewer pairs are tight.
ghost use Rattle.std.specs.Prelude.{ℕ, pos, ◌≡◌, ◌+◌, ◌<◌, ◌≤◌, true, length, Some, None, IfOk};
ghost use Rattle.std.specs.Prelude.{MatchOption};
ghost use Rattle.link_plans.specs.declared.limits.TheConstants.{MOST_POTENTIAL};
ghost use Rattle.link_plans.specs.Potentials.{at, AreOver};
ghost use Rattle.plan_search.specs.Growing.{IsTaken};
ghost use Rattle.plan_search.specs.Moved.{between, AreMoved};
ghost use Rattle.plan_search.specs.Parting.{AreMet, IsMet};
ghost use Rattle.link_plans.specs.Slacks.{Covers};
ghost use Rattle.link_plans.specs.Plans.{next};
ghost use Rattle.link_plans.specs.Links.{links_in};

use crate::components::Components;
use crate::exchange::{components_of, node_at};
use link_plans::{Assignment, LinkTable, MOST_POTENTIAL, Potentials, of_trip, set_place, set_trip};
use plan_num::NoMemory;
use std::alloc::Global;

/// Potentials that meet a plan as some do, and under which mostly those pairs alone are tight that
/// stand in some plan of least cost. A pair of two components stands in none, since no trip can
/// come back over it. So each trip gains the number of its component, which its place loses: a
/// tight pair of two components then is so no more. Whether all other links are still covered is
/// looked at, since a number may be more than what they were short of being tight.
pub(crate) fn part(
    alloc: Global,
    trips: &LinkTable,
    assignment: &Assignment,
    potentials: Potentials,
) -> Result<Potentials, NoMemory>
    requires taken { IsTaken (links_in trips.now) potentials assignment.now }
    requires covered { (i : ℕ) → i < length trips.now
        → Covers (links_in trips.now) potentials i }
    ensures taken { IfOk result
        (λ parted. IsTaken (links_in trips.now) parted assignment.now) }
    ensures covered { IfOk result (λ parted. (i : ℕ) → i < length trips.now
        → Covers (links_in trips.now) parted i) }
{
    let found = components_of(alloc, trips, assignment, &potentials)?;
    let parted = moved(alloc, assignment, &potentials, &found)?;
    if are_met(trips, assignment, &parted) {
        Ok(parted)
    } else {
        Ok(potentials)
    }
}

// Potentials moved by the numbers of components, from that of none on.
fn moved(
    alloc: Global,
    assignment: &Assignment,
    potentials: &Potentials,
    found: &Components,
) -> Result<Potentials, NoMemory>
    requires { AreOver (length assignment.now) potentials.now }
    ensures over { IfOk result (AreOver (length assignment.now)) }
    ensures moved { IfOk result
        (λ moved. AreMoved found.now assignment.now potentials.now moved (length assignment.now)) }
{
    let count = assignment.len();
    let none = found.number(count);
    let mut moved = Potentials::zeros(alloc, count)?;
    for i in 0..count {
        let own = of_trip(potentials, i);
        set_trip(&mut moved, i, between(own, found.number(i), none));
        let place = potentials.natural_v(i);
        let number = found.number(node_at(assignment, i));
        set_place(&mut moved, i, between(place, none, number));
    }
    Ok(moved)
}

// A number and another one without a third, within the range of potentials.
fn between(number: u64, more: u64, less: u64) -> u64
    ensures value { result ≡ between number more less }
    ensures small { result ≤ MOST_POTENTIAL }
{
    number
        .saturating_add(more)
        .saturating_sub(less)
        .min(MOST_POTENTIAL)
}

/// Whether potentials meet a plan.
pub fn are_met(trips: &LinkTable, assignment: &Assignment, potentials: &Potentials) -> bool
    requires each { AreOver (length trips.now) potentials.now }
    requires places { length assignment.now ≡ length trips.now }
    ensures { result ≡ true → AreMet (links_in trips.now) potentials.now assignment.now }
{
    for i in 0..trips.len() {
        if !is_met(trips, assignment, potentials, i) {
            return false;
        }
    }
    true
}

// Whether potentials cover the links of a trip, and are tight at its own one and at its place.
fn is_met(trips: &LinkTable, assignment: &Assignment, potentials: &Potentials, i: usize) -> bool
    requires each { AreOver (length trips.now) potentials.now }
    requires places { length assignment.now ≡ length trips.now }
    requires within { i < length trips.now }
    ensures { result ≡ true → IsMet (links_in trips.now) potentials.now assignment.now i }
{
    covers(trips, potentials, i)
        && is_exact(trips, assignment, potentials, i)
        && (!assignment.is_free(i) || potentials.natural_v(i) == 0)
}

// Whether potentials cover the links of a trip.
fn covers(trips: &LinkTable, potentials: &Potentials, i: usize) -> bool
    requires each { AreOver (length trips.now) potentials.now }
    requires within { i < length trips.now }
    ensures { result ≡ true → Covers (links_in trips.now) potentials.now i }
{
    let own = of_trip(potentials, i);
    let links = trips.row(i);
    for link in links {
        if own + potentials.natural_v(link.to) < link.gain {
            return false;
        }
    }
    true
}

// Whether potentials are tight at the link of a trip, or that of a trip without one is 0.
fn is_exact(trips: &LinkTable, assignment: &Assignment, potentials: &Potentials, i: usize) -> bool
    requires each { AreOver (length trips.now) potentials.now }
    requires places { length assignment.now ≡ length trips.now }
    requires within { i < length trips.now }
    ensures { result ≡ true → MatchOption (next assignment.now i) (at potentials.now.u i ≡ 0)
        (λ j. (links_in trips.now).gain i j
        ≡ Some (pos (at potentials.now.u i + at potentials.now.v j))) }
{
    let own = of_trip(potentials, i);
    match assignment.next(i) {
        Some(j) => match trips.gain(i, j) {
            Some(gain) => gain == own + potentials.natural_v(j),
            None => false,
        },
        None => own == 0,
    }
}
