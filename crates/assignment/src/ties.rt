// The places at which trips are tight.
ghost use Rattle.std.specs.Prelude.{ℕ, ◌≡◌, ◌+◌, ◌<◌, ◌≤◌, nat_eq, true, false, length, Some, None};
ghost use Rattle.std.specs.Prelude.{IfOk, MatchBool};
ghost use Rattle.bit_rows.specs.Bits.{has};
ghost use Rattle.link_plans.specs.Potentials.{AreOver, at};
ghost use Rattle.link_plans.specs.Links.{links_in};
ghost use Rattle.assignment.specs.ClaimablePlaces.{AreTies, IsInRow, IsPut, IsRowOf};
ghost use Rattle.plan_search.specs.Searches.{IsTightBy};
ghost use Rattle.link_plans.specs.Slacks.{Covers};

use crate::claimable::set;
use bit_rows::BitRows;
use link_plans::{LinkTable, Potentials, link_slack, of_trip};
use plan_num::NoMemory;
use std::alloc::Global;

/// Links with potentials, and the places at which trips are tight under them.
#[derive(Drop)]
pub(crate) struct Ties<'a> {
    /// The links.
    pub links: &'a LinkTable,
    /// The potentials.
    pub potentials: &'a Potentials,
    /// For each trip the places, and in a last row those that need no trip.
    pub places: BitRows,
}

/// For each trip the places at which it is tight under potentials that cover its links, and in a
/// last row those that need no trip.
pub(crate) fn ties_of(
    alloc: Global,
    trips: &LinkTable,
    potentials: &Potentials,
) -> Result<BitRows, NoMemory>
    requires each { AreOver (length trips.now) potentials.now }
    requires covered { (i : ℕ) → Covers (links_in trips.now) potentials.now i }
    ensures { IfOk result (AreTies (links_in trips.now) potentials.now) }
{
    let mut ties = BitRows::none(alloc, trips.len() + 1, trips.len() + 1)?;
    for trip in 0..trips.len() {
        mark_trip(trips, potentials, trip, &mut ties);
    }
    mark_alone(trips, potentials, &mut ties);
    Ok(ties)
}

// Marks the places at which a trip is tight.
fn mark_trip(trips: &LinkTable, potentials: &Potentials, trip: usize, ties: &mut BitRows)
    requires each { AreOver (length trips.now) potentials.now }
    requires trip { trip < length trips.now }
    requires covered { Covers (links_in trips.now) potentials.now trip }
    requires rows { ties.old.rows ≡ length trips.now + 1 }
    requires columns { ties.old.columns ≡ length trips.now + 1 }
    requires none { (place : ℕ) → has ties.old trip place ≡ false }
    ensures others { IsInRow ties.old ties.new trip }
    ensures row { IsRowOf (λ place. IsTightBy (links_in trips.now) potentials.now place (Some trip))
        (length trips.now + 1) ties.new trip }
{
    let own = of_trip(potentials, trip);
    let links = trips.row(trip);
    for link in links {
        let slack = link_slack(own, potentials, *link);
        mark_if_exact(ties, trip, link.to, slack);
    }
    mark_if_exact(ties, trip, trips.len(), own);
}

// Marks the places that need no trip in the last row.
fn mark_alone(trips: &LinkTable, potentials: &Potentials, ties: &mut BitRows)
    requires each { AreOver (length trips.now) potentials.now }
    requires rows { ties.old.rows ≡ length trips.now + 1 }
    requires columns { ties.old.columns ≡ length trips.now + 1 }
    requires none { (place : ℕ) → has ties.old (length trips.now) place ≡ false }
    ensures others { IsInRow ties.old ties.new (length trips.now) }
    ensures row { IsRowOf (λ place. IsTightBy (links_in trips.now) potentials.now place None)
        (length trips.now + 1) ties.new (length trips.now) }
{
    for place in 0..trips.len() + 1 {
        mark_if_exact(ties, trips.len(), place, of_place(trips, potentials, place));
    }
}

// Sets a bit where a slack is 0.
fn mark_if_exact(ties: &mut BitRows, row: usize, place: usize, slack: u64)
    requires row { row < ties.old.rows }
    requires place { place < ties.old.columns }
    ensures { MatchBool (nat_eq slack 0) (IsPut ties.old ties.new row place true)
        (ties.new ≡ ties.old) }
{
    if slack == 0 {
        set(ties, row, place);
    }
}

// The potential of a place; 0 behind all trips.
fn of_place(trips: &LinkTable, potentials: &Potentials, place: usize) -> u64
    requires each { AreOver (length trips.now) potentials.now }
    ensures { result ≡ at potentials.now.v place }
{
    if place < trips.len() {
        potentials.v(place).unsigned_abs()
    } else {
        0
    }
}
