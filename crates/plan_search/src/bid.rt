// Bids of trips for the places that are worth most to them.
ghost use Rattle.std.specs.Prelude.{ℕ, ◌≡◌, ◌+◌, ◌<◌, ◌≤◌, true, false, length, None, IfSome};
ghost use Rattle.link_plans.specs.Potentials.{at, AreOver};
ghost use Rattle.link_plans.specs.Plans.{next, is_next};
ghost use Rattle.link_plans.specs.Links.{links_in};
ghost use Rattle.plan_search.specs.Bids.{next_offer, is_freer, AreOthersBelow, IsBid, IsTakenBut};
ghost use Rattle.plan_search.specs.Growing.{IsTaken};
ghost use Rattle.link_plans.specs.LinkRows.{IsLinkOf};

use link_plans::{Assignment, Link, LinkTable, Potentials, link_rest, set_place, set_trip};

/// What a trip offers: its best link, what this gains beyond the potential of the place, and what the
/// best of its other links does.
#[derive(Clone, Copy)]
pub(crate) struct Offer {
    best: Option<Link>,
    most: u64,
    rest: u64,
}

/// Gives a trip without a next one the place of its best link, also where another trip has it, and
/// raises the potential of the place so far that the next best one is as good, as in the augmenting row
/// reduction of R. Jonker and A. Volgenant (1987). Tells who lost the place, where it became dearer.
pub(crate) fn bid(
    trips: &LinkTable,
    trip: usize,
    assignment: &mut Assignment,
    potentials: &mut Potentials,
) -> Option<usize>
    requires taken { IsTaken (links_in trips.now) potentials.old assignment.old }
    requires within { trip < length trips.now }
    ensures taken { IsTaken (links_in trips.now) potentials.new assignment.new }
    ensures within { IfSome result (λ other. other < length trips.now) }
{
    if assignment.next(trip).is_some() {
        return None;
    }
    let offer = best_offer(trips, potentials, assignment, trip);
    match offer.best {
        Some(link) => {
            let other = release(trips, link.to, assignment, potentials);
            engage(trips, trip, link, offer.rest, assignment, potentials);
            if offer.rest < offer.most { other } else { None }
        }
        None => None,
    }
}

// The best link of a trip, and how much better it is than the others.
fn best_offer(
    trips: &LinkTable,
    potentials: &Potentials,
    assignment: &Assignment,
    trip: usize,
) -> Offer
    requires each { AreOver (length trips.now) potentials.now }
    requires trip { trip < length trips.now }
    ensures { IsBid (links_in trips.now) potentials.now trip result }
{
    let links = trips.row(trip);
    let mut offer = Offer {
        best: None,
        most: 0,
        rest: 0,
    };
    for link in links {
        let rest = link_rest(potentials, *link);
        let wins = wins(assignment, offer, rest, link.to);
        offer = next_offer(offer, *link, rest, wins);
    }
    offer
}

// Whether a link is better than the best one so far: of two that are as good it is one to a place
// without a trip.
fn wins(assignment: &Assignment, offer: Offer, rest: u64, place: usize) -> bool
    ensures yes { result ≡ true → (0 < rest) × (offer.most ≤ rest) }
    ensures no { result ≡ false → rest ≤ offer.most }
{
    if rest == offer.most {
        0 < rest && is_freer(assignment, offer.best, place)
    } else {
        offer.most < rest
    }
}

// Whether a place has no trip, and that of a link has one.
fn is_freer(assignment: &Assignment, best: Option<Link>, place: usize) -> bool
    ensures { result ≡ is_freer assignment.now best place }
{
    match best {
        Some(link) => assignment.is_free(place) && !assignment.is_free(link.to),
        None => false,
    }
}

// An offer after one link more.
fn next_offer(offer: Offer, link: Link, rest: u64, wins: bool) -> Offer
    ensures { result ≡ next_offer offer link rest wins }
{
    if wins {
        Offer {
            best: Some(link),
            most: rest,
            rest: offer.most,
        }
    } else {
        Offer {
            best: offer.best,
            most: offer.most,
            rest: offer.rest.max(rest),
        }
    }
}

// Takes a place away from the trip that has it.
fn release(
    trips: &LinkTable,
    place: usize,
    assignment: &mut Assignment,
    potentials: &mut Potentials,
) -> Option<usize>
    requires taken { IsTaken (links_in trips.now) potentials.old assignment.old }
    requires place { place < length trips.now }
    ensures but { IsTakenBut (links_in trips.now) potentials.new place assignment.new }
    ensures free { is_next assignment.new place ≡ false }
    ensures v { potentials.new.v ≡ potentials.old.v }
    ensures waits { (i : ℕ) → next assignment.old i ≡ None → next assignment.new i ≡ None }
    ensures within { IfSome result (λ other. other < length trips.now) }
{
    match assignment.trip_at(place) {
        Some(other) => {
            assignment.take_away(other);
            set_trip(potentials, other, 0);
            Some(other)
        }
        None => None,
    }
}

// Gives a place without a trip to one without a place, and shares what the link gains between them.
fn engage(
    trips: &LinkTable,
    trip: usize,
    link: Link,
    rest: u64,
    assignment: &mut Assignment,
    potentials: &mut Potentials,
)
    requires but { IsTakenBut (links_in trips.now) potentials.old link.to assignment.old }
    requires within { trip < length trips.now }
    requires waits { next assignment.old trip ≡ None }
    requires free { is_next assignment.old link.to ≡ false }
    requires link { IsLinkOf (links_in trips.now) trip (length trips.now) link }
    requires low { rest + at potentials.old.v link.to ≤ link.gain }
    requires others { AreOthersBelow (links_in trips.now) potentials.old trip link.to rest }
    ensures { IsTaken (links_in trips.now) potentials.new assignment.new }
{
    set_trip(potentials, trip, rest);
    set_place(potentials, link.to, link.gain - rest);
    assignment.give(trip, link.to);
}
