// Looks from a trip of a tree at the places around it.
ghost use Rattle.std.specs.Prelude.{◌≡◌, ◌+◌, ◌<◌, ◌≤◌, true, false, length, get_or, Some, None};
ghost use Rattle.std.specs.Prelude.{MatchOption};
ghost use Rattle.link_plans.specs.declared.limits.TheConstants.{MOST_POTENTIAL, MOST_SLACK};
ghost use Rattle.link_plans.specs.Links.{links_in};
ghost use Rattle.link_plans.specs.Plans.{is_next};
ghost use Rattle.link_plans.specs.Potentials.{AreOver};
ghost use Rattle.link_plans.specs.Slacks.{Covers};
ghost use Rattle.plan_search.specs.Claims.{claim_at};
ghost use Rattle.plan_search.specs.Growing.{looked, AreAsBefore, AreLooked, IsFreeAt};
ghost use Rattle.plan_search.specs.Nears.{AreNearLinks, ArePassed};

use crate::claim::Claims;
use crate::near::{Member, Near, Nears};
use link_plans::{Assignment, Link, LinkTable, Potentials, link_slack, of_trip};

/// Looks from a trip that comes to the tree, at each place without a claim, up to one without a
/// trip at which its slack is 0.
pub(crate) fn look(
    trips: &LinkTable,
    potentials: &Potentials,
    claims: &Claims,
    assignment: &Assignment,
    nears: &mut Nears,
    member: Member,
) -> Option<usize>
    requires each { AreOver (length trips.now) potentials.now }
    requires trip { member.by < length trips.now }
    requires covered { Covers (links_in trips.now) potentials.now member.by }
    requires places { length claims.now.at ≡ length trips.now + 1 }
    requires nears { length nears.old ≡ length trips.now + 1 }
    ensures each { length nears.new ≡ length nears.old }
    ensures looked { MatchOption result
        (AreLooked (links_in trips.now) potentials.now claims.now member.by member.from nears.old
        nears.new)
        (IsFreeAt (links_in trips.now) potentials.now assignment.now claims.now member.by) }
{
    let own = of_trip(potentials, member.by);
    let links = trips.row(member.by);
    let mut step = next_nearer(links, own, potentials, nears, 0);
    while step < links.len() {
        let link = links[step];
        let slack = link_slack(own, potentials, link);
        let near = Near {
            slack,
            by: member.by,
            from: member.from,
        };
        if bring(claims, assignment, nears, link.to, near) {
            return Some(link.to);
        }
        step = next_nearer(links, own, potentials, nears, step + 1);
    }
    let last = trips.len();
    let near = Near {
        slack: own,
        by: member.by,
        from: member.from,
    };
    if bring(claims, assignment, nears, last, near) {
        return Some(last);
    }
    None
}

// The first of some links, from a step on, at which a trip is nearer than the nearest one so far.
// Most links are passed over here.
fn next_nearer(
    links: &[Link],
    own: u64,
    potentials: &Potentials,
    nears: &Nears,
    first: usize,
) -> usize
    requires first { first ≤ length links.now }
    requires own { own ≤ MOST_POTENTIAL }
    requires links { AreNearLinks links.now own potentials.now.v (length nears.now) }
    ensures low { first ≤ result }
    ensures high { result ≤ length links.now }
    ensures passed { ArePassed links.now own potentials.now.v nears.now first result }
{
    for step in first..links.len() {
        let link = links[step];
        if nears.is_nearer(link.to, link_slack(own, potentials, link)) {
            return step;
        }
    }
    links.len()
}

// Brings a trip to a place without a claim where it is nearer than the nearest one so far: tells
// whether the place has no trip, and the slack is 0.
fn bring(
    claims: &Claims,
    assignment: &Assignment,
    nears: &mut Nears,
    place: usize,
    near: Near,
) -> bool
    requires place { place < length claims.now.at }
    requires nears { length nears.old ≡ length claims.now.at }
    requires small { near.slack ≤ MOST_SLACK }
    ensures others { AreAsBefore place nears.old nears.new }
    ensures here { get_or nears.new place None
        ≡ looked (claim_at claims.now place) (Some near.slack) near.by near.from
        (get_or nears.old place None) }
    ensures open_place { result ≡ true → claim_at claims.now place ≡ None }
    ensures exact { result ≡ true → near.slack ≡ 0 }
    ensures free { result ≡ true → is_next assignment.now place ≡ false }
{
    if !nears.is_nearer(place, near.slack) || claims.is_claimed(place) {
        return false;
    }
    nears.set(place, Some(near));
    near.slack == 0 && is_free_or_kept(assignment, nears, place)
}

// Whether a place has no trip; one with a trip is kept in mind.
fn is_free_or_kept(assignment: &Assignment, nears: &mut Nears, place: usize) -> bool
    ensures free { result ≡ true → is_next assignment.now place ≡ false }
    ensures same { nears.new ≡ nears.old }
{
    match assignment.trip_at(place) {
        Some(trip) => {
            nears.keep(place, trip);
            false
        }
        None => true,
    }
}
