// Among the plans that gain the most, the one whose list of successors comes first.
ghost use Rattle.std.specs.Prelude.{◌≡◌, ◌+◌, true, [], replicate, slice_set, None, IfOk, OnOk};
ghost use Rattle.link_plans.specs.Potentials.{AreValid};
ghost use Rattle.link_plans.specs.Plans.{next, IsPlan, IsFirstBest};
ghost use Rattle.link_plans.specs.Links.{links_in};
ghost use Rattle.assignment.specs.Choices.{AreRight, IsSearch, IsSettled, is_claimed};
ghost use Rattle.assignment.specs.ClaimablePlaces.{AreClaimable, AreTies};
ghost use Rattle.assignment.specs.Seekers.{AreKept, IsSeeker};
ghost use Rattle.link_plans.specs.Places.{place_of};
ghost use Rattle.plan_search.specs.Searches.{IsHandedOn, Search};

use crate::claimable::{Claimed, all_places, put_back, take_out};
use crate::seek::{Seeker, seek};
use crate::ties::{Ties, ties_of};
use bit_rows::BitRows;
use link_plans::{Assignment, LinkTable, Plan, Potentials, Solved};
use plan_num::NoMemory;
use plan_search::{Claims, hand_on};
use std::alloc::Global;

/// Among the plans that gain the most, the one whose list of successors comes first: by the
/// numbers of trips, and none after every trip. It is made of any such plan with potentials that
/// are valid for it: these leave only tight links, and each trip in turn seeks the first place
/// that it can have.
pub fn first_best_plan(alloc: Global, trips: &LinkTable, solved: &Solved) -> Result<Plan, NoMemory>
    requires plan { IsPlan (links_in trips.now) solved.now.plan }
    requires valid { AreValid (links_in trips.now) solved.now.plan solved.now.potentials }
    ensures { IfOk result (IsFirstBest (links_in trips.now)) }
{
    let ties = Ties {
        links: trips,
        potentials: &solved.potentials,
        places: ties_of(alloc, trips, &solved.potentials)?,
    };
    let mut assignment = Assignment::of_plan(alloc, &solved.plan)?;
    let mut claimed = Claimed {
        claims: Claims::new(alloc, trips.len() + 1)?,
        places: all_places(alloc, trips.len() + 1)?,
    };
    for trip in 0..trips.len() {
        place_for_good(alloc, &ties, trip, &mut claimed, &mut assignment)?;
    }
    assignment.to_plan(alloc)
}

// Gives a trip the first place that it has in a plan of least cost that keeps what is decided, and
// takes all claims back.
fn place_for_good(
    alloc: Global,
    ties: &Ties,
    trip: usize,
    claimed: &mut Claimed,
    assignment: &mut Assignment,
) -> Result<(), NoMemory>
    ghost search: { Search }
    requires search { IsSearch search assignment.old }
    requires trip { search.trip ≡ trip }
    requires ties { AreTies search.links search.potentials ties.now.places }
    requires none { claimed.old.claims ≡ record {
      at = replicate (search.links.count + 1) None;
      order = [];
    } }
    requires places { AreClaimable search.links.count search.low assignment.old
        claimed.old.claims claimed.old.places }
    ensures settled { OnOk result (IsSettled search assignment.old assignment.new) }
    ensures none { OnOk result (claimed.new.claims ≡ claimed.old.claims) }
    ensures places { OnOk result (AreClaimable search.links.count (search.trip + 1)
        assignment.new claimed.new.claims claimed.new.places) }
{
    decide(alloc, &ties.places, trip, claimed, assignment)?;
    put_back(&claimed.claims, &mut claimed.places);
    claimed.claims.clear();
    take_out(&mut claimed.places, assignment.next(trip));
    Ok(())
}

// Gives a trip the first place that it has in a plan of least cost that keeps what is decided.
fn decide(
    alloc: Global,
    ties: &BitRows,
    trip: usize,
    claimed: &mut Claimed,
    assignment: &mut Assignment,
) -> Result<(), NoMemory>
    ghost search: { Search }
    requires seeker { IsSeeker search assignment.old trip ties.now }
    requires none { claimed.old.claims ≡ record {
      at = replicate (search.links.count + 1) None;
      order = [];
    } }
    requires places { AreClaimable search.links.count search.low assignment.old
        claimed.old.claims claimed.old.places }
    ensures settled { OnOk result (IsSettled search assignment.old assignment.new) }
    ensures kept { OnOk result
        (AreKept search assignment.old claimed.new.claims claimed.new.places) }
{
    let own = assignment.place(trip);
    let seeker = Seeker {
        trip,
        plan: &*assignment,
        ties,
    };
    if seek(alloc, &seeker, own, claimed)? {
        move_to(trip, own, &claimed.claims, assignment);
    }
    Ok(())
}

// Takes the place of a trip away, and hands places on until it has another one.
fn move_to(trip: usize, own: usize, claims: &Claims, assignment: &mut Assignment)
    ghost search: { Search }
    requires search { IsSearch search assignment.old }
    requires trip { search.trip ≡ trip }
    requires own { own ≡ place_of search.links.count (next assignment.old search.trip) }
    requires right { AreRight search assignment.old claims.now }
    requires claimed { is_claimed claims.now own ≡ true }
    ensures { IsHandedOn search claims.now (slice_set assignment.old trip None) assignment.new }
{
    let last = assignment.len();
    assignment.give(trip, last);
    hand_on(claims, assignment, own);
}
