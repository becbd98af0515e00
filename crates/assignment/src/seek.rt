// The search for the first place that a trip has in a plan of least cost.
ghost use Rattle.std.specs.Prelude.{◌≡◌, ◌+◌, ◌-◌, ◌<◌, ◌≤◌, true, MatchBool, [], length};
ghost use Rattle.std.specs.Prelude.{replicate, None, IfOk, IfSome, OnOk};
ghost use Rattle.link_plans.specs.Plans.{next};
ghost use Rattle.link_plans.specs.Places.{place_of};
ghost use Rattle.assignment.specs.Choices.{AllClaimed, AreExpanded, IsExpanded, IsFirst, IsSought};
ghost use Rattle.assignment.specs.Choices.{LastExpanded, is_claimed};
ghost use Rattle.assignment.specs.ClaimablePlaces.{AreClaimable};
ghost use Rattle.assignment.specs.Seekers.{AreKept, HaveMore, IsSeeker};
ghost use Rattle.plan_search.specs.Claims.{claim_at};
ghost use Rattle.plan_search.specs.Searches.{IsLeft, Search};

use crate::claimable::{Claimed, claim, claimable_of};
use bit_rows::BitRows;
use link_plans::Assignment;
use plan_num::NoMemory;
use std::alloc::Global;

/// A trip that seeks its first place, the plan in which it has one, and the places at which each
/// trip is tight.
#[derive(Clone, Copy)]
pub(crate) struct Seeker<'a> {
    /// The trip.
    pub trip: usize,
    /// The plan.
    pub plan: &'a Assignment,
    /// For each trip the places, and in a last row those that need no trip.
    pub ties: &'a BitRows,
}

/// Claims the places before a trip's own one, and looks from each whether the trip can give up its
/// own one for it.
pub(crate) fn seek(
    alloc: Global,
    seeker: &Seeker,
    own: usize,
    claimed: &mut Claimed,
) -> Result<bool, NoMemory>
    ghost search: { Search }
    requires seeker { IsSeeker search seeker.now.plan.now seeker.now.trip seeker.now.ties.now }
    requires own { own ≡ place_of search.links.count (next seeker.now.plan.now search.trip) }
    requires none { claimed.old.claims ≡ record {
      at = replicate (search.links.count + 1) None;
      order = [];
    } }
    requires places { AreClaimable search.links.count search.low seeker.now.plan.now
        claimed.old.claims claimed.old.places }
    ensures sought { IfOk result (λ found. MatchBool found
        (IsSought search seeker.now.plan.now claimed.new.claims own)
        (IsFirst search seeker.now.plan.now own)) }
    ensures kept { OnOk result
        (AreKept search seeker.now.plan.now claimed.new.claims claimed.new.places) }
{
    let before = claimable_of(alloc, seeker.ties, seeker.trip, &claimed.places)?;
    for place in &before {
        if *place < own && claimed.places.has(0, *place) {
            claim(*place, Some(seeker.trip), None, claimed)?;
            grow(alloc, seeker, own, claimed)?;
            if claimed.claims.at(own).is_some() {
                return Ok(true);
            }
        }
    }
    Ok(false)
}

// Goes on from the place that was claimed last, until all claimed places are expanded or the own
// one of a trip is claimed.
fn grow(alloc: Global, seeker: &Seeker, own: usize, claimed: &mut Claimed) -> Result<(), NoMemory>
    ghost search: { Search }
    requires seeker { IsSeeker search seeker.now.plan.now seeker.now.trip seeker.now.ties.now }
    requires own { own ≡ place_of search.links.count (next seeker.now.plan.now search.trip) }
    requires kept { AreKept search seeker.now.plan.now claimed.old.claims claimed.old.places }
    requires some { 0 < length claimed.old.claims.order }
    requires done { AreExpanded search seeker.now.plan.now claimed.old.claims
        (length claimed.old.claims.order - 1) }
    ensures more { OnOk result (HaveMore search seeker.now.plan.now claimed.old.claims
        claimed.new.claims claimed.new.places) }
    ensures done { OnOk result (claim_at claimed.new.claims own ≡ None
        → AreExpanded search seeker.now.plan.now claimed.new.claims
        (length claimed.new.claims.order)) }
{
    let mut step = claimed.claims.count() - 1;
    while step < claimed.claims.count() && claimed.claims.at(own).is_none() {
        expand(alloc, seeker, claimed.claims.nth(step), claimed)?;
        step += 1;
    }
    Ok(())
}

// Claims all places at which those are tight who have a place.
fn expand(
    alloc: Global,
    seeker: &Seeker,
    place: usize,
    claimed: &mut Claimed,
) -> Result<(), NoMemory>
    ghost search: { Search }
    requires seeker { IsSeeker search seeker.now.plan.now seeker.now.trip seeker.now.ties.now }
    requires kept { AreKept search seeker.now.plan.now claimed.old.claims claimed.old.places }
    requires place { is_claimed claimed.old.claims place ≡ true }
    requires apart { place_of search.links.count (next seeker.now.plan.now search.trip) ≡ place → ⊥ }
    ensures more { OnOk result (HaveMore search seeker.now.plan.now claimed.old.claims
        claimed.new.claims claimed.new.places) }
    ensures expanded { OnOk result
        (IsExpanded search seeker.now.plan.now claimed.new.claims place) }
{
    match seeker.plan.trip_at(place) {
        Some(by) => claim_all(alloc, seeker, Some(by), place, claimed),
        None => {
            claim_all(alloc, seeker, None, place, claimed)?;
            expand_last(alloc, seeker, place, claimed)
        }
    }
}

// Where a place is the last one, claims the places at which trips without a next one are tight.
fn expand_last(
    alloc: Global,
    seeker: &Seeker,
    place: usize,
    claimed: &mut Claimed,
) -> Result<(), NoMemory>
    ghost search: { Search }
    requires seeker { IsSeeker search seeker.now.plan.now seeker.now.trip seeker.now.ties.now }
    requires kept { AreKept search seeker.now.plan.now claimed.old.claims claimed.old.places }
    requires place { is_claimed claimed.old.claims place ≡ true }
    requires apart { place_of search.links.count (next seeker.now.plan.now search.trip) ≡ place → ⊥ }
    ensures more { OnOk result (HaveMore search seeker.now.plan.now claimed.old.claims
        claimed.new.claims claimed.new.places) }
    ensures expanded { OnOk result (place ≡ search.links.count
        → LastExpanded search seeker.now.plan.now claimed.new.claims search.links.count) }
{
    if place < seeker.plan.len() {
        return Ok(());
    }
    for by in seeker.trip..seeker.plan.len() {
        if seeker.plan.next(by).is_none() {
            claim_all(alloc, seeker, Some(by), place, claimed)?;
        }
    }
    Ok(())
}

// Claims all places for a trip or none at which it is tight and that can be claimed.
fn claim_all(
    alloc: Global,
    seeker: &Seeker,
    by: Option<usize>,
    from: usize,
    claimed: &mut Claimed,
) -> Result<(), NoMemory>
    ghost search: { Search }
    requires seeker { IsSeeker search seeker.now.plan.now seeker.now.trip seeker.now.ties.now }
    requires kept { AreKept search seeker.now.plan.now claimed.old.claims claimed.old.places }
    requires movable { IfSome by (λ i. (search.low ≤ i) × (i < search.links.count)) }
    requires left { IsLeft search seeker.now.plan.now from by }
    requires from { is_claimed claimed.old.claims from ≡ true }
    ensures more { OnOk result (HaveMore search seeker.now.plan.now claimed.old.claims
        claimed.new.claims claimed.new.places) }
    ensures all { OnOk result (AllClaimed search seeker.now.plan.now claimed.new.claims by) }
{
    let found = claimable_of(
        alloc,
        seeker.ties,
        by.unwrap_or(seeker.plan.len()),
        &claimed.places,
    )?;
    for place in &found {
        claim(*place, by, Some(from), claimed)?;
    }
    Ok(())
}
