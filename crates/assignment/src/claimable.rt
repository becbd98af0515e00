// The places that a search among the plans of least cost can claim, as bits.
ghost use Rattle.std.specs.Prelude.{ℕ, ◌≡◌, ◌+◌, ◌<◌, ◌≤◌, ◌++◌, ◌∷◌, [], List, Bool, true, false};
ghost use Rattle.std.specs.Prelude.{length, slice_set, Option, Some, None, IfOk, IfSome, OnOk};
ghost use Rattle.bit_rows.specs.Bits.{has};
ghost use Rattle.assignment.specs.Choices.{ArePlaces};
ghost use Rattle.assignment.specs.ClaimablePlaces.{AreClaimable, ArePutBack, IsPut, IsTakenOut};
ghost use Rattle.plan_search.specs.Claims.{claim_at};

use bit_rows::BitRows;
use plan_num::NoMemory;
use plan_search::Claims;
use std::alloc::Global;

/// The claims of a search, and in one row the places that it can still claim.
#[derive(Drop)]
pub(crate) struct Claimed {
    /// The claims.
    pub claims: Claims,
    /// The places.
    pub places: BitRows,
}

/// So many places that can all be claimed, in one row.
pub(crate) fn all_places(alloc: Global, count: usize) -> Result<BitRows, NoMemory>
    requires { count ≤ 1000000 }
    ensures rows { IfOk result (λ places. places.rows ≡ 1) }
    ensures columns { IfOk result (λ places. places.columns ≡ count) }
    ensures all { IfOk result (λ places.
        (place : ℕ) → place < count → has places 0 place ≡ true) }
{
    let mut places = BitRows::none(alloc, 1, count)?;
    for place in 0..count {
        set(&mut places, 0, place);
    }
    Ok(places)
}

/// Sets a bit.
#[tactic(auto, using(crate::proofs::BitsOfPlaces::put_is))]
pub(crate) fn set(bits: &mut BitRows, row: usize, place: usize)
    requires row { row < bits.old.rows }
    requires place { place < bits.old.columns }
    ensures { IsPut bits.old bits.new row place true }
{
    bits.set(row, place);
}

// Takes a bit away.
#[tactic(auto, using(crate::proofs::BitsOfPlaces::put_is))]
fn unset(bits: &mut BitRows, row: usize, place: usize)
    requires row { row < bits.old.rows }
    requires place { place < bits.old.columns }
    ensures { IsPut bits.old bits.new row place false }
{
    bits.clear(row, place);
}

/// The places of a row that can be claimed, in rising order.
pub(crate) fn claimable_of(
    alloc: Global,
    rows: &BitRows,
    row: usize,
    places: &BitRows,
) -> Result<Vec<usize>, NoMemory>
    requires columns { places.now.columns ≡ rows.now.columns }
    requires row { row < rows.now.rows }
    requires one { 0 < places.now.rows }
    ensures { IfOk result (λ found. ArePlaces
        (λ place. (has rows.now row place ≡ true) × (has places.now 0 place ≡ true))
        rows.now.columns found.items) }
{
    let mut found = Vec::new(alloc);
    rows.push_common(row, places, 0, &mut found)?;
    Ok(found)
}

/// Claims a place that can be claimed, which then no longer can.
pub(crate) fn claim(
    place: usize,
    by: Option<usize>,
    from: Option<usize>,
    claimed: &mut Claimed,
) -> Result<(), NoMemory>
    requires place { place < length claimed.old.claims.at }
    requires within { place < claimed.old.places.columns }
    requires one { claimed.old.places.rows ≡ 1 }
    requires unclaimed { claim_at claimed.old.claims place ≡ None }
    ensures claimed { OnOk result (claimed.new.claims ≡ record {
      at = slice_set claimed.old.claims.at place
          (Some (record { by = by; from = from; step = length claimed.old.claims.order }));
      order = claimed.old.claims.order ++ place ∷ [];
    }) }
    ensures few { length claimed.old.claims.order < length claimed.old.claims.at }
    ensures put { OnOk result (IsPut claimed.old.places claimed.new.places 0 place false) }
{
    claimed.claims.claim(place, by, from)?;
    unset(&mut claimed.places, 0, place);
    Ok(())
}

/// Puts all claimed places back.
pub(crate) fn put_back(claims: &Claims, places: &mut BitRows)
    requires one { 0 < places.old.rows }
    requires within { length claims.now.at ≤ places.old.columns }
    ensures { ArePutBack claims.now.order (length claims.now.order) places.old places.new }
{
    for step in 0..claims.count() {
        set(places, 0, claims.nth(step));
    }
}

/// Takes out the place of what comes after a trip for good.
pub(crate) fn take_out(places: &mut BitRows, next: Option<usize>)
    requires one { 0 < places.old.rows }
    requires within { IfSome next (λ place. place < places.old.columns) }
    ensures { IsTakenOut next places.old places.new }
{
    if let Some(place) = next {
        unset(places, 0, place);
    }
}
