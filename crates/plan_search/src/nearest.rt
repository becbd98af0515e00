// The nearest place to the trips of a tree.
ghost use Rattle.std.specs.Prelude.{ℕ, ◌≡◌, ◌<◌, length, get_or, None, IfSome, MatchOption};
ghost use Rattle.plan_search.specs.Claims.{claim_at};
ghost use Rattle.plan_search.specs.Growing.{open_near, IsNearestPlace, IsNearerOf, IsBetter};

use crate::claim::Claims;
use crate::near::{Near, Nears};
use link_plans::Assignment;

/// The nearest place without a claim, and of two that are as near one without a trip. A place that
/// was kept in mind spares the look at all places.
pub(crate) fn nearest(
    claims: &Claims,
    assignment: &Assignment,
    nears: &mut Nears,
) -> Option<(usize, Near)>
    requires { length claims.now.at ≡ length nears.old }
    ensures same { nears.new ≡ nears.old }
    ensures nearest { MatchOption result
        ((place : ℕ) → place < length nears.old → claim_at claims.now place ≡ None
        → get_or nears.old place None ≡ None)
        (λ best. IsNearestPlace claims.now nears.old best.0 best.1) }
{
    match kept_nearest(claims, nears) {
        Some(found) => Some(found),
        None => nearest_of_all(claims, assignment, nears),
    }
}

// The first place kept in mind that is as near as can be.
fn kept_nearest(claims: &Claims, nears: &mut Nears) -> Option<(usize, Near)>
    requires { length claims.now.at ≡ length nears.old }
    ensures same { nears.new ≡ nears.old }
    ensures nearest { IfSome result
        (λ best. IsNearestPlace claims.now nears.old best.0 best.1) }
{
    for _turn in 0..nears.len() {
        match nears.next_kept() {
            Some(place) => if let Some(near) = exact_near(claims, nears, place) {
                return Some((place, near));
            },
            None => return None,
        }
    }
    None
}

// The nearest trip of a place without a claim, where its slack is 0.
#[tactic(auto, using(crate::proofs::NearPlaces::exact_is_nearest))]
fn exact_near(claims: &Claims, nears: &Nears, place: usize) -> Option<Near>
    requires { length claims.now.at ≡ length nears.now }
    ensures { IfSome result (IsNearestPlace claims.now nears.now place) }
{
    if nears.len() <= place {
        return None;
    }
    match open_near(claims, nears, place) {
        Some(near) => if near.slack == 0 { Some(near) } else { None },
        None => None,
    }
}

// The nearest of all places without a claim, and of two that are as near one without a trip.
#[tactic(auto, using(crate::proofs::NearPlaces::best_more, crate::proofs::NearPlaces::best_all))]
fn nearest_of_all(claims: &Claims, assignment: &Assignment, nears: &Nears) -> Option<(usize, Near)>
    requires { length claims.now.at ≡ length nears.now }
    ensures { MatchOption result
        ((place : ℕ) → place < length nears.now → claim_at claims.now place ≡ None
        → get_or nears.now place None ≡ None)
        (λ best. IsNearestPlace claims.now nears.now best.0 best.1) }
{
    let mut best: Option<(usize, Near)> = None;
    for place in 0..nears.len() {
        best = better(assignment, best, place, open_near(claims, nears, place));
    }
    best
}

// What is nearest to a place without a claim.
fn open_near(claims: &Claims, nears: &Nears, place: usize) -> Option<Near>
    requires claims { place < length claims.now.at }
    requires nears { place < length nears.now }
    ensures { result ≡ open_near (claim_at claims.now place) (get_or nears.now place None) }
{
    if claims.is_claimed(place) {
        None
    } else {
        nears.at(place)
    }
}

// The nearer one of the nearest place so far and another one.
fn better(
    assignment: &Assignment,
    best: Option<(usize, Near)>,
    place: usize,
    near: Option<Near>,
) -> Option<(usize, Near)>
    ensures { IsBetter best place near result }
{
    match near {
        Some(near) => Some(match best {
            Some(best) => better_of(assignment, best, (place, near)),
            None => (place, near),
        }),
        None => best,
    }
}

// The nearer one of two places, and of two that are as near one without a trip.
fn better_of(assignment: &Assignment, best: (usize, Near), other: (usize, Near)) -> (usize, Near)
    ensures { IsNearerOf best other result }
{
    if other.1.slack < best.1.slack {
        return other;
    }
    if other.1.slack == best.1.slack && assignment.is_free(other.0) && !assignment.is_free(best.0) {
        return other;
    }
    best
}
