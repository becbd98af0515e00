// Handing places on along claims.
ghost use Rattle.std.specs.Prelude.{◌≡◌, ◌<◌, ◌≤◌, false, length, IfSome, MatchOption};
ghost use Rattle.plan_search.specs.Searches.{Search, given_to, IsFound, IsPassedOn, IsHandedOn};
ghost use Rattle.link_plans.specs.Plans.{is_next};

use crate::claim::Claims;
use link_plans::Assignment;

/// Gives a place without a trip to the one that claims it, the place that this leaves to the next one,
/// and so on, until the trip that looks for a place has one.
pub fn hand_on(claims: &Claims, assignment: &mut Assignment, place: usize)
    ghost search: { Search }
    requires { IsFound search assignment.old claims.now place }
    ensures { IsHandedOn search claims.now assignment.old assignment.new }
{
    let mut place = place;
    while let Some(from) = pass_on(claims, assignment, place) {
        place = from;
    }
}

// Gives a place to the one that claims it, and tells the place that this leaves.
fn pass_on(claims: &Claims, assignment: &mut Assignment, place: usize) -> Option<usize>
    ghost search: { Search }
    requires { IsFound search assignment.old claims.now place }
    ensures { MatchOption result (IsHandedOn search claims.now assignment.old assignment.new)
        (λ from. IsPassedOn search claims.now assignment.old assignment.new place from) }
{
    match claims.at(place) {
        Some(claim) => {
            give_to(assignment, claim.by, place);
            claim.from
        }
        None => None,
    }
}

// Gives a place to a trip, or to none.
fn give_to(assignment: &mut Assignment, by: Option<usize>, place: usize)
    requires trip { IfSome by (λ trip. trip < length assignment.old) }
    requires place { place ≤ length assignment.old }
    requires free { is_next assignment.old place ≡ false }
    ensures { assignment.new ≡ given_to assignment.old by place }
{
    if let Some(trip) = by {
        assignment.give(trip, place);
    }
}
