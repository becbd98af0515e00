// Shifting the potentials of a tree.
ghost use Rattle.std.specs.Prelude.{ℕ, ◌≡◌, ◌+◌, ◌-◌, ◌<◌, ◌≤◌, true, false, if◌then◌else◌, length};
ghost use Rattle.std.specs.Prelude.{slice_set, IfSome};
ghost use Rattle.link_plans.specs.declared.limits.TheConstants.{MOST_POTENTIAL};
ghost use Rattle.link_plans.specs.Potentials.{at, AreOver};
ghost use Rattle.plan_search.specs.Growing.{in_tree, is_claimed, is_claimed_at, AreShifted};

use crate::claim::Claims;
use link_plans::{Assignment, Potentials, as_i64};

/// Takes a slack from the potentials of the trips of a tree, and adds it to those of its places.
#[tactic(auto, using(crate::proofs::ShiftedPotentials::unshifted))]
pub(crate) fn shift_potentials(
    trip: usize,
    assignment: &Assignment,
    claims: &Claims,
    potentials: &mut Potentials,
    slack: u64,
)
    requires each { AreOver (length assignment.now) potentials.old }
    requires places { length claims.now.at ≡ length assignment.now + 1 }
    requires small { (j : ℕ) → j < length assignment.now → is_claimed claims.now j ≡ true
        → at potentials.old.v j + slack ≤ MOST_POTENTIAL }
    ensures { AreShifted trip assignment.now claims.now slack (length assignment.now) potentials.old potentials.new }
{
    if slack == 0 {
        return;
    }
    lower(trip, assignment, claims, potentials, slack);
    raise(assignment.len(), claims, potentials, slack);
}

// Takes a slack from the potentials of the trips of a tree.
#[tactic(auto, using(crate::proofs::ShiftedPotentials::lower_start, crate::proofs::ShiftedPotentials::lower_more, crate::proofs::ShiftedPotentials::lowered_over))]
fn lower(
    trip: usize,
    assignment: &Assignment,
    claims: &Claims,
    potentials: &mut Potentials,
    slack: u64,
)
    requires each { AreOver (length assignment.now) potentials.old }
    requires places { length claims.now.at ≡ length assignment.now + 1 }
    ensures each { AreOver (length assignment.now) potentials.new }
    ensures v { potentials.new.v ≡ potentials.old.v }
    ensures u { (i : ℕ) → i < length assignment.now → at potentials.new.u i
        ≡ (if in_tree trip assignment.now claims.now i then at potentials.old.u i - slack else at potentials.old.u i) }
{
    for i in 0..assignment.len() {
        let own = potentials.u(i).unsigned_abs();
        let now = lowered(is_in_tree(trip, assignment, claims, i), own, slack);
        potentials.set_u(i, as_i64(now));
    }
}

// Adds a slack to the potentials of the claimed places.
#[tactic(auto, using(crate::proofs::ShiftedPotentials::raise_start, crate::proofs::ShiftedPotentials::raise_more, crate::proofs::ShiftedPotentials::raised_over))]
fn raise(count: usize, claims: &Claims, potentials: &mut Potentials, slack: u64)
    requires each { AreOver count potentials.old }
    requires places { length claims.now.at ≡ count + 1 }
    requires small { (j : ℕ) → j < count → is_claimed claims.now j ≡ true
        → at potentials.old.v j + slack ≤ MOST_POTENTIAL }
    ensures each { AreOver count potentials.new }
    ensures u { potentials.new.u ≡ potentials.old.u }
    ensures v { (j : ℕ) → j < count → at potentials.new.v j
        ≡ (if is_claimed claims.now j then at potentials.old.v j + slack else at potentials.old.v j) }
{
    for j in 0..count {
        let own = potentials.v(j).unsigned_abs();
        let now = raised(claims.is_claimed(j), own, slack);
        potentials.set_v(j, as_i64(now));
    }
}

// A number without another one, or as it is.
fn lowered(lower: bool, own: u64, slack: u64) -> u64
    ensures value { result ≡ (if lower then own - slack else own) }
    ensures most { result ≤ own }
{
    if lower {
        own.saturating_sub(slack)
    } else {
        own
    }
}

// A number with another one, or as it is.
fn raised(raise: bool, own: u64, slack: u64) -> u64
    requires own { own ≤ MOST_POTENTIAL }
    requires small { raise ≡ true → own + slack ≤ MOST_POTENTIAL }
    ensures value { result ≡ (if raise then own + slack else own) }
    ensures most { result ≤ MOST_POTENTIAL }
{
    if raise { own + slack } else { own }
}

// Whether a trip is in the tree.
fn is_in_tree(trip: usize, assignment: &Assignment, claims: &Claims, i: usize) -> bool
    requires places { length claims.now.at ≡ length assignment.now + 1 }
    requires within { i < length assignment.now }
    ensures { result ≡ in_tree trip assignment.now claims.now i }
{
    i == trip || is_claimed_at(claims, assignment.next(i))
}

// Whether a trip has a place that is claimed.
fn is_claimed_at(claims: &Claims, place: Option<usize>) -> bool
    requires { IfSome place (λ place. place < length claims.now.at) }
    ensures { result ≡ is_claimed_at claims.now place }
{
    match place {
        Some(place) => claims.is_claimed(place),
        None => false,
    }
}
