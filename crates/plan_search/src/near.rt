// How near places are to the trips of a tree.
ghost use Rattle.std.specs.Prelude.{ℕ, ◌≡◌, ◌+◌, ◌<◌, ◌≤◌, length, get_or, replicate, slice_set};
ghost use Rattle.std.specs.Prelude.{None, IfOk};
ghost use Rattle.link_plans.specs.declared.limits.TheConstants.{MOST_SLACK};
ghost use Rattle.plan_search.specs.Claims.{claim_at};
ghost use Rattle.plan_search.specs.Growing.{is_nearer, shifted};
ghost use Rattle.plan_search.specs.Nears.{slack_or_most, is_exact};

use crate::claim::Claims;
use crate::tight_places::TightPlaces;
use link_plans::{Assignment, LinkTable};
use plan_num::NoMemory;
use std::alloc::Global;
use std::marker::Model;

/// How near a place is: the least slack at it of the trips of the tree, the trip that has it, and
/// the place that this would leave.
#[derive(Clone, Copy)]
pub(crate) struct Near {
    /// The slack.
    pub slack: u64,
    /// The trip.
    pub by: usize,
    /// The place that it would leave; none for the trip that looks for one.
    pub from: Option<usize>,
}

/// A trip of a tree, and the place that it would leave for another one: none for the root, which
/// has no place.
#[derive(Clone, Copy)]
pub(crate) struct Member {
    /// The trip.
    pub by: usize,
    /// The place that it would leave.
    pub from: Option<usize>,
}

/// How near each place is. Contracts see it as the list of what is nearest to each.
pub(crate) struct Nears {
    nears: Vec<Option<Near>>,
    // The slack at each place, which is asked most; more than any where nothing is near.
    slacks: Vec<u64>,
    // Places that may be nearest.
    tight: TightPlaces,
}

impl Drop for Nears {
    fn drop(self) {
        let Nears {
            nears: _,
            slacks: _,
            tight: _,
        } = self;
    }
}

impl Model for Nears {
    ghost use Rattle.std.specs.Prelude.{List, Option};
    ghost use Rattle.plan_search.specs.declared.near.Near.{Near};
    ghost use Rattle.plan_search.specs.Nears.{AreSlacks};

    ghost Value = { List (Option Near) };

    ghost view = { λ nears. nears.nears.items };

    ghost invariant = { λ nears. AreSlacks nears.nears.items nears.slacks.items };
}

impl Nears {
    /// A place for each trip and one behind them all, to which nothing is near.
    #[tactic(auto, using(crate::proofs::NearSlacks::no_slacks))]
    pub(crate) fn new(alloc: Global, trips: &LinkTable) -> Result<Nears, NoMemory>
        ensures { IfOk result (λ nears. nears ≡ replicate (length trips.now + 1) None) }
    {
        let places = trips.len() + 1;
        let mut nears = Vec::new(alloc);
        let mut slacks = Vec::new(alloc);
        for _place in 0..places {
            nears.push(None)?;
            slacks.push(u64::MAX)?;
        }
        Ok(Nears {
            nears,
            slacks,
            tight: TightPlaces::new(alloc, trips)?,
        })
    }

    /// How many places there are.
    pub(crate) fn len(&self) -> usize
        ensures { result ≡ length self.now }
    {
        self.nears.len()
    }

    /// What is nearest to a place.
    pub(crate) fn at(&self, place: usize) -> Option<Near>
        requires { place < length self.now }
        ensures { result ≡ get_or self.now place None }
    {
        self.nears[place]
    }

    /// Puts something nearest to a place, or nothing.
    #[tactic(auto, using(crate::proofs::NearSlacks::slacks_set))]
    pub(crate) fn set(&mut self, place: usize, near: Option<Near>)
        requires { place < length self.old }
        ensures { self.new ≡ slice_set self.old place near }
    {
        self.nears[place] = near;
        self.slacks[place] = slack_or_most(near);
    }

    /// Keeps a place in mind that is tight and has a trip.
    pub(crate) fn keep(&mut self, place: usize, trip: usize)
        ensures { self.new ≡ self.old }
    {
        self.tight.put(place, trip);
    }

    /// The next place that was kept in mind.
    pub(crate) fn next_kept(&mut self) -> Option<usize>
        ensures { self.new ≡ self.old }
    {
        self.tight.take()
    }

    // Keeps no place in mind any more.
    fn forget_kept(&mut self)
        ensures { self.new ≡ self.old }
    {
        self.tight.clear();
    }

    /// Whether a slack is less than that of the nearest trip so far.
    #[tactic(auto, using(crate::proofs::NearSlacks::nearer_by_slack))]
    pub(crate) fn is_nearer(&self, place: usize, slack: u64) -> bool
        requires place { place < length self.now }
        requires small { slack ≤ MOST_SLACK }
        ensures { result ≡ is_nearer slack (get_or self.now place None) }
    {
        slack < self.slacks[place]
    }
}

// The slack of what is near; more than any where nothing is.
fn slack_or_most(near: Option<Near>) -> u64
    ensures { result ≡ slack_or_most near }
{
    match near {
        Some(near) => near.slack,
        None => u64::MAX,
    }
}

/// Nothing is near any place.
#[tactic(auto, using(crate::proofs::WrittenLists::told_start, crate::proofs::WrittenLists::told_set, crate::proofs::NearPlaces::forgotten_all))]
pub(crate) fn forget(nears: &mut Nears)
    ensures { nears.new ≡ replicate (length nears.old) None }
{
    for place in 0..nears.len() {
        nears.set(place, None);
    }
    nears.forget_kept();
}

/// Every place without a claim is nearer by a slack.
#[tactic(auto, using(crate::proofs::WrittenLists::told_start, crate::proofs::WrittenLists::told_set, crate::proofs::NearPlaces::unmoved))]
pub(crate) fn shift_nears(claims: &Claims, assignment: &Assignment, nears: &mut Nears, slack: u64)
    requires { length claims.now.at ≡ length nears.old }
    ensures each { length nears.new ≡ length nears.old }
    ensures shifted { (place : ℕ) → place < length nears.old → get_or nears.new place None
        ≡ shifted (claim_at claims.now place) slack (get_or nears.old place None) }
{
    if slack == 0 {
        return;
    }
    for place in 0..nears.len() {
        let near = shifted(claims, place, slack, nears.at(place));
        nears.set(place, near);
        if is_exact(near) && !claims.is_claimed(place) {
            keep_taken(assignment, nears, place);
        }
    }
}

// Keeps a place in mind where it has a trip.
fn keep_taken(assignment: &Assignment, nears: &mut Nears, place: usize)
    ensures { nears.new ≡ nears.old }
{
    if let Some(trip) = assignment.trip_at(place) {
        nears.keep(place, trip);
    }
}

// Whether something is as near as can be.
fn is_exact(near: Option<Near>) -> bool
    ensures { result ≡ is_exact near }
{
    match near {
        Some(near) => near.slack == 0,
        None => false,
    }
}

// The same at one place.
fn shifted(claims: &Claims, place: usize, slack: u64, old: Option<Near>) -> Option<Near>
    requires { place < length claims.now.at }
    ensures { result ≡ shifted (claim_at claims.now place) slack old }
{
    if claims.is_claimed(place) {
        return old;
    }
    match old {
        Some(near) => Some(Near {
            slack: near.slack.saturating_sub(slack),
            by: near.by,
            from: near.from,
        }),
        None => None,
    }
}
