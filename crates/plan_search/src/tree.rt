// Alternating trees with slacks.
ghost use Rattle.std.specs.Prelude.{◌≡◌, ◌+◌, ◌<◌, ⊤, true, length, None, IfOk, MatchOption};
ghost use Rattle.std.specs.Prelude.{OnErr, OnOk};
ghost use Rattle.link_plans.specs.Links.{links_in};
ghost use Rattle.link_plans.specs.Plans.{next, is_next};
ghost use Rattle.plan_search.specs.Claims.{AreClaims};
ghost use Rattle.plan_search.specs.Growing.{in_tree, AreLooked, IsNearestPlace, StillCovers};
ghost use Rattle.plan_search.specs.Searches.{Search, IsFound, IsHandedOn};
ghost use Rattle.plan_search.specs.Trees.{with_claim, AreOverOne, HasGrown, IsAugmented, IsBare};
ghost use Rattle.plan_search.specs.Trees.{IsEnd, IsLeast, IsLooked, IsReached, IsShifted};

use crate::claim::Claims;
use crate::handing::hand_on;
use crate::looks::look;
use crate::near::{Member, Near, Nears, shift_nears};
use crate::nearest::nearest;
use crate::shift::shift_potentials;
use crate::tight_plan::TightPlan;
use link_plans::{Assignment, LinkTable, Potentials};
use plan_num::NoMemory;
use std::marker::Model;

/// An alternating tree with slacks, as in the Hungarian method (H. W. Kuhn, 1955; J. Munkres,
/// 1957).
///
/// A trip is tight at a place where their two potentials are exactly what its link gains. The tree
/// grows from its root, which is a trip without a place, in turn over a pair that is tight to a
/// place, which it claims, and over the link of the plan to the trip that has this place. So each
/// claimed place can be handed on along the tree, until the root has one. Where it comes to a place
/// without a trip, it has its end, and the plan can be augmented.
///
/// The slack of a trip at a place is what their potentials are more than the link gains. For each
/// place without a claim the tree knows its nearest trip, which is that of least slack. Where no
/// place has slack 0, the potentials of the trips of the tree fall by the least slack and those of
/// its places rise by it: all that was tight in the tree still is, and one place more is. To keep
/// slacks for each place makes this a search for shortest augmenting paths under potentials (J.
/// Edmonds and R. M. Karp, 1972; N. Tomizawa, 1971).
pub(crate) struct Tree<'a> {
    pub(crate) links: &'a LinkTable,
    pub(crate) plan: Assignment,
    pub(crate) potentials: Potentials,
    pub(crate) claims: Claims,
    pub(crate) nears: Nears,
    pub(crate) root: usize,
}

impl Drop for Tree<'_> {
    fn drop(self) {
        let Tree {
            links: _,
            plan: _,
            potentials: _,
            claims: _,
            nears: _,
            root: _,
        } = self;
    }
}

impl<'a> Model for Tree<'a> {
    ghost use Rattle.plan_search.specs.Trees.{TreeParts, IsTree};

    ghost Value = { TreeParts };

    ghost view = { λ t. record {
      links = t.links.now;
      plan = t.plan;
      potentials = t.potentials;
      claims = t.claims;
      nears = t.nears;
      root = t.root;
    } };

    ghost invariant = { λ t. IsTree (record {
      links = t.links.now;
      plan = t.plan;
      potentials = t.potentials;
      claims = t.claims;
      nears = t.nears;
      root = t.root;
    }) };
}

impl<'a> Tree<'a> {
    /// Lets a tree of its root alone grow until it has an end, which is a place without a trip and
    /// the trip of the tree that is tight there.
    pub(crate) fn find_end(&mut self) -> Result<(usize, Member), NoMemory>
        requires { IsBare self.old }
        ensures end { IfOk result (IsEnd self.new) }
        ensures one { OnOk result (AreOverOne self.old self.new) }
        ensures kept { OnOk result
            (StillCovers (links_in self.old.links) self.old.potentials self.new.potentials) }
    {
        let root = self.root;
        if let Some(end) = self.look_from(root) {
            return Ok(end);
        }
        loop {
            if let Some(end) = self.grow()? {
                return Ok(end);
            }
        }
    }

    /// Hands places on along the tree from its end, so that its root has one.
    pub(crate) fn augment(self, end: (usize, Member)) -> Result<TightPlan<'a>, NoMemory>
        requires { IsEnd self end }
        ensures { IfOk result (IsAugmented self.entry) }
    {
        let Tree {
            links,
            mut plan,
            potentials,
            mut claims,
            nears,
            root,
        } = self;
        claims.claim(end.0, Some(end.1.by), end.1.from)?;
        hand_to(links, &potentials, root, &claims, &mut plan, end.0);
        Ok(TightPlan {
            links,
            plan,
            potentials,
            claims,
            nears,
        })
    }

    // Shifts the potentials so that the nearest place is tight, and claims it. Where a trip has it
    // the tree grows by this trip; where none has it the place is the end.
    fn grow(&mut self) -> Result<Option<(usize, Member)>, NoMemory>
        requires { IsLooked self.old }
        ensures end { IfOk result (λ end. MatchOption end (IsLooked self.new) (IsEnd self.new)) }
        ensures one { OnOk result (AreOverOne self.old self.new) }
        ensures kept { OnOk result
            (StillCovers (links_in self.old.links) self.old.potentials self.new.potentials) }
        ensures more { IfOk result
            (λ end. MatchOption end (HasGrown self.old self.new) (λ _. ⊤)) }
    {
        match self.nearest() {
            Some((place, near)) => {
                self.shift(near.slack);
                let member = Member {
                    by: near.by,
                    from: near.from,
                };
                self.reach(place, member)
            }
            None => Ok(None),
        }
    }

    // The nearest place without a claim. There is one, since behind all trips any trip can stand.
    fn nearest(&mut self) -> Option<(usize, Near)>
        requires { IsLooked self.old }
        ensures same { self.new ≡ self.old }
        ensures nearest { MatchOption result ⊥
            (λ best. IsNearestPlace self.new.claims self.new.nears best.0 best.1) }
    {
        nearest(&self.claims, &self.plan, &mut self.nears)
    }

    // Shifts the potentials by the least slack at a place without a claim.
    fn shift(&mut self, slack: u64)
        requires looked { IsLooked self.old }
        requires least { IsLeast self.old slack }
        ensures { IsShifted self.old slack self.new }
    {
        shift_potentials(
            self.root,
            &self.plan,
            &self.claims,
            &mut self.potentials,
            slack,
        );
        shift_nears(&self.claims, &self.plan, &mut self.nears, slack);
    }

    // Takes a place at which a trip of the tree is tight: it is the end where no trip has it, and
    // is claimed where one has, from which the tree then looks on.
    fn reach(&mut self, place: usize, member: Member) -> Result<Option<(usize, Member)>, NoMemory>
        requires looked { IsLooked self.old }
        requires reached { IsReached self.old place member }
        ensures end { IfOk result (λ end. MatchOption end (IsLooked self.new) (IsEnd self.new)) }
        ensures one { OnOk result (AreOverOne self.old self.new) }
        ensures potentials { OnOk result (self.new.potentials ≡ self.old.potentials) }
        ensures more { IfOk result
            (λ end. MatchOption end (HasGrown self.old self.new) (λ _. ⊤)) }
    {
        match self.plan.trip_at(place) {
            Some(left) => {
                self.claim(place, member)?;
                Ok(self.look_from(left))
            }
            None => Ok(Some((place, member))),
        }
    }

    // Claims a place that some trip has, for a trip of the tree that is tight there.
    fn claim(&mut self, place: usize, member: Member) -> Result<(), NoMemory>
        requires reached { IsReached self.old place member }
        requires has { is_next self.old.plan place ≡ true }
        ensures claimed { OnOk result
            (self.new ≡ record self.old { claims = with_claim self.old.claims place member }) }
        ensures few { length self.old.claims.order < length self.old.links + 1 }
        ensures claims { AreClaims self.old.claims }
    {
        self.claims.claim(place, Some(member.by), member.from)
    }

    // Looks from a trip of the tree at all places: each without a claim to which it is nearer than
    // the nearest one so far has it as its nearest. Stops at an end.
    fn look_from(&mut self, by: usize) -> Option<(usize, Member)>
        requires { in_tree self.old.root self.old.plan self.old.claims by ≡ true }
        ensures same { self.new ≡ record self.old { nears = self.new.nears } }
        ensures each { length self.new.nears ≡ length self.old.nears }
        ensures looked { MatchOption result
            (AreLooked (links_in self.old.links) self.old.potentials self.old.claims by
            (next self.old.plan by) self.old.nears self.new.nears)
            (IsEnd self.new) }
    {
        let member = Member {
            by,
            from: self.plan.next(by),
        };
        match look(
            self.links,
            &self.potentials,
            &self.claims,
            &self.plan,
            &mut self.nears,
            member,
        ) {
            Some(place) => Some((place, member)),
            None => None,
        }
    }
}

// Hands places on from one without a trip to the root of a tree over links with their potentials.
fn hand_to(
    _links: &LinkTable,
    _potentials: &Potentials,
    _root: usize,
    claims: &Claims,
    plan: &mut Assignment,
    place: usize,
)
    ghost search: { Search }
    requires { IsFound search plan.old claims.now place }
    ensures { IsHandedOn search claims.now plan.old plan.new }
{
    hand_on(claims, plan, place);
}
