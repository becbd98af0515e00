// The arcs of the residual graph: each may make a better walk.
ghost use Rattle.std.specs.Prelude.{◌+◌, ◌≡◌, ◌<◌, ◌≤◌, ◌+ℤ◌, ◌-ℤ◌, ◌≤ℤ◌, ◌||◌, pos, neg_ℤ, true};
ghost use Rattle.std.specs.Prelude.{false, length, get_or, is_some, MatchOption, Some, None};
ghost use Rattle.std.specs.Prelude.{IfSome};
ghost use Rattle.canonical_potentials.specs.Drops.{LinkKept, NextKept, RootKept, IsSearched};
ghost use Rattle.canonical_potentials.specs.Drops.{IsStep, IsRaised};
ghost use Rattle.link_plans.specs.LinkRows.{IsLinkOf};
ghost use Rattle.link_plans.specs.Plans.{next, is_next};
ghost use Rattle.link_plans.specs.Links.{links_in};

use crate::drops::Drops;
use crate::linked_plan::LinkedPlan;
use link_plans::{Link, LinkTable};

impl Drops {
    /// A link from a trip may make a better walk.
    pub(crate) fn relax_link_of(
        &mut self,
        trips: &LinkTable,
        plan: &LinkedPlan,
        i: usize,
        link: Link,
    ) -> bool
        requires known { IsSearched (links_in trips.now) plan.now self.old }
        requires from { i < length trips.now }
        requires link { IsLinkOf (links_in trips.now) i (length trips.now) link }
        ensures step { IsStep (links_in trips.now) plan.now self.old self.new result }
        ensures kept { result ≡ false
            → get_or self.old.left i 0 + link.gain ≤ get_or self.old.right link.to 0 }
    {
        let number = self.left(i) + link.gain;
        if self.right(link.to) < number {
            self.set_right(link.to, number);
            true
        } else {
            false
        }
    }

    // A link of the plan that is given up may make a better walk.
    fn relax_link(&mut self, trips: &LinkTable, plan: &LinkedPlan, i: usize, j: usize) -> bool
        requires known { IsSearched (links_in trips.now) plan.now self.old }
        requires link { next plan.now i ≡ Some j }
        ensures step { IsStep (links_in trips.now) plan.now self.old self.new result }
        ensures kept { result ≡ false → LinkKept (links_in trips.now) self.old i j }
    {
        match over_link(trips, i, j, self.right(j), self.left(i)) {
            Some(number) => {
                self.set_left(i, number);
                true
            }
            None => false,
        }
    }

    // The arc from the left node of a trip with a successor to the root may make a better walk.
    fn relax_back(&mut self, trips: &LinkTable, plan: &LinkedPlan, i: usize) -> bool
        requires known { IsSearched (links_in trips.now) plan.now self.old }
        requires within { i < length trips.now }
        requires link { is_some (next plan.now i) ≡ true }
        ensures step { IsStep (links_in trips.now) plan.now self.old self.new result }
        ensures kept { result ≡ false → get_or self.old.left i 0 ≤ self.old.root }
    {
        let number = self.left(i);
        if self.root() < number {
            self.set_root(number);
            true
        } else {
            false
        }
    }

    // Both arcs from where a trip has a successor.
    fn relax_linked(&mut self, trips: &LinkTable, plan: &LinkedPlan, i: usize, j: usize) -> bool
        requires known { IsSearched (links_in trips.now) plan.now self.old }
        requires within { i < length trips.now }
        requires link { next plan.now i ≡ Some j }
        ensures step { IsStep (links_in trips.now) plan.now self.old self.new result }
        ensures kept { result ≡ false → NextKept (links_in trips.now) self.old i (Some j) }
    {
        let link = self.relax_link(trips, plan, i, j);
        let back = self.relax_back(trips, plan, i);
        either(link, back)
    }

    // The arc from the root to the left node of a trip without a successor may make a better walk.
    fn relax_alone(&mut self, trips: &LinkTable, plan: &LinkedPlan, i: usize) -> bool
        requires known { IsSearched (links_in trips.now) plan.now self.old }
        requires within { i < length trips.now }
        requires alone { next plan.now i ≡ None }
        ensures step { IsStep (links_in trips.now) plan.now self.old self.new result }
        ensures kept { result ≡ false → NextKept (links_in trips.now) self.old i None }
    {
        let number = self.root();
        if self.left(i) < number {
            self.set_left(i, number);
            true
        } else {
            false
        }
    }

    /// The arcs between the left node of a trip and its link or the root.
    pub(crate) fn relax_next(&mut self, trips: &LinkTable, plan: &LinkedPlan, i: usize) -> bool
        requires known { IsSearched (links_in trips.now) plan.now self.old }
        requires within { i < length trips.now }
        ensures step { IsStep (links_in trips.now) plan.now self.old self.new result }
        ensures kept { result ≡ false
            → NextKept (links_in trips.now) self.old i (next plan.now i) }
    {
        match plan.next(i) {
            Some(j) => self.relax_linked(trips, plan, i, j),
            None => self.relax_alone(trips, plan, i),
        }
    }

    /// The arc between the right node of a trip and the root.
    pub(crate) fn relax_root(&mut self, trips: &LinkTable, plan: &LinkedPlan, j: usize) -> bool
        requires known { IsSearched (links_in trips.now) plan.now self.old }
        requires within { j < length trips.now }
        ensures step { IsStep (links_in trips.now) plan.now self.old self.new result }
        ensures kept { result ≡ false → RootKept self.old j (is_next plan.now j) }
    {
        if plan.is_next(j) {
            self.relax_from_root(trips, plan, j)
        } else {
            self.relax_to_root(trips, plan, j)
        }
    }

    fn relax_from_root(&mut self, trips: &LinkTable, plan: &LinkedPlan, j: usize) -> bool
        requires known { IsSearched (links_in trips.now) plan.now self.old }
        requires within { j < length trips.now }
        requires linked { is_next plan.now j ≡ true }
        ensures step { IsStep (links_in trips.now) plan.now self.old self.new result }
        ensures kept { result ≡ false → RootKept self.old j true }
    {
        let number = self.root();
        if self.right(j) < number {
            self.set_right(j, number);
            true
        } else {
            false
        }
    }

    fn relax_to_root(&mut self, trips: &LinkTable, plan: &LinkedPlan, j: usize) -> bool
        requires known { IsSearched (links_in trips.now) plan.now self.old }
        requires within { j < length trips.now }
        requires alone { is_next plan.now j ≡ false }
        ensures step { IsStep (links_in trips.now) plan.now self.old self.new result }
        ensures kept { result ≡ false → RootKept self.old j false }
    {
        let number = self.right(j);
        if self.root() < number {
            self.set_root(number);
            true
        } else {
            false
        }
    }
}

// A number without what a link gains, where this is more than another number.
fn over_link(trips: &LinkTable, i: usize, j: usize, from: u64, to: u64) -> Option<u64>
    requires within { i < length trips.now }
    requires link { is_some ((links_in trips.now).gain i j) ≡ true }
    ensures { IfSome ((links_in trips.now).gain i j) (λ gain. IsRaised from (neg_ℤ gain) to result) }
{
    match trips.gain(i, j) {
        Some(gain) => without(from, gain, to),
        None => None,
    }
}

// A number without another one, where this is more than a third.
fn without(from: u64, gain: u64, to: u64) -> Option<u64>
    ensures { IsRaised from (neg_ℤ (pos gain)) to result }
{
    let number = from.saturating_sub(gain);
    if number > to { Some(number) } else { None }
}

/// Whether one of two is so.
pub(crate) fn either(a: bool, b: bool) -> bool
    ensures { result ≡ (a || b) }
{
    a || b
}
