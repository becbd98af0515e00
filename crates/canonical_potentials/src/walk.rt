// One walk over all nodes of the residual graph of a plan, along potentials that are valid for it.
ghost use Rattle.std.specs.Prelude.{◌≡◌, ◌<◌, [], length, HoldsAt, IfOk, MatchOption, OnOk};
ghost use Rattle.canonical_potentials.specs.Drops.{IsSearched};
ghost use Rattle.link_plans.specs.LinkRows.{IsLinkOf};
ghost use Rattle.canonical_potentials.specs.Walks.{reach, all_waiting, IsFurthest, IsTakenOut};
ghost use Rattle.canonical_potentials.specs.Walks.{LeavesOthers};
ghost use Rattle.link_plans.specs.Links.{links_in};

use crate::drops::Drops;
use crate::linked_plan::LinkedPlan;
use link_plans::{Link, LinkTable, MOST_POTENTIAL, Potentials};
use plan_num::NoMemory;
use std::alloc::Global;

// The height of the root, from which no potential leads below 0.
const MIDDLE: u64 = MOST_POTENTIAL;

// A node from which no arc was looked over yet: the root, where no trip is told, or the left node
// of a trip; and its height by valid potentials. Over an arc a number and a height together never
// rise. A right node has one arc that matters, to the left node of the trip before it or to the
// root, which is looked over at once.
#[derive(Clone, Copy)]
struct Waiting {
    trip: Option<usize>,
    height: u64,
}

impl Drops {
    /// Looks for better walks over the arcs from each node once, and always from the node whose number
    /// and height together are greatest: no other one can make its walk better (E. W. Dijkstra, 1959).
    pub(crate) fn walk(
        &mut self,
        alloc: Global,
        trips: &LinkTable,
        plan: &LinkedPlan,
        valid: &Potentials,
    ) -> Result<(), NoMemory>
        requires { IsSearched (links_in trips.now) plan.now self.old }
        ensures { OnOk result (IsSearched (links_in trips.now) plan.now self.new) }
    {
        let mut waiting = all_nodes(alloc, valid)?;
        for _turn in 0..waiting.len() {
            self.walk_on(trips, plan, &mut waiting);
        }
        Ok(())
    }

    // Goes on from the node that reaches furthest, if one waits.
    fn walk_on(&mut self, trips: &LinkTable, plan: &LinkedPlan, waiting: &mut Vec<Waiting>)
        requires { IsSearched (links_in trips.now) plan.now self.old }
        ensures known { IsSearched (links_in trips.now) plan.now self.new }
        ensures taken { LeavesOthers self.old waiting.old.items waiting.new.items }
    {
        if let Some(node) = take_furthest(self, waiting) {
            self.relax_node(trips, plan, node.trip);
        }
    }

    // The arcs from a node may make better walks.
    fn relax_node(&mut self, trips: &LinkTable, plan: &LinkedPlan, trip: Option<usize>)
        requires { IsSearched (links_in trips.now) plan.now self.old }
        ensures { IsSearched (links_in trips.now) plan.now self.new }
    {
        match trip {
            Some(i) => self.relax_left(trips, plan, i),
            None => self.relax_ends(trips, plan),
        }
    }

    // The arcs between the root and all trips.
    fn relax_ends(&mut self, trips: &LinkTable, plan: &LinkedPlan)
        requires { IsSearched (links_in trips.now) plan.now self.old }
        ensures { IsSearched (links_in trips.now) plan.now self.new }
    {
        for i in 0..trips.len() {
            self.relax_end(trips, plan, i);
            self.relax_next_of(trips, plan, Some(i));
        }
    }

    // The arcs from the left node of a trip.
    fn relax_left(&mut self, trips: &LinkTable, plan: &LinkedPlan, i: usize)
        requires { IsSearched (links_in trips.now) plan.now self.old }
        ensures { IsSearched (links_in trips.now) plan.now self.new }
    {
        self.relax_next_of(trips, plan, Some(i));
        if i < trips.len() {
            self.relax_links(trips, plan, i);
        }
    }

    // The links of a trip that are worth something, and where one makes a better walk the arcs that
    // go on.
    fn relax_links(&mut self, trips: &LinkTable, plan: &LinkedPlan, i: usize)
        requires known { IsSearched (links_in trips.now) plan.now self.old }
        requires within { i < length trips.now }
        ensures { IsSearched (links_in trips.now) plan.now self.new }
    {
        let links = trips.row(i);
        for link in links {
            self.relax_through(trips, plan, i, *link);
        }
    }

    // A link of a trip, and where it makes a better walk the arcs that go on.
    #[tactic(auto, using(crate::proofs::Steps::still_searched))]
    fn relax_through(&mut self, trips: &LinkTable, plan: &LinkedPlan, i: usize, link: Link)
        requires known { IsSearched (links_in trips.now) plan.now self.old }
        requires from { i < length trips.now }
        requires link { IsLinkOf (links_in trips.now) i (length trips.now) link }
        ensures { IsSearched (links_in trips.now) plan.now self.new }
    {
        if self.relax_link_of(trips, plan, i, link) {
            self.relax_end(trips, plan, link.to);
        }
    }

    // The arc between the right node of a trip and the root, and those of the trip before it.
    #[tactic(auto, using(crate::proofs::Steps::still_searched))]
    fn relax_end(&mut self, trips: &LinkTable, plan: &LinkedPlan, j: usize)
        requires known { IsSearched (links_in trips.now) plan.now self.old }
        requires within { j < length trips.now }
        ensures { IsSearched (links_in trips.now) plan.now self.new }
    {
        self.relax_root(trips, plan, j);
        self.relax_next_of(trips, plan, plan.before(j));
    }

    // The arcs between the left node of a trip and its link or the root, if there is a trip.
    #[tactic(auto, using(crate::proofs::Steps::still_searched))]
    fn relax_next_of(&mut self, trips: &LinkTable, plan: &LinkedPlan, trip: Option<usize>)
        requires { IsSearched (links_in trips.now) plan.now self.old }
        ensures { IsSearched (links_in trips.now) plan.now self.new }
    {
        if let Some(i) = trip {
            if i < trips.len() {
                self.relax_next(trips, plan, i);
            }
        }
    }

    // The number and the height of a node together.
    fn reach(&self, node: Waiting) -> u64
        ensures { result ≡ reach self.now node }
    {
        let number = match node.trip {
            Some(i) => self.left_or(i),
            None => self.root(),
        };
        number.saturating_add(node.height)
    }
}

// Takes out the node that reaches furthest.
fn take_furthest(drops: &Drops, waiting: &mut Vec<Waiting>) -> Option<Waiting>
    ensures { MatchOption result ((waiting.old.items ≡ []) × (waiting.new.items ≡ []))
        (IsTakenOut drops.now waiting.old.items waiting.new.items) }
{
    let place = furthest(drops, waiting);
    if place < waiting.len() {
        Some(waiting.swap_remove(place))
    } else {
        None
    }
}

// The place of the node whose number and height together are greatest.
fn furthest(drops: &Drops, waiting: &[Waiting]) -> usize
    ensures within { 0 < length waiting.now → result < length waiting.now }
    ensures furthest { HoldsAt (IsFurthest drops.now waiting.now) waiting.now result }
{
    let mut best = 0;
    let mut most = 0;
    for place in 0..waiting.len() {
        let reach = drops.reach(waiting[place]);
        if reach > most {
            most = reach;
            best = place;
        }
    }
    best
}

// All nodes from which arcs are looked over.
fn all_nodes(alloc: Global, valid: &Potentials) -> Result<Vec<Waiting>, NoMemory>
    ensures { IfOk result (λ nodes. nodes.items ≡ all_waiting valid.now.u) }
{
    let mut nodes = Vec::new(alloc);
    nodes.push(Waiting {
        trip: None,
        height: MIDDLE,
    })?;
    for trip in 0..valid.len() {
        nodes.push(Waiting {
            trip: Some(trip),
            height: MIDDLE.saturating_add(valid.u(trip).unsigned_abs()),
        })?;
    }
    Ok(nodes)
}
