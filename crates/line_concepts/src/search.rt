// The search of a line concept within a budget of entries.
ghost use Rattle.std.specs.Prelude.{◌≡◌, ◌≤◌, ◌+◌, ◌∷◌, [], None, Some, IfOk, OnErr, OnOk};
ghost use Rattle.line_concepts.specs.Listings.{best_after, listing};
ghost use Rattle.line_concepts.specs.Budgets.{entries_listed};
ghost use Rattle.line_concepts.specs.RightSearches.{FoundIsRight, ListingIsWhole, SearchIsRight};
ghost use Rattle.line_concepts.specs.Searches.{ArePriced, IsResult, IsSearched, IsVisited};
ghost use Rattle.line_concepts.specs.Searches.{TakesEntry, concept_in, entry_of};

use crate::best::BestConcept;
use crate::node::Node;
use crate::region_node::node_at;
use crate::region_walk::{RegionWalk, go_on};
use crate::tree::Tree;
use line_cost_model::{KeptBound, LineProblem, SummedRegion};
use plan_num::{Ledger, NoMemory, Steps};
use std::alloc::Global;

/// A search between two entries: the regions that wait, the nodes of the entries so far, and the
/// best concept that these found. The room for a bound is kept.
pub(crate) struct Search<'a> {
    walk: RegionWalk<'a>,
    tree: Tree,
    best: Option<BestConcept>,
    bound: KeptBound,
}

impl Drop for Search<'_> {
    fn drop(self) {
        let Search {
            walk: _,
            tree: _,
            best: _,
            bound: _,
        } = self;
    }
}

/// What a search within a budget found: the best concept, the nodes of all entries where the
/// budget was enough, and how many entries were listed.
#[derive(Drop)]
pub struct Searched {
    pub best: Option<BestConcept>,
    pub tree: Option<Tree>,
    pub entries: u64,
}

/// Searches the concepts of a line problem by branch and bound, with so many entries at most. Each
/// entry takes a step. Where the listing ends within the budget, there is a tree, which certifies
/// what the concept costs, and without a concept none is feasible; where it does not, the concept
/// is the best so far, and there is no tree. The one error is want of memory.
pub fn search_concept<L: Ledger>(
    alloc: Global,
    problem: &LineProblem,
    budget: u64,
    steps: &mut Steps<L>,
) -> Result<Searched, NoMemory>
    ensures found { IfOk result (IsResult problem.now budget) }
    ensures right { IfOk result (FoundIsRight problem.now budget) }
    ensures finds { SearchIsRight problem.now }
    ensures listed { ListingIsWhole problem.now }
    ensures steps { OnOk result
        (steps.new ≡ steps.old + entries_listed budget (listing problem.now)) }
    ensures err { OnErr result ((steps.old ≤ steps.new)
        × (steps.new ≤ steps.old + entries_listed budget (listing problem.now))) }
{
    // A count tells what always holds of a problem.
    let _ = problem.line_count();
    listed_concept(alloc, problem, budget, steps)
}

// What the listing finds within so many entries.
fn listed_concept<L: Ledger>(
    alloc: Global,
    problem: &LineProblem,
    budget: u64,
    steps: &mut Steps<L>,
) -> Result<Searched, NoMemory>
    ensures found { IfOk result (IsResult problem.now budget) }
    ensures steps { OnOk result
        (steps.new ≡ steps.old + entries_listed budget (listing problem.now)) }
    ensures err { OnErr result ((steps.old ≤ steps.new)
        × (steps.new ≤ steps.old + entries_listed budget (listing problem.now))) }
{
    let mut search = Search::new(alloc, problem)?;
    for entry in 0..budget {
        steps.tick();
        if !search.take_entry(alloc)? {
            return Ok(search.whole(entry + 1));
        }
    }
    Ok(search.spent(budget))
}

impl<'a> Search<'a> {
    // Before the first entry.
    fn new(alloc: Global, problem: &'a LineProblem) -> Result<Search<'a>, NoMemory>
        ensures searched { IfOk result (λ found. IsSearched problem.now found 0) }
        ensures problem { IfOk result (λ found. found.walk.problem ≡ problem.now) }
    {
        let walk = RegionWalk::new(alloc, problem)?;
        Ok(Search {
            walk,
            tree: Tree::new(alloc),
            best: None,
            bound: KeptBound::new(alloc),
        })
    }

    // One entry more, and whether another one is to come.
    fn take_entry(&mut self, alloc: Global) -> Result<bool, NoMemory>
        requires visited { IsVisited self.old.walk.problem self.old.walk.region }
        requires priced { ArePriced self.old.walk.problem self.old.best }
        ensures { IfOk result (TakesEntry self.old.walk.problem self.old self.new) }
    {
        let node = node_at(alloc, self.walk.region(), &self.best, &mut self.bound)?;
        take_found(alloc, self.walk.region(), &node, &mut self.best)?;
        let more = go_on(&mut self.walk, &node)?;
        self.tree.push(node)?;
        Ok(more)
    }

    // The best concept, where there is one, and the tree of all entries.
    fn into_parts(self) -> (Option<BestConcept>, Tree)
        ensures best { result.0 ≡ self.entry.best }
        ensures tree { result.1 ≡ self.entry.tree }
    {
        let Search {
            walk: _,
            tree,
            best,
            bound: _,
        } = self;
        (best, tree)
    }

    // What it found, where no region waits.
    fn whole(self, entries: u64) -> Searched
        ensures { result
            ≡ record { best = self.entry.best; tree = Some self.entry.tree; entries = entries } }
    {
        let (best, tree) = self.into_parts();
        Searched {
            best,
            tree: Some(tree),
            entries,
        }
    }

    // What it found, where the budget is spent.
    fn spent(self, entries: u64) -> Searched
        ensures { result
            ≡ record { best = self.entry.best; tree = None; entries = entries } }
    {
        let (best, _tree) = self.into_parts();
        Searched {
            best,
            tree: None,
            entries,
        }
    }
}

// The concept of a region, where it is said to be a single one, is the best now.
fn take_found(
    alloc: Global,
    region: &SummedRegion,
    node: &Node,
    best: &mut Option<BestConcept>,
) -> Result<(), NoMemory>
    requires { ArePriced region.now.problem best.old }
    ensures found { OnOk result (concept_in best.new
        ≡ best_after (concept_in best.old) (entry_of region.now.ranges node.now ∷ [])) }
    ensures priced { OnOk result (ArePriced region.now.problem best.new) }
{
    match node {
        Node::Point => {
            *best = Some(BestConcept::least_in(alloc, region)?);
        }
        _ => {}
    }
    Ok(())
}
