// The search within a budget of entries.
ghost use Rattle.std.specs.Prelude.{◌≡◌, ◌∷◌, [], Some, None, IfOk, IfSome, OnOk};
ghost use Rattle.branch_and_bound.specs.Branchings.{BranchingParts};
ghost use Rattle.branch_and_bound.specs.Listings.{found_within};
ghost use Rattle.branch_and_bound.specs.Right.{IsRight};
ghost use Rattle.branch_and_bound.specs.Searches.{IsSearched, Pops, TakesEntry};

use crate::branching::Branching;
use crate::found::Found;
use crate::tree::Tree;
use plan_num::NoMemory;
use std::alloc::Global;
use std::marker::Model;

/// A search between two entries: the regions that wait, the next one last, the nodes of the entries
/// so far, and the best solution of these. Contracts see the next region first.
pub(crate) struct Search<R, N, S> {
    waiting: Vec<R>,
    tree: Tree<N>,
    best: Option<S>,
}

impl<R: Drop, N: Drop, S: Drop> Drop for Search<R, N, S> {
    fn drop(self) {
        let Search {
            waiting: _,
            tree: _,
            best: _,
        } = self;
    }
}

impl<R, N, S> Model for Search<R, N, S> {
    ghost use Rattle.std.specs.Prelude.{reverse};
    ghost use Rattle.branch_and_bound.specs.Searches.{SearchParts};

    ghost Value = { SearchParts R N S };

    ghost view = { λ search. record {
      waiting = reverse search.waiting.items;
      nodes = search.tree;
      best = search.best;
    } };
}

/// Searches the solution of least cost, with so many entries at most.
pub fn find_best<R: Drop, N: Drop, S: Drop, B: Branching<R, N, S>>(
    alloc: Global,
    problem: &B,
    budget: u64,
) -> Result<Found<N, S>, NoMemory>
    ensures found { IfOk result (λ found. found ≡ found_within (B.problem problem.now) budget) }
    ensures right { IfOk result (λ found. IfSome found.tree
        (IsRight (B.problem problem.now) (B.LiesIn problem.now) (B.Shows problem.now) found.best)) }
{
    let mut search = Search::new(alloc, problem.root(alloc)?)?;
    for entry in 0..budget {
        match search.next() {
            None => return Ok(search.whole(entry)),
            Some(region) => search.take_entry(alloc, problem, region)?,
        }
    }
    Ok(search.end(budget))
}

impl<R: Drop, N: Drop, S: Drop> Search<R, N, S> {
    // Before the first entry, where the root waits.
    fn new(alloc: Global, root: R) -> Result<Search<R, N, S>, NoMemory>
        ensures { IfOk result
            (λ made. made ≡ record { waiting = root ∷ []; nodes = []; best = None }) }
    {
        let mut waiting = Vec::new(alloc);
        waiting.push(root)?;
        Ok(Search {
            waiting,
            tree: Tree::new(alloc),
            best: None,
        })
    }

    // The next region, which waits no longer.
    fn next(&mut self) -> Option<R>
        ensures { Pops self.old self.new result }
    {
        self.waiting.pop()
    }

    // One entry more, of a region.
    fn take_entry<B: Branching<R, N, S>>(
        &mut self,
        alloc: Global,
        problem: &B,
        region: R,
    ) -> Result<(), NoMemory>
        requires { B.Fits problem.now region }
        ensures { OnOk result (TakesEntry (B.problem problem.now) region self.old self.new) }
    {
        let (node, found) = problem.look(alloc, &region, &self.best)?;
        if let Some((first, second)) = problem.split(alloc, region, &node)? {
            self.waiting.push(second)?;
            self.waiting.push(first)?;
        }
        self.tree.push(node)?;
        if found.is_some() {
            self.best = found;
        }
        Ok(())
    }

    // What was found, where no region waits.
    fn whole(self, entries: u64) -> Found<N, S>
        ensures { result
            ≡ record { best = self.best; tree = Some self.nodes; entries = entries } }
    {
        let Search {
            waiting: _,
            tree,
            best,
        } = self;
        Found {
            best,
            tree: Some(tree),
            entries,
        }
    }

    // What was found, where regions wait.
    fn spent(self, entries: u64) -> Found<N, S>
        ensures { result ≡ record { best = self.best; tree = None; entries = entries } }
    {
        let Search {
            waiting: _,
            tree: _,
            best,
        } = self;
        Found {
            best,
            tree: None,
            entries,
        }
    }

    // What was found behind so many entries, which are all that may be.
    fn end(self, entries: u64) -> Found<N, S>
        ensures whole { self.waiting ≡ [] → result
            ≡ record { best = self.best; tree = Some self.nodes; entries = entries } }
        ensures spent { (self.waiting ≡ [] → ⊥) → result
            ≡ record { best = self.best; tree = None; entries = entries } }
    {
        if self.waiting.is_empty() {
            return self.whole(entries);
        }
        self.spent(entries)
    }
}
