// The search for a best waiting decision within a budget of entries.
ghost use Rattle.std.specs.Prelude.{◌≡◌, ◌≤◌, ◌+◌, [], length, None, Some, IfOk, IfSome, IsSome, OnErr, OnOk};
ghost use Rattle.std.specs.Prelude.{option_map};
ghost use Rattle.std.specs.Prelude.{true};
ghost use Rattle.propagation.specs.Problems.{IsForward};
ghost use Rattle.waiting_decisions.specs.Budgets.{FindsSome, IsEnough, IsMarked, entries_listed, waits_within};
ghost use Rattle.waiting_decisions.specs.Budgets.{with_tree};
ghost use Rattle.waiting_decisions.specs.Listings.{found, found_by, holds_off, listing};
ghost use Rattle.waiting_decisions.specs.RightChoices.{IsRight, IsWritable};
ghost use Rattle.waiting_decisions.specs.RightListings.{EntryHolds, IsListed};
ghost use Rattle.waiting_decisions.specs.Regions.{greatest_set, is_free_at};
ghost use Rattle.waiting_decisions.specs.Paths.{region_in};
ghost use Rattle.waiting_decisions.specs.Searches.{IsCheap, Leaves, Splits, TakesEntry, best_in, choice_of, entry_of};
ghost use Rattle.waiting_decisions.specs.Searches.{next_entry};

use crate::best::Best;
use crate::kept::Kept;
use crate::next_entry::NextEntry;
use crate::node::{WaitNode, WaitTree};
use crate::path::Path;
use crate::waits::Waits;
use plan_num::{Ledger, NoMemory, Steps};
use propagation::Propagation;
use std::alloc::Global;
use std::marker::Model;

/// A search between two entries: the region that it has come to, the nodes of the entries so far,
/// and the best choice that these found.
pub(crate) struct Search<'a> {
    path: Path<'a>,
    tree: WaitTree,
    best: Option<Best>,
}

impl Drop for Search<'_> {
    fn drop(self) {
        let Search {
            path: _,
            tree: _,
            best: _,
        } = self;
    }
}

impl<'a> Model for Search<'a> {
    ghost use Rattle.std.specs.Prelude.{length};
    ghost use Rattle.waiting_decisions.specs.Searches.{Between, best_in};

    ghost Value = { Between };

    ghost view = { λ search. record {
      path = search.path;
      nodes = search.tree;
      best = best_in (length search.path.problem.changes) search.best;
    } };
}

/// Searches the waiting decisions of a day by branch and bound, at a penalty in minutes for each
/// change that is dropped, with so many entries at most; each entry takes a step. Gives the best one
/// found, with the tree that proves it where the budget was enough; none where none was found.
pub fn search_waits<L: Ledger>(
    alloc: Global,
    problem: &Propagation,
    penalty: u32,
    budget: u32,
    steps: &mut Steps<L>,
) -> Result<Option<Waits>, NoMemory>
    requires { penalty ≤ 1000000 }
    ensures found { IfOk result
        (λ found. found ≡ waits_within budget (listing problem.now penalty)) }
    ensures right { IfOk result (λ found. IfSome found (IsRight problem.now penalty)) }
    ensures listed { IfOk result (λ found. IfSome found (IsListed problem.now penalty budget)) }
    ensures finds { FindsSome problem.now budget → IfOk result (λ found. IsSome found) }
    ensures whole { IsEnough problem.now budget → IfOk result IsMarked }
    ensures steps { OnOk result
        (steps.new ≡ steps.old + entries_listed budget (listing problem.now penalty)) }
    ensures err { OnErr result ((steps.old ≤ steps.new)
        × (steps.new ≤ steps.old + entries_listed budget (listing problem.now penalty))) }
{
    let mut search = Search::new(alloc, problem)?;
    for _entry in 0..budget {
        steps.tick();
        if !search.take_entry(alloc, penalty)? {
            return search.whole(alloc);
        }
    }
    search.spent(alloc)
}

impl<'a> Search<'a> {
    // Before the first entry.
    fn new(alloc: Global, problem: &'a Propagation) -> Result<Search<'a>, NoMemory>
        ensures value { IfOk result (λ search. search ≡ record {
          path = record { problem = problem.now; decided = [] };
          nodes = [];
          best = None;
        }) }
        ensures forward { IsForward problem.now }
    {
        Ok(Search {
            path: Path::new(alloc, problem)?,
            tree: WaitTree::new(alloc),
            best: None,
        })
    }

    // One entry more, and whether another one is to come.
    fn take_entry(&mut self, alloc: Global, penalty: u32) -> Result<bool, NoMemory>
        requires { penalty ≤ 1000000 }
        ensures takes { IfOk result (TakesEntry penalty self.old self.new) }
        ensures cheap { IfOk result (λ more. IsCheap self.old.best → IsCheap self.new.best) }
    {
        match self.next_entry(alloc, penalty)? {
            NextEntry::CutOff => self.leave(),
            NextEntry::Found { best } => {
                self.hold(best);
                self.leave()
            }
            NextEntry::Split { change } => self.split(change),
        }
    }

    // What is said of the region in hand, which holds.
    fn next_entry(&self, alloc: Global, penalty: u32) -> Result<NextEntry, NoMemory>
        requires { penalty ≤ 1000000 }
        ensures next { IfOk result (λ next. entry_of (length self.now.path.problem.changes) next
            ≡ next_entry penalty self.now) }
        ensures cheap { IfOk result (λ next. IsCheap
            (found_by (entry_of (length self.now.path.problem.changes) next))) }
        ensures holds { IfOk result (λ next. EntryHolds self.now.path.problem penalty
            (region_in self.now.path) self.now.best
            (entry_of (length self.now.path.problem.changes) next)) }
    {
        let bound = self.path.bound(penalty);
        if self.is_cut_off(bound) {
            return Ok(NextEntry::CutOff);
        }
        match self.path.first_broken() {
            Some(change) => Ok(NextEntry::Split { change }),
            None => self.found(alloc, bound),
        }
    }

    // Whether the best choice costs no more than a bound.
    fn is_cut_off(&self, bound: i128) -> bool
        ensures { result ≡ holds_off self.now.best bound }
    {
        match &self.best {
            None => false,
            Some(best) => best.cost <= bound,
        }
    }

    // The choice that is found in the region in hand, at the cost of its bound.
    fn found(&self, alloc: Global, bound: i128) -> Result<NextEntry, NoMemory>
        requires { IsWritable bound }
        ensures next { IfOk result (λ next. entry_of (length self.now.path.problem.changes) next
            ≡ found (record { kept = greatest_set (region_in self.now.path); cost = bound })) }
        ensures cheap { IfOk result (λ next. IsCheap
            (found_by (entry_of (length self.now.path.problem.changes) next))) }
    {
        let dropped = Vec::from_slice(alloc, self.path.dropped())?;
        Ok(NextEntry::Found {
            best: Best {
                dropped,
                cost: bound,
            },
        })
    }

    // Holds a choice as the best one.
    fn hold(&mut self, best: Best)
        ensures { self.new ≡ record self.old {
          best = Some (choice_of (length self.old.path.problem.changes) best);
        } }
    {
        self.best = Some(best);
    }

    // A split by a free change: on to the part that keeps it.
    fn split(&mut self, change: usize) -> Result<bool, NoMemory>
        requires { is_free_at (region_in self.old.path) change ≡ true }
        ensures { IfOk result (λ more. (more ≡ true) × Splits self.old self.new change) }
    {
        self.path.keep(change)?;
        self.tree.push(WaitNode::Split { change })?;
        Ok(true)
    }

    // A leaf: on to the next part that waits, where there is one.
    fn leave(&mut self) -> Result<bool, NoMemory>
        ensures { IfOk result (Leaves self.old self.new) }
    {
        self.tree.push(WaitNode::Leaf)?;
        self.path.go_on()
    }

    // What was found, where no region waits.
    fn whole(self, alloc: Global) -> Result<Option<Waits>, NoMemory>
        ensures { IfOk result
            (λ found. found ≡ option_map (with_tree (Some self.entry.nodes)) self.entry.best) }
    {
        let count = self.path.change_count();
        let Search {
            path: _,
            tree,
            best,
        } = self;
        found_waits(alloc, count, best, Some(tree))
    }

    // What was found, where the budget is spent.
    fn spent(self, alloc: Global) -> Result<Option<Waits>, NoMemory>
        ensures { IfOk result (λ found. found ≡ option_map (with_tree None) self.entry.best) }
    {
        let count = self.path.change_count();
        let Search {
            path: _,
            tree: _unproved,
            best,
        } = self;
        found_waits(alloc, count, best, None)
    }
}

// A choice over so many changes, with its tree or without, where there is one.
fn found_waits(
    alloc: Global,
    count: usize,
    best: Option<Best>,
    tree: Option<WaitTree>,
) -> Result<Option<Waits>, NoMemory>
    ensures { IfOk result (λ found. found ≡ option_map (with_tree tree) (best_in count best)) }
{
    match best {
        None => Ok(None),
        Some(best) => Ok(Some(Waits {
            kept: Kept::all_but(alloc, count, &best.dropped)?,
            cost: best.cost,
            tree,
        })),
    }
}
