// The way of a search from region to region.
ghost use Rattle.std.specs.Prelude.{[], ◌≡◌, ◌*◌, ◌≤◌, ◌≤ℤ◌, ◌+ℤ◌, ◌∷◌, pos, true, false, drop, length, slice_get};
ghost use Rattle.std.specs.Prelude.{IfOk, IfSome, OnOk};
ghost use Rattle.propagation.specs.Problems.{IsForward};
ghost use Rattle.waiting_decisions.specs.Paths.{GoesOn, all_but, region_in};
ghost use Rattle.waiting_decisions.specs.Regions.{CostsAtLeastIn, bound_of, first_broken, greatest_set, is_free_at};
ghost use Rattle.waiting_decisions.specs.declared.cost.TheConstants.{MOST_COST};

use delay_trials::{Decided, Trial};
use plan_num::NoMemory;
use propagation::Propagation;
use std::alloc::Global;
use std::marker::Model;

/// The region that a search has come to: what is decided of its changes, and which of them are
/// dropped. Contracts see it as the day and the decisions, the last one first.
pub(crate) struct Path<'a> {
    trial: Trial<'a>,
    dropped: Vec<usize>,
}

impl Drop for Path<'_> {
    fn drop(self) {
        let Path {
            trial: _,
            dropped: _,
        } = self;
    }
}

impl<'a> Model for Path<'a> {
    ghost use Rattle.delay_trials.specs.Trials.{TrialParts};
    ghost use Rattle.waiting_decisions.specs.Paths.{IsPath};

    ghost Value = { TrialParts };

    ghost view = { λ path. path.trial };

    ghost invariant = { λ path. IsPath path.trial path.dropped.items };
}

impl<'a> Path<'a> {
    /// The region in which no change is decided.
    pub(crate) fn new(alloc: Global, problem: &'a Propagation) -> Result<Path<'a>, NoMemory>
        ensures value { IfOk result (λ path. path ≡ record { problem = problem.now; decided = [] }) }
        ensures forward { IsForward problem.now }
    {
        Ok(Path {
            trial: Trial::new(alloc, problem)?,
            dropped: Vec::new(alloc),
        })
    }

    /// How many changes there are.
    pub(crate) fn change_count(&self) -> usize
        ensures { result ≡ length self.now.problem.changes }
    {
        self.trial.change_count()
    }

    /// The changes that are dropped.
    pub(crate) fn dropped(&self) -> &[usize]
        ensures { all_but (length self.now.problem.changes) result.now
            ≡ greatest_set (region_in self.now) }
    {
        &self.dropped
    }

    /// The bound of the region at a penalty in minutes: no set of changes in it comes to less.
    pub(crate) fn bound(&self, penalty: u32) -> i128
        ensures value { result ≡ bound_of self.now.problem penalty (region_in self.now) }
        ensures least { pos 0 ≤ℤ result }
        ensures most { penalty ≤ 1000000 → result ≤ℤ pos MOST_COST }
        ensures holds { CostsAtLeastIn self.now.problem penalty (region_in self.now) result }
        ensures forward { IsForward self.now.problem }
    {
        with_penalties(self.trial.delay(), penalty, self.dropped.len())
    }

    /// The first free change that the times of the region break.
    pub(crate) fn first_broken(&self) -> Option<usize>
        ensures { result ≡ first_broken self.now.problem (region_in self.now) }
    {
        self.trial.first_broken()
    }

    /// Whether the change at an index is there and free.
    pub(crate) fn is_free(&self, change: usize) -> bool
        ensures { result ≡ is_free_at (region_in self.now) change }
    {
        change < self.trial.change_count() && !self.trial.is_decided(change)
    }

    /// To the part that keeps a free change.
    pub(crate) fn keep(&mut self, change: usize) -> Result<(), NoMemory>
        requires { is_free_at (region_in self.old) change ≡ true }
        ensures { OnOk result (self.new ≡ record self.old {
          decided = record { change = change; kept = true } ∷ self.old.decided;
        }) }
    {
        self.trial.keep(change)
    }

    /// To the next part that waits: the one that drops the change that was kept last. False where
    /// none waits.
    pub(crate) fn go_on(&mut self) -> Result<bool, NoMemory>
        ensures { IfOk result (GoesOn self.old self.new) }
    {
        while let Some(last) = self.step_back() {
            if last.kept {
                self.leave_out(last.change)?;
                return Ok(true);
            }
        }
        Ok(false)
    }

    // Takes the last decision back, where there is one; its change is free then.
    fn step_back(&mut self) -> Option<Decided>
        ensures last { result ≡ slice_get self.old.decided 0 }
        ensures rest { self.new ≡ record self.old { decided = drop 1 self.old.decided } }
        ensures free { IfSome result
            (λ last. is_free_at (region_in self.new) last.change ≡ true) }
    {
        match self.trial.take_back() {
            None => None,
            Some(last) => {
                if !last.kept {
                    self.dropped.pop();
                }
                Some(last)
            }
        }
    }

    // To the part that drops a free change.
    fn leave_out(&mut self, change: usize) -> Result<(), NoMemory>
        requires { is_free_at (region_in self.old) change ≡ true }
        ensures { OnOk result (self.new ≡ record self.old {
          decided = record { change = change; kept = false } ∷ self.old.decided;
        }) }
    {
        self.dropped.push(change)?;
        match self.trial.leave_out(change) {
            Ok(()) => Ok(()),
            Err(NoMemory) => {
                self.dropped.pop();
                Err(NoMemory)
            }
        }
    }
}

/// A delay, and a penalty for each change that is dropped.
pub(crate) fn with_penalties(delay: i128, penalty: u32, dropped: usize) -> i128
    requires least { pos 0 ≤ℤ delay }
    requires most { delay ≤ℤ pos 60000000000000000 }
    ensures { result ≡ delay +ℤ pos (penalty * dropped) }
{
    delay + i128::from(penalty) * dropped as i128
}
