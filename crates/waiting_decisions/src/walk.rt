// The walk over the nodes of a tree from any hand.
ghost use Rattle.std.specs.Prelude.{ℕ, ℤ, ◌≡◌, ◌||◌, int_lt, pos, [], true, false, IfOk};
ghost use Rattle.propagation.specs.Problems.{IsForward};
ghost use Rattle.waiting_decisions.specs.declared.node.WaitNode.TheVariants as node;
ghost use Rattle.waiting_decisions.specs.Paths.{region_in};
ghost use Rattle.waiting_decisions.specs.Regions.{bound_of};
ghost use Rattle.waiting_decisions.specs.Walks.{TakesNode, fault_behind};

use crate::fault::TreeFault;
use crate::node::WaitNode;
use crate::path::Path;
use plan_num::NoMemory;
use propagation::Propagation;
use std::alloc::Global;
use std::marker::Model;

/// A walk between two nodes: the region that it has come to, whether one waits, and whether a leaf
/// had a bound below the cost.
pub(crate) struct Walk<'a> {
    path: Path<'a>,
    is_waiting: bool,
    is_low: bool,
}

impl Drop for Walk<'_> {
    fn drop(self) {
        let Walk {
            path: _,
            is_waiting: _,
            is_low: _,
        } = self;
    }
}

impl<'a> Model for Walk<'a> {
    ghost use Rattle.waiting_decisions.specs.Walks.{Walking};

    ghost Value = { Walking };

    ghost view = { λ walk. record {
      path = walk.path;
      is_waiting = walk.is_waiting;
      is_low = walk.is_low;
    } };
}

impl<'a> Walk<'a> {
    /// Before the first node: the region in which no change is decided waits.
    pub(crate) fn new(alloc: Global, problem: &'a Propagation) -> Result<Walk<'a>, NoMemory>
        ensures value { IfOk result (λ walk. walk ≡ record {
          path = record { problem = problem.now; decided = [] };
          is_waiting = true;
          is_low = false;
        }) }
        ensures forward { IsForward problem.now }
    {
        Ok(Walk {
            path: Path::new(alloc, problem)?,
            is_waiting: true,
            is_low: false,
        })
    }

    /// One node more of a tree for a cost; false where none fits here, or the change that it splits
    /// is not free.
    pub(crate) fn take(&mut self, penalty: u32, cost: u64, node: WaitNode) -> Result<bool, NoMemory>
        ensures { IfOk result (TakesNode penalty (pos cost) node self.old self.new) }
    {
        if !self.is_waiting {
            return Ok(false);
        }
        match node {
            WaitNode::Leaf => self.leave(penalty, cost),
            WaitNode::Split { change } => self.split(change),
        }
    }

    // A leaf: on to the next part that waits, where there is one.
    fn leave(&mut self, penalty: u32, cost: u64) -> Result<bool, NoMemory>
        requires { self.old.is_waiting ≡ true }
        ensures { IfOk result (TakesNode penalty (pos cost) node.Leaf self.old self.new) }
    {
        self.is_low = self.is_low_with(penalty, cost);
        self.is_waiting = self.path.go_on()?;
        Ok(true)
    }

    // Whether a leaf was low, or the region in hand is.
    fn is_low_with(&self, penalty: u32, cost: u64) -> bool
        ensures { result ≡ (self.now.is_low || int_lt (bound_of self.now.path.problem penalty
            (region_in self.now.path)) (pos cost)) }
    {
        self.is_low || self.path.bound(penalty) < i128::from(cost)
    }

    // A split: on to the part that keeps the change, where it is free.
    fn split(&mut self, change: usize) -> Result<bool, NoMemory>
        requires { self.old.is_waiting ≡ true }
        ensures { IfOk result (λ goes. (penalty : ℕ) (cost : ℤ)
            → TakesNode penalty cost (node.Split change) self.old self.new goes) }
    {
        if !self.path.is_free(change) {
            return Ok(false);
        }
        self.path.keep(change)?;
        Ok(true)
    }

    /// The fault of nodes where no more of them follow.
    pub(crate) fn fault(&self) -> Option<TreeFault>
        ensures { result ≡ fault_behind self.now }
    {
        if self.is_waiting {
            Some(TreeFault::NotWhole)
        } else if self.is_low {
            Some(TreeFault::LowLeaf)
        } else {
            None
        }
    }
}
