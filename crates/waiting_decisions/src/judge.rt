// The judge of a tree from any hand.
ghost use Rattle.std.specs.Prelude.{◌≡◌, pos, None, IfNone, IfOk};
ghost use Rattle.propagation.specs.Problems.{IsForward};
ghost use Rattle.waiting_decisions.specs.Certified.{Certifies};
ghost use Rattle.waiting_decisions.specs.Choices.{CostsAtLeast};
ghost use Rattle.waiting_decisions.specs.TreeFaults.{first_fault};

use crate::fault::TreeFault;
use crate::node::WaitNode;
use crate::walk::Walk;
use plan_num::NoMemory;
use propagation::Propagation;
use std::alloc::Global;

/// The first fault of nodes from any hand as the preorder of a tree that proves a cost, in minutes
/// and at a penalty in minutes; none exactly where they certify it, and then no waiting decision
/// costs less.
pub fn judge_nodes(
    alloc: Global,
    problem: &Propagation,
    penalty: u32,
    cost: u64,
    nodes: &[WaitNode],
) -> Result<Option<TreeFault>, NoMemory>
    ensures first { IfOk result
        (λ fault. fault ≡ first_fault problem.now penalty (pos cost) nodes.now) }
    ensures proves { IfOk result
        (λ fault. IfNone fault (Certifies problem.now penalty (pos cost) nodes.now)) }
    ensures only { IfOk result
        (λ fault. Certifies problem.now penalty (pos cost) nodes.now → fault ≡ None) }
    ensures least { IfOk result (λ fault. IfNone fault (CostsAtLeast problem.now penalty (pos cost))) }
{
    first_fault(alloc, problem, penalty, cost, nodes)
}

// The first fault, by a walk over the nodes.
fn first_fault(
    alloc: Global,
    problem: &Propagation,
    penalty: u32,
    cost: u64,
    nodes: &[WaitNode],
) -> Result<Option<TreeFault>, NoMemory>
    ensures first { IfOk result
        (λ fault. fault ≡ first_fault problem.now penalty (pos cost) nodes.now) }
    ensures forward { IsForward problem.now }
{
    let mut walk = Walk::new(alloc, problem)?;
    for node in nodes {
        if !walk.take(penalty, cost, *node)? {
            return Ok(Some(TreeFault::NotWhole));
        }
    }
    Ok(walk.fault())
}
