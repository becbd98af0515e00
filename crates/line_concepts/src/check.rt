// What a tree certifies.
ghost use Rattle.std.specs.Prelude.{◌≡◌, ◌↔◌, slice_get, None, IfOk, IfNone, All};
ghost use Rattle.line_concepts.specs.Certified.{Certifies, CostsAtLeast};
ghost use Rattle.line_concepts.specs.TreeFaults.{tree_faults};
ghost use Rattle.line_concepts.specs.Nodes.{NamesWhatIs};

use crate::check_nodes::node_fault;
use crate::check_shape::shape_fault;
use crate::fault::TreeFault;
use crate::tree::Tree;
use line_cost_model::LineProblem;
use plan_num::NoMemory;
use std::alloc::Global;

/// The first reason for which a tree does not certify that each feasible concept costs so many
/// millionths at least; none where it does. Its shape is looked at first, and then its splits, its
/// empty edges, its multipliers, its bounds and its points, each kind node by node.
pub fn check_tree(
    alloc: Global,
    problem: &LineProblem,
    best: i128,
    tree: &Tree,
) -> Result<Option<TreeFault>, NoMemory>
    requires { All (NamesWhatIs problem.now) tree.now }
    ensures first { IfOk result
        (λ fault. fault ≡ slice_get (tree_faults problem.now best tree.now) 0) }
    ensures exact { IfOk result (λ fault. (fault ≡ None) ↔ Certifies problem.now best tree.now) }
    ensures least { IfOk result (λ fault. IfNone fault (CostsAtLeast problem.now best)) }
{
    match shape_fault(tree) {
        Some(fault) => Ok(Some(fault)),
        None => node_fault(alloc, problem, best, tree),
    }
}
