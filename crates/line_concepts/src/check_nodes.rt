// Whether the nodes of a tree show what they are to show, each over its region.
ghost use Rattle.std.specs.Prelude.{◌≡◌, ◌∷◌, [], slice_get, IfOk, All};
ghost use Rattle.line_cost_model.specs.Regions.{HasEachFeasible, root_of};
ghost use Rattle.line_concepts.specs.TreeFaults.{placed_faults};
ghost use Rattle.line_concepts.specs.Nodes.{NamesWhatIs};
ghost use Rattle.line_concepts.specs.Walks.{walked};

use crate::fault::TreeFault;
use crate::first_faults::{FirstFaults, splits_outside};
use crate::region_walk::{RegionWalk, go_on};
use crate::tree::Tree;
use line_cost_model::LineProblem;
use plan_num::NoMemory;
use std::alloc::Global;

/// The first fault of the nodes of a tree, by kind, where the tree is whole.
pub(crate) fn node_fault(
    alloc: Global,
    problem: &LineProblem,
    best: i128,
    tree: &Tree,
) -> Result<Option<TreeFault>, NoMemory>
    requires { All (NamesWhatIs problem.now) tree.now }
    ensures first { IfOk result (λ fault. fault ≡ slice_get
        (placed_faults problem.now best (walked (root_of problem.now ∷ []) tree.now)) 0) }
    ensures each { IfOk result (λ _. HasEachFeasible problem.now (root_of problem.now)) }
{
    let mut walk = RegionWalk::without_sums(alloc, problem)?;
    let mut firsts = FirstFaults::new();
    let mut left = Vec::new(alloc);
    for place in 0..tree.len() {
        let node = tree.node(place);
        // No region is cut outside a range, so the places behind such a split have none.
        if splits_outside(walk.region(), node) {
            return Ok(Some(TreeFault::Split { node: place }));
        }
        firsts.note(best, walk.region(), place, node, &mut left)?;
        if !go_on(&mut walk, node)? {
            return Ok(firsts.first());
        }
    }
    Ok(firsts.first())
}
