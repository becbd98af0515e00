// What a search says of a region.
ghost use Rattle.std.specs.Prelude.{◌≡◌, ◌<◌, ◌≤◌, length, option_map, unwrap_or, IfOk, IfSome};
ghost use Rattle.line_cost_model.specs.Multipliers.{AreMultipliers};
ghost use Rattle.line_cost_model.specs.Regions.{range_of};
ghost use Rattle.line_concepts.specs.declared.node.Node.TheVariants as node;
ghost use Rattle.line_concepts.specs.Nodes.{IsInLimits, NamesWhatIs};
ghost use Rattle.line_concepts.specs.Listings.{as_bound, as_split, middle, node_at};
ghost use Rattle.line_concepts.specs.Searches.{ArePriced, concept_in};

use crate::best::BestConcept;
use crate::first_open::first_open;
use crate::node::Node;
use line_cost_model::{KeptBound, Multipliers, SummedRegion};
use plan_num::NoMemory;
use std::alloc::Global;

/// What is said of a region beside the best concept so far: by an empty edge, by a dual bound that
/// is not below what that concept costs, by a split, or else that it is a single concept. The room
/// for a bound is kept.
pub(crate) fn node_at(
    alloc: Global,
    region: &SummedRegion,
    best: &Option<BestConcept>,
    bound: &mut KeptBound,
) -> Result<Node, NoMemory>
    requires { ArePriced region.now.problem best.now }
    ensures node { IfOk result
        (λ node. node ≡ node_at region.now.problem region.now.ranges (concept_in best.now)) }
    ensures names { IfOk result (NamesWhatIs region.now.problem) }
    ensures limits { IfOk result IsInLimits }
{
    if let Some((edge, side)) = region.empty_edge() {
        return Ok(Node::Empty { edge, side });
    }
    if let Some(multipliers) = bound_at(alloc, region, best, bound)? {
        return Ok(Node::Bound { multipliers });
    }
    Ok(split_at(region))
}

// The multipliers of a region, where its dual bound is not below what the best concept costs.
fn bound_at(
    alloc: Global,
    region: &SummedRegion,
    best: &Option<BestConcept>,
    bound: &mut KeptBound,
) -> Result<Option<Multipliers>, NoMemory>
    requires { ArePriced region.now.problem best.now }
    ensures node { IfOk result (λ found. option_map (λ ms. node.Bound ms) found
        ≡ as_bound region.now.problem region.now.ranges (concept_in best.now)) }
    ensures limits { IfOk result (λ found. IfSome found AreMultipliers) }
{
    let Some(best) = best else {
        return Ok(None);
    };
    region.renew_bound(bound)?;
    if best.cost <= bound.value {
        Ok(Some(bound.multipliers.copy(alloc)?))
    } else {
        Ok(None)
    }
}

// The split of a region at the middle of the range of its first open line; without one it is a
// single concept.
fn split_at(region: &SummedRegion) -> Node
    ensures node { result
        ≡ unwrap_or (as_split region.now.problem region.now.ranges) node.Point }
    ensures names { NamesWhatIs region.now.problem result }
    ensures limits { IsInLimits result }
{
    match first_open(region) {
        Some(line) => Node::Split {
            line,
            at: middle(region, line),
        },
        None => Node::Point,
    }
}

// The middle of the range of a line, rounded down.
fn middle(region: &SummedRegion, line: usize) -> u32
    requires { line < length region.now.ranges }
    ensures middle { result ≡ middle (range_of region.now.ranges line) }
    ensures few { result ≤ 1000 }
{
    let (lo, hi) = region.ends(line);
    (lo + hi) / 2
}
