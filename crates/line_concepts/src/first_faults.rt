// The first faults of nodes, by kind.
ghost use Rattle.std.specs.Prelude.{◌≡◌, None, IfOk, OnOk};
ghost use Rattle.line_concepts.specs.TreeFaults.{exceeds_costs, is_below, is_no_point};
ghost use Rattle.line_concepts.specs.TreeFaults.{is_not_empty, splits_outside};
ghost use Rattle.line_concepts.specs.Nodes.{NamesWhatIs};
ghost use Rattle.line_concepts.specs.Walks.{SplitsOne, first_by_kind, first_place, noted};

use crate::fault::TreeFault;
use crate::node::Node;
use line_cost_model::SummedRegion;
use plan_num::NoMemory;

/// The first places, so far, of each kind of fault of a leaf.
#[derive(Clone, Copy)]
pub(crate) struct FirstFaults {
    empty: Option<usize>,
    multiplier: Option<usize>,
    bound: Option<usize>,
    point: Option<usize>,
}

impl FirstFaults {
    /// Before the first node.
    pub(crate) fn new() -> FirstFaults
        ensures { result ≡ record { empty = None; multiplier = None; bound = None; point = None } }
    {
        FirstFaults {
            empty: None,
            multiplier: None,
            bound: None,
            point: None,
        }
    }

    /// One node more, which stands over a region. The room for what is left of the costs of lines
    /// is kept.
    pub(crate) fn note(
        &mut self,
        best: i128,
        region: &SummedRegion,
        place: usize,
        node: &Node,
        left: &mut Vec<u64>,
    ) -> Result<(), NoMemory>
        requires { NamesWhatIs region.now.problem node.now }
        ensures { OnOk result (self.new ≡ noted region.now.problem best self.old place
            (record { node = node.now; region = region.now.ranges })) }
    {
        let exceeds = exceeds_costs(region, node, left)?;
        self.empty = first_place(self.empty, is_not_empty(region, node), place);
        self.multiplier = first_place(self.multiplier, exceeds, place);
        self.bound = first_place(self.bound, is_below(best, region, node), place);
        self.point = first_place(self.point, is_no_point(best, region, node), place);
        Ok(())
    }

    /// The first fault by kind.
    pub(crate) fn first(&self) -> Option<TreeFault>
        ensures { result ≡ first_by_kind self.now }
    {
        if let Some(node) = self.empty {
            return Some(TreeFault::Empty { node });
        }
        if let Some(node) = self.multiplier {
            return Some(TreeFault::Multiplier { node });
        }
        if let Some(node) = self.bound {
            return Some(TreeFault::Bound { node });
        }
        match self.point {
            Some(node) => Some(TreeFault::Point { node }),
            None => None,
        }
    }
}

// A place, where there was none before it and it fails.
fn first_place(first: Option<usize>, fails: bool, place: usize) -> Option<usize>
    ensures { result ≡ first_place first fails place }
{
    if first.is_none() && fails {
        return Some(place);
    }
    first
}

/// Whether a node splits the range of a line outside of it.
pub(crate) fn splits_outside(region: &SummedRegion, node: &Node) -> bool
    requires { SplitsOne region.now.ranges node.now }
    ensures { result ≡ splits_outside region.now.ranges node.now }
{
    match node {
        Node::Split { line, at } => {
            let (lo, hi) = region.ends(*line);
            !(lo <= *at && *at < hi)
        }
        _ => false,
    }
}

// Whether a node names an edge as empty that is not.
fn is_not_empty(region: &SummedRegion, node: &Node) -> bool
    requires { NamesWhatIs region.now.problem node.now }
    ensures { result ≡ is_not_empty region.now.problem region.now.ranges node.now }
{
    match node {
        Node::Empty { edge, side } => !region.is_empty_on(*edge, *side),
        _ => false,
    }
}

// Whether a node has multipliers that take more off an open line than it costs.
fn exceeds_costs(region: &SummedRegion, node: &Node, left: &mut Vec<u64>) -> Result<bool, NoMemory>
    requires { NamesWhatIs region.now.problem node.now }
    ensures { IfOk result
        (λ exceeds. exceeds ≡ exceeds_costs region.now.problem region.now.ranges node.now) }
{
    match node {
        Node::Bound { multipliers } => Ok(!region.are_within(multipliers, left)?),
        _ => Ok(false),
    }
}

// Whether a node has a bound that is below a cost.
fn is_below(best: i128, region: &SummedRegion, node: &Node) -> bool
    requires { NamesWhatIs region.now.problem node.now }
    ensures { result ≡ is_below region.now.problem best region.now.ranges node.now }
{
    match node {
        Node::Bound { multipliers } => !(best <= region.bound_by(multipliers)),
        _ => false,
    }
}

// Whether a node is a point over a region that is no one concept, or that costs less.
fn is_no_point(best: i128, region: &SummedRegion, node: &Node) -> bool
    ensures { result ≡ is_no_point region.now.problem best region.now.ranges node.now }
{
    match node {
        Node::Point => region.has_several() || !(best <= region.least_cost()),
        _ => false,
    }
}
