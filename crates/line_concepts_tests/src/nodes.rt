// Trees that are made by hand.
ghost use Rattle.std.specs.Prelude.{◌≡◌, [], All, IfOk, IfSome};
ghost use Rattle.line_concepts.specs.declared.node.Node.TheVariants as node;
ghost use Rattle.line_concepts.specs.Nodes.{NamesWhatIs};

use line_concepts::{Node, Tree};
use line_cost_model::{LineProblem, Multipliers, Side};
use plan_num::NoMemory;
use std::alloc::Global;

/// What a node says: a split of the range of a line, an edge that is driven too seldom, a bound
/// without a multiplier, or a single concept.
#[derive(Clone, Copy)]
pub(crate) enum Says {
    Split(usize, u32),
    Under(usize),
    Bound,
    Point,
}

/// The nodes that say this. One that names a line or an edge that is not there is left out.
pub(crate) fn tree_of(alloc: Global, problem: &LineProblem, said: &[Says]) -> Result<Tree, NoMemory>
    ensures { IfOk result (All (NamesWhatIs problem.now)) }
{
    let mut tree = Tree::new(alloc);
    for says in said {
        let Some(node) = node_of(alloc, problem, *says) else {
            continue;
        };
        tree.push(node)?;
    }
    Ok(tree)
}

// The node that says this, where it names what is there.
fn node_of(alloc: Global, problem: &LineProblem, says: Says) -> Option<Node>
    ensures { IfSome result (NamesWhatIs problem.now) }
{
    match says {
        Says::Split(line, at) => split_of(problem, line, at),
        Says::Under(edge) => empty_of(problem, edge),
        Says::Bound => Some(bound_of(alloc)),
        Says::Point => Some(Node::Point),
    }
}

// A split, where the line is there.
fn split_of(problem: &LineProblem, line: usize, at: u32) -> Option<Node>
    ensures { IfSome result (NamesWhatIs problem.now) }
{
    if line < problem.line_count() {
        Some(Node::Split { line, at })
    } else {
        None
    }
}

// An edge that is driven too seldom, where it is there.
fn empty_of(problem: &LineProblem, edge: usize) -> Option<Node>
    ensures { IfSome result (NamesWhatIs problem.now) }
{
    if edge < problem.edge_count() {
        let side = Side::Under;
        Some(Node::Empty { edge, side })
    } else {
        None
    }
}

// A bound without a multiplier.
fn bound_of(alloc: Global) -> Node
    ensures { result ≡ node.Bound [] }
{
    Node::Bound {
        multipliers: Multipliers::new(alloc),
    }
}
