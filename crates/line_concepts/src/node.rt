// Nodes of a tree.
ghost use Rattle.std.specs.Prelude.{◌≡◌};
ghost use Rattle.line_concepts.specs.Trees.{is_split};

use line_cost_model::{Multipliers, Side};

/// What a node of a tree says of its region.
#[derive(Debug)]
pub enum Node {
    Split { line: usize, at: u32 },
    Empty { edge: usize, side: Side },
    Bound { multipliers: Multipliers },
    Point,
}

impl Drop for Node {
    fn drop(self) {
        match self {
            Node::Split { line: _, at: _ } | Node::Empty { edge: _, side: _ } | Node::Point => {}
            Node::Bound { multipliers: _ } => {}
        }
    }
}

impl Node {
    pub(crate) fn is_split(&self) -> bool
        ensures { result ≡ is_split self.now }
    {
        match self {
            Node::Split { .. } => true,
            _ => false,
        }
    }
}
