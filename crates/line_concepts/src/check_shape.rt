// Whether nodes are one whole tree.
ghost use Rattle.std.specs.Prelude.{◌≡◌, ◌<◌, ◌+◌, length, slice_get, nat_lt, if◌then◌else◌, Some};
ghost use Rattle.std.specs.Prelude.{None};
ghost use Rattle.line_concepts.specs.declared.fault.TreeFault.TheVariants as fault;
ghost use Rattle.line_concepts.specs.TreeFaults.{shape_of, tree_in};

use crate::fault::TreeFault;
use crate::tree::Tree;

/// The fault for which nodes are not one whole tree, where they are none.
pub(crate) fn shape_fault(tree: &Tree) -> Option<TreeFault>
    ensures { result ≡ slice_get (shape_of (length tree.now) (tree_in tree.now)) 0 }
{
    // How many trees are to come behind the one that begins with the next node.
    let mut waiting = 0usize;
    for place in 0..tree.len() {
        if tree.node(place).is_split() {
            waiting += 1;
        } else if waiting == 0 {
            return left_over(tree.len(), place);
        } else {
            waiting -= 1;
        }
    }
    Some(TreeFault::Shape { node: tree.len() })
}

// The fault of so many nodes whose first tree ends at a place.
fn left_over(nodes: usize, place: usize) -> Option<TreeFault>
    requires { place < nodes }
    ensures { result ≡ if nat_lt (place + 1) nodes then Some (fault.Shape place) else None }
{
    if place + 1 < nodes {
        return Some(TreeFault::Shape { node: place });
    }
    None
}
