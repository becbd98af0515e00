// Where the walks of a line end.
ghost use Rattle.std.specs.Prelude.{◌≡◌, ◌||◌, is_some, option_and_then};
ghost use Rattle.walks.specs.Walks.{across};

use ptn_network::Edge;

/// Where the walks of a line end that begin at the left and at the right stop of its first edge.
#[derive(Clone, Copy)]
pub(crate) struct Ends {
    pub(crate) left: Option<usize>,
    pub(crate) right: Option<usize>,
}

impl Ends {
    /// The ends of the walks over one edge.
    pub(crate) fn of_edge(edge: &Edge) -> Ends
        ensures { result ≡ record { left = across edge.now edge.now.left; right = across edge.now edge.now.right } }
    {
        Ends {
            left: edge.across(edge.left),
            right: edge.across(edge.right),
        }
    }

    /// The ends of the walks that go on over one edge more.
    pub(crate) fn after(&self, edge: &Edge) -> Ends
        ensures { result ≡ record { left = option_and_then (across edge.now) self.now.left; right = option_and_then (across edge.now) self.now.right } }
    {
        Ends {
            left: across_from(edge, self.left),
            right: across_from(edge, self.right),
        }
    }

    /// Whether one of them is a whole walk.
    pub(crate) fn is_walk(&self) -> bool
        ensures { result ≡ (is_some self.now.left || is_some self.now.right) }
    {
        self.left.is_some() || self.right.is_some()
    }
}

// The stop at the other end of an edge from the end of a walk, where there is one.
fn across_from(edge: &Edge, end: Option<usize>) -> Option<usize>
    ensures { result ≡ option_and_then (across edge.now) end }
{
    match end {
        Some(stop) => edge.across(stop),
        None => None,
    }
}
