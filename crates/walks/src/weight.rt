// What an edge counts in the sum of a walk.
ghost use Rattle.std.specs.Prelude.{◌≡◌, ◌≤◌, ℕ};
ghost use Rattle.walks.specs.Labels.{weight_of, most_of};
ghost use Rattle.walks.specs.Networks.{IsEdge};

use crate::edge::Edge;

/// The length of an edge, or the least time of a drive.
#[derive(Clone, Copy)]
pub(crate) enum Weight {
    Length,
    Time,
}

impl Weight {
    /// What an edge counts.
    pub(crate) fn of(self, edge: &Edge) -> u64
        ensures value { result ≡ weight_of self edge.now }
        ensures small { (stops : ℕ) → IsEdge stops edge.now → result ≤ most_of self }
    {
        match self {
            Weight::Length => edge.length.unsigned_abs(),
            Weight::Time => edge.lower.unsigned_abs(),
        }
    }
}
