// Least sums over the walks from one stop.
ghost use Rattle.std.specs.Prelude.{◌≡◌, ◌<◌, length, slice_get, Some, IfSome};
ghost use Rattle.walks.specs.Walks.{IsSumUpTo};

use std::marker::Model;

/// The least sums over the walks from one stop to each stop, in the order of the stops: lengths in
/// millionths, or minutes. Contracts see it as their list. A stop to which no walk goes has none,
/// and no sum is above 10^13.
#[derive(Debug, Drop)]
pub struct Reach {
    pub(crate) sums: Vec<Option<i64>>,
}

impl Model for Reach {
    ghost use Rattle.std.specs.Prelude.{List, ℤ, Option};
    ghost use Rattle.walks.specs.Walks.{AreSumsUpTo};

    ghost Value = { List (Option ℤ) };

    ghost view = { λ reach. reach.sums.items };

    ghost invariant = { λ reach. AreSumsUpTo 10000000000000 reach.sums.items };
}

impl Reach {
    /// The least sum over all walks to a stop.
    pub fn at(&self, stop: usize) -> Option<i64>
        requires { stop < length self.now }
        ensures place { slice_get self.now stop ≡ Some result }
        ensures small { IfSome result (IsSumUpTo 10000000000000) }
    {
        self.sums[stop]
    }
}
