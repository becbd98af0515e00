// Labels of stops.
ghost use Rattle.std.specs.Prelude.{◌≡◌, ◌≤◌, pos, IfSome};
ghost use Rattle.std.specs.Option.{option_map};
ghost use Rattle.walks.specs.Labels.{sum_of, is_nearer, is_reached_with};

/// What is known of a stop: nothing, the least sum of the walks so far, or the least sum of all
/// walks.
#[derive(Clone, Copy)]
pub(crate) enum Label {
    Unseen,
    Reached(u64),
    Settled(u64),
}

impl Label {
    /// Whether a walk of a sum comes nearer than those before it, to a stop that is not settled.
    pub(crate) fn is_nearer(self, sum: u64) -> bool
        ensures { result ≡ is_nearer sum self }
    {
        match self {
            Label::Unseen => true,
            Label::Reached(other) => sum < other,
            Label::Settled(_) => false,
        }
    }

    /// Whether a sum is the least of the walks so far, to a stop that is not settled.
    pub(crate) fn is_reached_with(self, sum: u64) -> bool
        ensures { result ≡ is_reached_with sum self }
    {
        match self {
            Label::Reached(other) => other == sum,
            Label::Unseen | Label::Settled(_) => false,
        }
    }

    /// Its sum.
    pub(crate) fn sum(self) -> Option<i64>
        requires { IfSome (sum_of self) (λ sum. sum ≤ 10000000000000) }
        ensures { result ≡ option_map pos (sum_of self) }
    {
        match self {
            Label::Unseen => None,
            Label::Reached(sum) => Some(sum as i64),
            Label::Settled(sum) => Some(sum as i64),
        }
    }
}
