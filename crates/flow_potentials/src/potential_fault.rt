// Why potentials are not valid.

/// Why potentials are not valid for a plan.
#[derive(Clone, Copy, Debug, PartialEq, Eq)]
pub enum PotentialFault {
    /// The link from a trip to another gains more than their two potentials.
    Pair { i: usize, j: usize },
    /// All potentials together are not the gain of the plan.
    Sum,
}
