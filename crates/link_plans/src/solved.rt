// A plan with its certificate.

use crate::numbers::Potentials;
use crate::plan::Plan;

/// A plan of links, and potentials of its trips, in millionths, that prove that no plan gains more.
#[derive(Debug, Drop)]
pub struct Solved {
    /// The plan.
    pub plan: Plan,
    /// The potentials.
    pub potentials: Potentials,
}
