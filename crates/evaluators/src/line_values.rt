// Values of the line concept.

/// What the runs of the line concept cost, in millionths, and how many of its lines run.
#[derive(Clone, Copy, Debug, PartialEq, Eq)]
pub struct LineValues {
    pub cost: u128,
    pub running: u64,
}
