// What a planner may ask beside the chain.
use crate::terminals::Terminals;

/// A question about a dataset.
#[derive(Debug, Drop)]
pub enum Form {
    /// A waiting decision at a penalty in minutes for each missed change, within a budget of entries.
    Waits {
        penalty: u32,
        budget: u32,
    },
    /// A test of a waiting decision that was saved, at a penalty.
    CheckWaits {
        penalty: u32,
    },
    /// A journey from a stop to another one that starts at a time or later, in minutes: as planned,
    /// or at disposed times.
    Journey {
        from: i64,
        to: i64,
        start: i64,
        disposed: bool,
    },
    /// A pool of lines between terminals.
    Pool(Terminals),
}
