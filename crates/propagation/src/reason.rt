// Reasons of times.

/// Why an event is not earlier: its own earliest time, the activity of an id into it, or a turn of
/// a vehicle into it.
#[derive(Clone, Copy, Debug, PartialEq, Eq)]
pub enum Reason {
    Source,
    Activity { id: u32 },
    Turn,
}
