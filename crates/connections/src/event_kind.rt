// Kinds of events.

/// What happens at a stop.
#[derive(Clone, Copy, Debug)]
pub enum EventKind {
    Departure,
    Arrival,
}
