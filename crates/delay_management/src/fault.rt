// What a disposition that does not pass breaks.

/// What is wrong with the times of a disposition or with their reasons. Events are told by their
/// indexes, from 0.
#[derive(Clone, Copy, Debug, PartialEq, Eq)]
pub enum ReasonFault {
    /// The text of times is no table.
    TimesRow,
    /// Its rows are not one for each event, in order.
    Events,
    /// An event is before its earliest time, or before what a step into it asks.
    Early { event: usize },
    /// The text of reasons is no table of one row for each event, in order.
    ReasonsRow,
    /// The reason of an event is not right.
    Reason { event: usize },
}
