// What is asked of a day.

/// A question: how to get from one stop to another, not before a time in minutes.
#[derive(Clone, Copy)]
pub(crate) struct Query {
    pub(crate) from: i64,
    pub(crate) to: i64,
    pub(crate) start: i64,
}
