// Events whose times are changed on trial.

/// An event, and its time before it was made later.
#[derive(Clone, Copy)]
pub(crate) struct Moved {
    pub(crate) event: u32,
    pub(crate) before: u64,
}
