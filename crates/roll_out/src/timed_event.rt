// Events of runs, with their times.
use event_tables::{PeriodicActivity, PeriodicEvent};

/// An event of a run, with the minutes from the start of the run to it, and with the drive or wait
/// that leads to the next event of the run, where there is one.
#[derive(Clone, Copy)]
pub(crate) struct TimedEvent {
    pub(crate) event: PeriodicEvent,
    pub(crate) minutes: u32,
    pub(crate) way: Option<PeriodicActivity>,
}
