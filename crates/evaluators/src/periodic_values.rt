// Values of the periodic timetable.

/// How many periodic events and activities there are, and the minutes that all drives, all waits
/// and all changes take.
#[derive(Clone, Copy, Debug, PartialEq, Eq)]
pub struct PeriodicValues {
    pub events: u64,
    pub activities: u64,
    pub drive: u64,
    pub wait: u64,
    pub change: u64,
}
