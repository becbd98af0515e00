// Values of a day.

/// How many vehicles there are, the minutes of their empty rides, how late all arrivals are
/// together, the greatest delay of an event, both in minutes, and how many changes are missed.
#[derive(Clone, Copy, Debug, PartialEq, Eq)]
pub struct DayValues {
    pub vehicles: u64,
    pub empty_minutes: u64,
    pub delay: i128,
    pub greatest: u64,
    pub missed: u64,
}
